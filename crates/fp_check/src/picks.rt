//! Conditions 8 and 9: the targets over each base, and the choice of rows by them.

ghost use Rattle.std.specs.Prelude.{◌≡◌, ◌↔◌, IfOk, IfSome, IsTrue, length};
ghost use Rattle.fp_tech.specs.Plan.{segments};
ghost use Rattle.fp_tech.specs.Slots.{Slots};
ghost use Rattle.fp_place.specs.Settled.{KeepRules};
ghost use Rattle.fp_place.specs.Placed.{lanes_of, places_of, IsPlacementOf};
ghost use Rattle.fp_score.specs.Pick.{picked};
ghost use Rattle.fp_score.specs.Target.{AreTargets};
ghost use Rattle.fp_coarse.specs.Picking.{CanPick};
ghost use Rattle.fp_cert.specs.Standing.{dies_shown, places_shown, targets_shown};
ghost use Rattle.fp_check.specs.Conditions.{OfNext, OfNextPlaced, IsPick};
ghost use Rattle.fp_check.specs.Picks.{HaveLayouts, HasTargets, HasRows, AreLanesPicked, StopsAt, StopsOver, IsNearLayout};
ghost use Rattle.fp_check.specs.Views.{AreViews};

use crate::views::{Layout, View};
use fp_base::{CellId, Die, NoMemory, Point, SegId, Side};
use fp_cert::{Ending, Run};
use fp_coarse::{Picked, pick, targets};
use fp_netlist::Problem;
use fp_place::{Lanes, Placement};
use std::alloc::Global;

/// Whether each trial behind the first that placed its cells has the targets over its base.
pub fn have_targets(
    alloc: Global,
    problem: &Problem,
    run: &Run,
    views: &[View],
) -> Result<bool, NoMemory>
    requires views { (grid : Slots) × AreViews problem.now grid run.now views.now }
    requires bases { HaveLayouts run.now }
    ensures { IfOk result (λ b. IsTrue b
        ↔ OfNextPlaced run.now (λ base trial. AreTargets problem.now (places_shown problem.now base) (dies_shown problem.now trial) (targets_shown problem.now trial))) }
{
    for number in 1..run.trials().len() {
        if !has_targets(alloc, problem, &views[number - 1], &views[number])? {
            return Ok(false);
        }
    }
    Ok(true)
}

/// Whether a trial has the targets over its base, where both placed their cells.
fn has_targets(alloc: Global, problem: &Problem, base: &View, view: &View) -> Result<bool, NoMemory>
    requires base { IfSome base.now.layout (λ layout. IsPlacementOf problem.now layout.placement) }
    requires dies { length view.now.dies.items ≡ length problem.now.cells }
    requires targets { IfSome view.now.layout (λ layout. length layout.targets.items ≡ length problem.now.cells) }
    ensures { IfOk result (λ b. IsTrue b ↔ HasTargets problem.now base.now view.now) }
{
    match (&base.layout, &view.layout) {
        (Some(from), Some(to)) => are_targets(
            alloc,
            problem,
            &from.placement,
            &view.dies,
            &to.targets,
        ),
        _ => Ok(true),
    }
}

/// Whether these are the targets over a base.
fn are_targets(
    alloc: Global,
    problem: &Problem,
    base: &Placement,
    dies: &[Die],
    aims: &[Point],
) -> Result<bool, NoMemory>
    requires base { IsPlacementOf problem.now base.now }
    requires dies { length dies.now ≡ length problem.now.cells }
    ensures { IfOk result (λ b. IsTrue b ↔ AreTargets problem.now (places_of base.now) dies.now aims.now) }
{
    let found = targets(alloc, problem, base, dies)?;
    let same = found.as_slice() == aims;
    drop(found);
    Ok(same)
}

/// Whether each trial behind the first has the rows that are chosen for its dies and targets; or names the cell for which there is none.
pub fn have_rows(
    alloc: Global,
    problem: &Problem,
    run: &Run,
    views: &[View],
) -> Result<bool, NoMemory>
    requires views { (grid : Slots) × AreViews problem.now grid run.now views.now }
    requires bases { HaveLayouts run.now }
    requires rules { OfNext run.now (λ base trial. KeepRules problem.now (dies_shown problem.now trial)) }
    requires targets { OfNextPlaced run.now (λ base trial. AreTargets problem.now (places_shown problem.now base) (dies_shown problem.now trial) (targets_shown problem.now trial)) }
    ensures { IfOk result (λ b. IsTrue b ↔ OfNext run.now (λ base trial. IsPick problem.now base trial trial.ending)) }
{
    let _cells = problem.cells();
    let trials = run.trials();
    for number in 1..trials.len() {
        if !has_rows(
            alloc,
            problem,
            trials[number].ending(),
            &views[number - 1],
            &views[number],
        )? {
            return Ok(false);
        }
    }
    Ok(true)
}

/// Whether a trial's rows are the chosen ones, or there is none for the cell at which it ended.
fn has_rows(
    alloc: Global,
    problem: &Problem,
    ending: Ending,
    base: &View,
    view: &View,
) -> Result<bool, NoMemory>
    requires base { IfSome base.now.layout (λ layout. IsPlacementOf problem.now layout.placement) }
    requires layout { IfSome view.now.layout (IsNearLayout problem.now) }
    requires rules { KeepRules problem.now view.now.dies.items }
    ensures { IfOk result (λ b. IsTrue b ↔ HasRows problem.now ending base.now view.now) }
{
    match &view.layout {
        Some(layout) => picks_lanes(alloc, problem, &view.dies, layout),
        None => stops_over(alloc, problem, &view.dies, &base.layout, ending),
    }
}

/// Whether the choice of rows for a layout's dies and targets gives its lanes.
fn picks_lanes(
    alloc: Global,
    problem: &Problem,
    dies: &[Die],
    layout: &Layout,
) -> Result<bool, NoMemory>
    requires layout { IsNearLayout problem.now layout.now }
    requires rules { KeepRules problem.now dies.now }
    ensures { IfOk result (λ b. IsTrue b ↔ AreLanesPicked problem.now dies.now layout.now) }
{
    match pick(alloc, problem, dies, &layout.targets)? {
        Picked::Rows { top, bottom } => {
            let same = are_lanes(problem, &top, &layout.placement)
                && are_lanes(problem, &bottom, &layout.placement);
            drop(top);
            drop(bottom);
            Ok(same)
        }
        Picked::NoRow(_) => Ok(false),
    }
}

/// Whether these are a placement's lanes on a die.
fn are_lanes<S: Side>(problem: &Problem, lanes: &Lanes<S>, placement: &Placement) -> bool
    requires of_problem { IsPlacementOf problem.now placement.now }
    requires many { length lanes.now ≡ length (segments problem.now.plan S.DIE) }
    ensures { IsTrue result ↔ (lanes.now ≡ lanes_of placement.now S.DIE) }
{
    let _cells = problem.cells();
    for segment in 0..lanes.len() as u32 {
        if lanes.lane(SegId::new(segment)) != placement.lane(S::DIE, segment) {
            return false;
        }
    }
    true
}

/// Whether the choice of rows for dies, and the targets over a base, fails at the cell at which a trial ended.
fn stops_over(
    alloc: Global,
    problem: &Problem,
    dies: &[Die],
    base: &Option<Layout>,
    ending: Ending,
) -> Result<bool, NoMemory>
    requires base { IfSome base.now (λ layout. IsPlacementOf problem.now layout.placement) }
    requires rules { KeepRules problem.now dies.now }
    ensures { IfOk result (λ b. IsTrue b ↔ StopsOver problem.now dies.now base.now ending) }
{
    match (base, ending) {
        (Some(layout), Ending::NoRow(cell)) => stops_at(
            alloc,
            problem,
            dies,
            &layout.placement,
            cell,
        ),
        _ => Ok(false),
    }
}

/// Whether the choice of rows for dies, and the targets over a base, fails at a cell.
fn stops_at(
    alloc: Global,
    problem: &Problem,
    dies: &[Die],
    base: &Placement,
    cell: CellId,
) -> Result<bool, NoMemory>
    requires base { IsPlacementOf problem.now base.now }
    requires rules { KeepRules problem.now dies.now }
    ensures { IfOk result (λ b. IsTrue b ↔ StopsAt problem.now (places_of base.now) dies.now cell.0) }
{
    let over = targets(alloc, problem, base, dies)?;
    let found = picks_none(alloc, problem, dies, &over, cell);
    drop(over);
    found
}

/// Whether the choice of rows for dies and targets fails at a cell.
fn picks_none(
    alloc: Global,
    problem: &Problem,
    dies: &[Die],
    aims: &[Point],
    cell: CellId,
) -> Result<bool, NoMemory>
    requires { CanPick problem.now dies.now aims.now }
    ensures { IfOk result (λ b. IsTrue b ↔ (picked problem.now dies.now aims.now ≡ Err cell.0)) }
{
    match pick(alloc, problem, dies, aims)? {
        Picked::NoRow(stuck) => Ok(stuck == cell),
        Picked::Rows { top, bottom } => {
            drop(top);
            drop(bottom);
            Ok(false)
        }
    }
}
