//! The check: the sixteen conditions in their order, up to the first that is false.

ghost use Rattle.std.specs.Prelude.{◌≡◌, ◌↔◌, ◌<◌, ◌≤◌, IfOk, IfSome, IsTrue, Some, length, slice_get};
ghost use Rattle.fp_tech.specs.Slots.{Slots, slot_count, IsGrid};
ghost use Rattle.fp_place.specs.Placed.{IsPlacementOf};
ghost use Rattle.fp_cert.specs.OfProblem.{IsRunOf};
ghost use Rattle.fp_check.specs.Answers.{AreNetsOf};
ghost use Rattle.fp_check.specs.Conditions.{AreCutsListed, IsScoreOf, OfPlaced, CertOk, Finds};
ghost use Rattle.fp_check.specs.Finding.{HoldBelow, IsTold, FindsAt};
ghost use Rattle.fp_check.specs.Seeds.{IsSeedPlaced};
ghost use Rattle.fp_check.specs.Sound.{Shows};
ghost use Rattle.fp_check.specs.Starting.{IsLayoutFor, StartsView, IsAnswerFor, DrawsView};
ghost use Rattle.fp_check.specs.Views.{AreViews};

use crate::answer::draws;
use crate::cuts::{have_prices, list_cuts};
use crate::dies::{are_settled, cut_no_more, keep_rules};
use crate::going::goes_on;
use crate::listing::lists_once;
use crate::picks::{have_rows, have_targets};
use crate::rows::{are_feasible, have_duals};
use crate::scores::{are_better_rightly, are_scores};
use crate::start::starts_like;
use crate::views::{View, views_of};
use fp_base::NoMemory;
use fp_cert::{Finding, Run};
use fp_netlist::Problem;
use fp_place::{Drawn, Placement};
use fp_seed::{SeedFault, seed};
use fp_tech::Grid;
use std::alloc::Global;

/// Whether a drawing is the answer of a run of trials, and the run is one that its problem allows, tried by the sixteen conditions of a
/// certificate in their order: `No` tells the number of the first that is false. The seed, the settled dies, the targets, the choices of
/// rows and the scores are computed again; that rows and slots are the best is shown by the run's duals and prices, and nothing that made
/// the run is trusted. The certificate, its conditions and their order are our own.
pub fn check(
    alloc: Global,
    problem: &Problem,
    drawn: &Drawn,
    run: &Run,
) -> Result<Finding, NoMemory>
    requires run { (grid : Slots) → IsGrid problem.now.plan.frame problem.now.plan.terminal grid → IsRunOf problem.now (slot_count grid) run.now }
    requires nets { AreNetsOf problem.now drawn.now }
    ensures finds { IfOk result (Finds problem.now drawn.now run.now) }
    // What the conditions show, of any drawing and run of a problem: the drawing is legal and is the answer of the problem's run of trials.
    ensures sound { CertOk problem.now drawn.now run.now → Shows problem.now drawn.now run.now }
{
    let _cells = problem.cells();
    let grid = Grid::of(problem.dies());
    match seed(alloc, problem) {
        Ok(seeded) => {
            let found = check_run(alloc, problem, &grid, &seeded.placement, drawn, run);
            drop(seeded);
            found
        }
        Err(SeedFault::Unfit { .. }) => Ok(Finding::No(1)),
        Err(SeedFault::Memory) => Err(NoMemory),
    }
}

/// Tries all conditions but the first, over the problem's grid and the placement of its seed.
fn check_run(
    alloc: Global,
    problem: &Problem,
    grid: &Grid,
    seed: &Placement,
    drawn: &Drawn,
    run: &Run,
) -> Result<Finding, NoMemory>
    requires grid { IsGrid problem.now.plan.frame problem.now.plan.terminal grid.now }
    requires of_problem { IsRunOf problem.now (slot_count grid.now) run.now }
    requires nets { AreNetsOf problem.now drawn.now }
    requires seed { IsSeedPlaced problem.now grid.now seed.now }
    ensures { IfOk result (FindsAt problem.now grid.now drawn.now run.now) }
{
    if !goes_on(run) {
        return Ok(Finding::No(2));
    }
    if !lists_once(alloc, problem, run)? {
        return Ok(Finding::No(3));
    }
    let views = views_of(alloc, problem, grid, run)?;
    let found = check_views(alloc, problem, grid, seed, drawn, run, &views);
    drop(views);
    found
}

/// Tries the conditions from the fourth on, by what each trial shows of its cells.
fn check_views(
    alloc: Global,
    problem: &Problem,
    grid: &Grid,
    seed: &Placement,
    drawn: &Drawn,
    run: &Run,
    views: &[View],
) -> Result<Finding, NoMemory>
    requires grid { IsGrid problem.now.plan.frame problem.now.plan.terminal grid.now }
    requires of_problem { IsRunOf problem.now (slot_count grid.now) run.now }
    requires nets { AreNetsOf problem.now drawn.now }
    requires seed { IsSeedPlaced problem.now grid.now seed.now }
    requires views { AreViews problem.now grid.now run.now views.now }
    requires below { HoldBelow problem.now grid.now drawn.now run.now 4 }
    ensures { IfOk result (FindsAt problem.now grid.now drawn.now run.now) }
{
    for number in 4u8..17u8 {
        if !holds(alloc, number, problem, grid, seed, drawn, run, views)? {
            return Ok(Finding::No(number));
        }
    }
    Ok(Finding::Yes)
}

/// Whether a condition from the fourth on holds, where those before it do.
fn holds(
    alloc: Global,
    number: u8,
    problem: &Problem,
    grid: &Grid,
    seed: &Placement,
    drawn: &Drawn,
    run: &Run,
    views: &[View],
) -> Result<bool, NoMemory>
    requires from { 4 ≤ number }
    requires to { number ≤ 16 }
    requires grid { IsGrid problem.now.plan.frame problem.now.plan.terminal grid.now }
    requires of_problem { IsRunOf problem.now (slot_count grid.now) run.now }
    requires nets { AreNetsOf problem.now drawn.now }
    requires seed { IsSeedPlaced problem.now grid.now seed.now }
    requires views { AreViews problem.now grid.now run.now views.now }
    requires below { HoldBelow problem.now grid.now drawn.now run.now number }
    ensures { IfOk result (IsTold problem.now grid.now drawn.now run.now number) }
{
    let _cells = problem.cells();
    match number {
        4 => Ok(starts_from_seed(problem, seed, views)),
        5 => Ok(keep_rules(problem, run, views)),
        6 => Ok(cut_no_more(problem, run, views)),
        7 => are_settled(alloc, problem, run, views),
        8 => have_targets(alloc, problem, run, views),
        9 => have_rows(alloc, problem, run, views),
        10 => are_feasible(alloc, problem, run),
        11 => have_duals(alloc, problem, run),
        12 => list_cuts(alloc, problem, grid, run, views),
        13 => have_prices(alloc, problem, grid, run, views),
        14 => Ok(have_scores(problem, run, views)),
        15 => Ok(are_better_rightly(run)),
        _ => draws_answer(alloc, problem, drawn, run, views),
    }
}

/// Whether the first trial has the seed's cells where they are.
fn starts_from_seed(problem: &Problem, seed: &Placement, views: &[View]) -> bool
    requires some { 1 ≤ length views.now }
    requires first { (view : View) → slice_get views.now 0 ≡ Some view → IfSome view.layout (IsLayoutFor problem.now) }
    requires seed { IsPlacementOf problem.now seed.now }
    ensures { (view : View) → slice_get views.now 0 ≡ Some view → IsTrue result ↔ StartsView problem.now seed.now view.layout }
{
    match &views[0].layout {
        Some(layout) => starts_like(problem, seed, layout),
        None => false,
    }
}

/// Whether the cost is the problem's, and each score that of its trial's cells and terminals.
fn have_scores(problem: &Problem, run: &Run, views: &[View]) -> bool
    requires views { (grid : Slots) × AreViews problem.now grid run.now views.now }
    requires listed { OfPlaced run.now (AreCutsListed problem.now) }
    ensures { (grid : Slots) → AreViews problem.now grid run.now views.now
        → IsTrue result ↔ ((run.now.cost ≡ problem.now.plan.terminal.cost) × OfPlaced run.now (IsScoreOf problem.now grid)) }
{
    run.cost() == problem.dies().terminal().cost && are_scores(problem, run, views)
}

/// Whether the drawing is that of the answer.
fn draws_answer(
    alloc: Global,
    problem: &Problem,
    drawn: &Drawn,
    run: &Run,
    views: &[View],
) -> Result<bool, NoMemory>
    requires within { run.now.answer < length views.now }
    requires right { (view : View) → slice_get views.now run.now.answer ≡ Some view → IfSome view.layout (IsAnswerFor problem.now drawn.now) }
    ensures { IfOk result (λ b. (view : View) → slice_get views.now run.now.answer ≡ Some view → IsTrue b ↔ DrawsView problem.now drawn.now view.layout) }
{
    match &views[run.answer() as usize].layout {
        Some(layout) => draws(alloc, problem, drawn, &layout.placement),
        None => Ok(false),
    }
}
