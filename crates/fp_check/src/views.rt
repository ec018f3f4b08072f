//! What trials show of each cell.

ghost use Rattle.std.specs.Prelude.{◌≡◌, ◌<◌, ◌≤◌, ◌^◌, ◌++◌, [], None, All, IfOk, OnOk, length, map, get_or, replicate, set, true, false};
ghost use Rattle.fp_base.specs.declared.ids.Die.{Die};
ghost use Rattle.fp_base.specs.declared.ids.Die.TheVariants as sides;
ghost use Rattle.fp_tech.specs.Plan.{segments};
ghost use Rattle.fp_tech.specs.Slots.{Slots, slot_count, IsGrid};
ghost use Rattle.fp_place.specs.Placed.{DoAgree, IsPlacementOf};
ghost use Rattle.fp_cert.specs.Endings.{has_rows};
ghost use Rattle.fp_cert.specs.OfProblem.{IsRowOf, IsPlacedTrialOf, IsTrialOf, IsRunOf};
ghost use Rattle.fp_cert.specs.Shown.{rows_of};
ghost use Rattle.fp_cert.specs.Standing.{lane_shown, lanes_shown, spots_shown};
ghost use Rattle.fp_check.specs.Conditions.{StandOnceShown, ListsOnce, OfEach};
ghost use Rattle.fp_check.specs.Views.{with_tops, with_terminals, IsLayoutOf, IsViewOf, AreViews};

use fp_base::{Bottom, CellId, Die, NoMemory, Point, SegId, Side, Top};
use fp_cert::{CellShown, CutShown, Ending, RowShown, Run, Trial, targets_of, xs_of};
use fp_netlist::Problem;
use fp_part::dies_of;
use fp_place::{Lanes, Placement};
use fp_tech::Grid;
use std::alloc::Global;

/// The placement that a trial shows, and the target of each cell.
#[derive(Drop)]
pub struct Layout {
    pub placement: Placement,
    pub targets: Vec<Point>,
}

/// The die of each cell that a trial shows, and its layout where it placed its cells.
#[derive(Drop)]
pub struct View {
    pub dies: Vec<Die>,
    pub layout: Option<Layout>,
}

/// What each trial of a run shows, where each lists its cells once.
pub fn views_of(
    alloc: Global,
    problem: &Problem,
    grid: &Grid,
    run: &Run,
) -> Result<Vec<View>, NoMemory>
    requires grid { IsGrid problem.now.plan.frame problem.now.plan.terminal grid.now }
    requires of_problem { IsRunOf problem.now (slot_count grid.now) run.now }
    requires once { OfEach run.now (λ trial. ListsOnce problem.now trial trial.ending) }
    ensures { IfOk result (λ views. AreViews problem.now grid.now run.now views.items) }
{
    let mut views = Vec::new(alloc);
    match fill_views(alloc, problem, grid, run, &mut views) {
        Ok(()) => Ok(views),
        Err(fault) => {
            drop(views);
            Err(fault)
        }
    }
}

/// Adds what each trial of a run shows.
fn fill_views(
    alloc: Global,
    problem: &Problem,
    grid: &Grid,
    run: &Run,
    views: &mut Vec<View>,
) -> Result<(), NoMemory>
    requires grid { IsGrid problem.now.plan.frame problem.now.plan.terminal grid.now }
    requires of_problem { IsRunOf problem.now (slot_count grid.now) run.now }
    requires once { OfEach run.now (λ trial. ListsOnce problem.now trial trial.ending) }
    requires empty { views.old.items ≡ [] }
    ensures { OnOk result (AreViews problem.now grid.now run.now views.new.items) }
{
    for trial in run.trials() {
        views.push(view_of(alloc, problem, grid, trial)?)?;
    }
    Ok(())
}

/// What a trial shows.
fn view_of(alloc: Global, problem: &Problem, grid: &Grid, trial: &Trial) -> Result<View, NoMemory>
    requires grid { IsGrid problem.now.plan.frame problem.now.plan.terminal grid.now }
    requires of_problem { IsTrialOf problem.now (slot_count grid.now) trial.now }
    requires once { ListsOnce problem.now trial.now trial.now.ending }
    ensures { IfOk result (IsViewOf problem.now grid.now trial.now) }
{
    match trial.ending() {
        Ending::NoRow(_) => rowless_view(alloc, problem, trial),
        _ => placed_view(alloc, problem, grid, trial),
    }
}

/// What a trial shows that lists the cells of the top die alone.
fn rowless_view(alloc: Global, problem: &Problem, trial: &Trial) -> Result<View, NoMemory>
    requires rowless { has_rows trial.now.ending ≡ false }
    requires within { All (λ top. top.0 < length problem.now.cells) trial.now.top_cells }
    ensures { IfOk result (λ view. (grid : Slots) → IsViewOf problem.now grid trial.now view) }
{
    let mut dies = vec![in alloc; Die::Bottom; problem.cells() as usize]?;
    lift(trial.top_cells(), &mut dies);
    Ok(View { dies, layout: None })
}

/// Puts cells on the top die.
fn lift(cells: &[CellId], dies: &mut Vec<Die>)
    requires { All (λ cell. cell.0 < length dies.old.items) cells.now }
    ensures { dies.new.items ≡ with_tops dies.old.items cells.now }
{
    for cell in cells {
        dies[cell.0 as usize] = Die::Top;
    }
}

/// What a trial shows that placed its cells.
fn placed_view(
    alloc: Global,
    problem: &Problem,
    grid: &Grid,
    trial: &Trial,
) -> Result<View, NoMemory>
    requires grid { IsGrid problem.now.plan.frame problem.now.plan.terminal grid.now }
    requires placed { has_rows trial.now.ending ≡ true }
    requires of_problem { IsPlacedTrialOf problem.now (slot_count grid.now) trial.now }
    requires once { StandOnceShown problem.now trial.now }
    ensures { IfOk result (IsViewOf problem.now grid.now trial.now) }
{
    let layout = layout_of(alloc, problem, grid, trial)?;
    match dies_of(alloc, problem, &layout.placement) {
        Ok(dies) => Ok(View {
            dies,
            layout: Some(layout),
        }),
        Err(fault) => {
            drop(layout);
            Err(fault)
        }
    }
}

/// The placement that a trial shows, and its targets.
fn layout_of(
    alloc: Global,
    problem: &Problem,
    grid: &Grid,
    trial: &Trial,
) -> Result<Layout, NoMemory>
    requires grid { IsGrid problem.now.plan.frame problem.now.plan.terminal grid.now }
    requires placed { has_rows trial.now.ending ≡ true }
    requires of_problem { IsPlacedTrialOf problem.now (slot_count grid.now) trial.now }
    requires once { StandOnceShown problem.now trial.now }
    ensures { IfOk result (IsLayoutOf problem.now grid.now trial.now) }
{
    let _nets = problem.nets();
    let targets = targets_of(alloc, problem, trial)?;
    let mut placement = placement_of(alloc, problem, trial)?;
    set_terminals(grid, trial.cuts(), &mut placement);
    Ok(Layout { placement, targets })
}

/// The placement that a trial shows, but for its terminals.
fn placement_of(alloc: Global, problem: &Problem, trial: &Trial) -> Result<Placement, NoMemory>
    requires rows { (die : Die) → length (rows_of trial.now die) ≡ length (segments problem.now.plan die) }
    requires lines { (die : Die) → All (IsRowOf problem.now) (rows_of trial.now die) }
    requires once { StandOnceShown problem.now trial.now }
    ensures spots { IfOk result (λ p. p.spots ≡ spots_shown problem.now trial.now) }
    ensures top { IfOk result (λ p. p.top ≡ lanes_shown trial.now sides.Top) }
    ensures bottom { IfOk result (λ p. p.bottom ≡ lanes_shown trial.now sides.Bottom) }
    ensures terminals { IfOk result (λ p. p.terminals ≡ replicate (length problem.now.nets) None) }
    ensures of_problem { IfOk result (IsPlacementOf problem.now) }
    ensures agree { IfOk result DoAgree }
{
    let _cells = problem.cells();
    let xs = xs_of(alloc, problem, trial)?;
    let top = lanes_of::<Top>(alloc, trial.rows(Die::Top))?;
    let bottom = lanes_of::<Bottom>(alloc, trial.rows(Die::Bottom))?;
    Placement::build(alloc, problem, top, bottom, &xs)
}

/// The lanes of rows.
fn lanes_of<S: Side>(alloc: Global, rows: &[RowShown]) -> Result<Lanes<S>, NoMemory>
    requires { length rows.now ≤ 2 ^ 16 }
    ensures { IfOk result (λ lanes. lanes ≡ map lane_shown rows.now) }
{
    let mut lanes = Lanes::new(alloc, rows.len() as u32)?;
    match fill_lanes(rows, &mut lanes) {
        Ok(()) => Ok(lanes),
        Err(fault) => {
            drop(lanes);
            Err(fault)
        }
    }
}

/// Fills lanes without cells by rows, each by its own.
fn fill_lanes<S: Side>(rows: &[RowShown], lanes: &mut Lanes<S>) -> Result<(), NoMemory>
    requires few { length rows.now ≤ 2 ^ 16 }
    requires empty { lanes.old ≡ replicate (length rows.now) [] }
    ensures { OnOk result (lanes.new ≡ map lane_shown rows.now) }
{
    for number in 0..rows.len() {
        fill_lane(rows[number].cells(), number as u32, lanes)?;
    }
    Ok(())
}

/// Adds the cells of a row at the end of a segment's lane.
fn fill_lane<S: Side>(
    cells: &[CellShown],
    segment: u32,
    lanes: &mut Lanes<S>,
) -> Result<(), NoMemory>
    requires { segment < length lanes.old }
    ensures { OnOk result (lanes.new ≡ set lanes.old segment (get_or lanes.old segment [] ++ map (λ cell. cell.cell) cells.now)) }
{
    for cell in cells {
        lanes.push(SegId::new(segment), cell.cell)?;
    }
    Ok(())
}

/// Sets the terminals of a placement without terminals to the slots of lines; where a net has several lines, the first counts.
fn set_terminals(grid: &Grid, cuts: &[CutShown], placement: &mut Placement)
    requires cuts { All (λ cut. (cut.net.0 < length placement.old.terminals) × (cut.slot.0 < slot_count grid.now)) cuts.now }
    ensures { placement.new ≡ record placement.old { terminals = with_terminals grid.now cuts.now placement.old.terminals } }
{
    for number in 0..cuts.len() {
        let cut = cuts[cuts.len() - 1 - number];
        placement.set_terminal(cut.net, Some(grid.centre(cut.slot)));
    }
}
