//! The targets of all cells.

ghost use Rattle.std.specs.Prelude.{◌≡◌, ◌<◌, ◌^◌, All, IfOk, [], length};
ghost use Rattle.fp_place.specs.Places.{place_at};
ghost use Rattle.fp_place.specs.Placed.{places_of, IsPlacementOf};
ghost use Rattle.fp_score.specs.Score.{corner};
ghost use Rattle.fp_score.specs.Target.{along, pulls, AreTargets, IsTargetOf};
ghost use Rattle.fp_score.specs.declared.own.Axis.TheVariants as axes;
ghost use Rattle.fp_coarse.specs.Medians.{breakpoints_of};
ghost use Rattle.fp_coarse.specs.EndsOfNets.{AreEndsOfNets};
ghost use Rattle.fp_coarse.specs.Targets.{IsNearTarget, IsTargetPlace};

use crate::ends::{NetEnds, ends_of_nets};
use crate::median::lower_median;
use fp_base::{CellId, Die, NoMemory, Point};
use fp_netlist::Problem;
use fp_place::Placement;
use fp_score::{Axis, offset_along};
use std::alloc::Global;

// Fills in the places where the own length of a cell turns on an axis.
fn push_breakpoints(
    problem: &Problem,
    base: &Placement,
    nets: &[NetEnds],
    axis: Axis,
    cell: CellId,
    die: Die,
    breakpoints: &mut Vec<i64>,
) -> Result<(), NoMemory>
    requires cell { cell.0 < length problem.now.cells }
    requires nets { AreEndsOfNets problem.now (places_of base.now) axis nets.now }
    requires empty { breakpoints.old.items ≡ [] }
    ensures all { IfOk result (λ _. breakpoints.new.items ≡ breakpoints_of (pulls problem.now (places_of base.now) cell.0 die axis)) }
    ensures range { IfOk result (λ _. All IsTargetPlace breakpoints.new.items) }
{
    for conn in problem.conns_of_cell(cell) {
        let net = problem.conn(*conn).net;
        if let Some(ends) = nets[net.0 as usize].without(cell) {
            let offset = offset_along(problem, *conn, die, axis);
            breakpoints.push(ends.low - offset)?;
            breakpoints.push(ends.high - offset)?;
        }
    }
    Ok(())
}

// Where a cell stands on an axis, from 0 to 2^30.
fn stands(problem: &Problem, base: &Placement, axis: Axis, cell: CellId) -> i64
    requires cell { cell.0 < length problem.now.cells }
    requires of_problem { IsPlacementOf problem.now base.now }
    ensures at { result ≡ along axis (corner (place_at (places_of base.now) cell.0)) }
    ensures near { IsTargetPlace result }
{
    let spot = base.spot(cell);
    axis.of(Point {
        x: spot.x,
        y: spot.y,
    })
}

// The target of a cell on an axis.
fn target(
    problem: &Problem,
    base: &Placement,
    nets: &[NetEnds],
    axis: Axis,
    cell: CellId,
    die: Die,
    breakpoints: &mut Vec<i64>,
) -> Result<i64, NoMemory>
    requires cell { cell.0 < length problem.now.cells }
    requires of_problem { IsPlacementOf problem.now base.now }
    requires nets { AreEndsOfNets problem.now (places_of base.now) axis nets.now }
    ensures target { IfOk result (IsTargetOf (pulls problem.now (places_of base.now) cell.0 die axis) (along axis (corner (place_at (places_of base.now) cell.0)))) }
    ensures near { IfOk result IsTargetPlace }
{
    breakpoints.clear();
    push_breakpoints(problem, base, nets, axis, cell, die, breakpoints)?;
    match lower_median(breakpoints) {
        Some(median) => Ok(median),
        None => Ok(stands(problem, base, axis, cell)),
    }
}

// The target of a cell.
fn target_point(
    problem: &Problem,
    base: &Placement,
    nets: (&[NetEnds], &[NetEnds]),
    cell: CellId,
    die: Die,
    breakpoints: &mut Vec<i64>,
) -> Result<Point, NoMemory>
    requires cell { cell.0 < length problem.now.cells }
    requires of_problem { IsPlacementOf problem.now base.now }
    requires x_ends { AreEndsOfNets problem.now (places_of base.now) axes.X nets.0.now }
    requires y_ends { AreEndsOfNets problem.now (places_of base.now) axes.Y nets.1.now }
    ensures x { IfOk result (λ point. IsTargetOf (pulls problem.now (places_of base.now) cell.0 die axes.X) (place_at (places_of base.now) cell.0).x point.x) }
    ensures y { IfOk result (λ point. IsTargetOf (pulls problem.now (places_of base.now) cell.0 die axes.Y) (place_at (places_of base.now) cell.0).y point.y) }
    ensures near { IfOk result IsNearTarget }
{
    let x = target(problem, base, nets.0, Axis::X, cell, die, breakpoints)?;
    let y = target(problem, base, nets.1, Axis::Y, cell, die, breakpoints)?;
    Ok(Point { x, y })
}

// The targets of all cells, by what is kept of each net on both axes.
fn targets_by(
    alloc: Global,
    problem: &Problem,
    base: &Placement,
    dies: &[Die],
    nets: (&[NetEnds], &[NetEnds]),
) -> Result<Vec<Point>, NoMemory>
    requires of_problem { IsPlacementOf problem.now base.now }
    requires dies { length dies.now ≡ length problem.now.cells }
    requires x_ends { AreEndsOfNets problem.now (places_of base.now) axes.X nets.0.now }
    requires y_ends { AreEndsOfNets problem.now (places_of base.now) axes.Y nets.1.now }
    ensures targets { IfOk result (λ targets. AreTargets problem.now (places_of base.now) dies.now targets.items) }
    ensures near { IfOk result (λ targets. All IsNearTarget targets.items) }
{
    let _few = problem.cells();
    let mut breakpoints = Vec::new(alloc);
    let mut targets = Vec::with_capacity(alloc, dies.len())?;
    for (cell, die) in dies.iter().enumerate() {
        let cell = CellId(cell as u32);
        targets.push(target_point(problem, base, nets, cell, *die, &mut breakpoints)?)?;
    }
    Ok(targets)
}

/// A target for each cell, where it stands on its die of the new ones: on each axis the least whole number of least own length, with
/// all other cells as they stand in the base; where no connection of the cell is to a net with another cell, its place in the base.
/// Targets lie from -2^30 to 2^31. The rule is our own; the place of least length is a lower median of the nets' ends.
pub fn targets(
    alloc: Global,
    problem: &Problem,
    base: &Placement,
    dies: &[Die],
) -> Result<Vec<Point>, NoMemory>
    requires of_problem { IsPlacementOf problem.now base.now }
    requires dies { length dies.now ≡ length problem.now.cells }
    ensures targets { IfOk result (λ targets. AreTargets problem.now (places_of base.now) dies.now targets.items) }
    ensures near { IfOk result (λ targets. All IsNearTarget targets.items) }
{
    let xs = ends_of_nets(alloc, problem, base, Axis::X)?;
    let ys = ends_of_nets(alloc, problem, base, Axis::Y)?;
    targets_by(alloc, problem, base, dies, (&xs, &ys))
}
