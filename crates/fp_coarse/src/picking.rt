//! The choice of rows.

ghost use Rattle.std.specs.Prelude.{◌≡◌, ◌<◌, All, length, IfOk, IfSome, MatchResult};
ghost use Rattle.fp_tech.specs.Plan.{segments};
ghost use Rattle.fp_score.specs.Pick.{lanes_by};
ghost use Rattle.fp_netlist.specs.Points.{width};
ghost use Rattle.fp_coarse.specs.Nearest.{AreFree, IsHull};
ghost use Rattle.fp_coarse.specs.Rooms.{AreRooms};
ghost use Rattle.fp_coarse.specs.Orders.{taken_of};
ghost use Rattle.fp_coarse.specs.Picking.{CanPick, AreNear, IsPicked, HoldsAll, PicksOn, IsChoice, IsNearest, lowered, taken_in};

use crate::nearest::{Hull, hull_of, nearest};
use crate::order::{Choice, by_target, widest_first};
use crate::rooms::Rooms;
use fp_base::{Bottom, CellId, Die, NoMemory, Point, SegId, Side, Top};
use fp_netlist::Problem;
use fp_place::Lanes;
use std::alloc::Global;

/// The choice of rows: a segment for each cell, or the cell that finds none.
#[derive(Drop)]
pub enum Picked {
    /// The cells of each segment of both dies, in order of their targets in x, and in file order among equal targets.
    Rows {
        top: Lanes<Top>,
        bottom: Lanes<Bottom>,
    },
    /// This cell finds no segment with room, the first of the top die, and else of the bottom die, widest cells first.
    NoRow(CellId),
}

/// Chooses a segment for each cell, given its die and its target, both in file order. The cells of a die go one after the other, widest
/// first and in file order among equal widths, each to the segment with room for it to which it is moved least from its target, the lowest
/// among ties. Targets are within 2^32 of 0 on each axis. `NoRow` comes exactly where a cell finds no segment with room. The rule is our
/// own; greedy choices of rows are as in Abacus.
pub fn pick(
    alloc: Global,
    problem: &Problem,
    dies: &[Die],
    targets: &[Point],
) -> Result<Picked, NoMemory>
    requires { CanPick problem.now dies.now targets.now }
    ensures picked { IfOk result (IsPicked problem.now dies.now targets.now) }
    ensures holds { IfOk result (HoldsAll problem.now dies.now) }
{
    let _cells = problem.cells();
    let top = match pick_on(alloc, problem, dies, targets)? {
        Ok(lanes) => lanes,
        Err(cell) => return Ok(Picked::NoRow(cell)),
    };
    match pick_on(alloc, problem, dies, targets)? {
        Ok(bottom) => Ok(Picked::Rows { top, bottom }),
        Err(cell) => Ok(Picked::NoRow(cell)),
    }
}

// The lanes of one die.
fn pick_on<S: Side>(
    alloc: Global,
    problem: &Problem,
    dies: &[Die],
    targets: &[Point],
) -> Result<Result<Lanes<S>, CellId>, NoMemory>
    requires { CanPick problem.now dies.now targets.now }
    ensures { IfOk result (PicksOn problem.now dies.now targets.now S.DIE) }
{
    let order = widest_first(alloc, problem, dies, S::DIE)?;
    match take_all(alloc, problem, targets, S::DIE, order.as_slice())? {
        Ok(choices) => Ok(Ok(lanes_of(alloc, problem, targets, choices.as_slice())?)),
        Err(cell) => Ok(Err(cell)),
    }
}

// A cell takes the nearest segment of a die that has room for it, or finds none.
fn take_nearest(
    problem: &Problem,
    targets: &[Point],
    die: Die,
    hull: Hull,
    rooms: &mut Rooms,
    cell: CellId,
) -> Option<u32>
    requires cell { cell.0 < length problem.now.cells }
    requires targets { AreNear problem.now targets.now }
    requires hull { IsHull (segments problem.now.plan die) hull }
    requires rooms { AreRooms rooms.old.free.items rooms.old.most.items }
    requires many { length rooms.old.free.items ≡ length (segments problem.now.plan die) }
    requires free { AreFree (segments problem.now.plan die) rooms.old.free.items }
    ensures nearest { IsNearest problem.now targets.now die rooms.old.free.items cell.0 result }
    ensures rooms { AreRooms rooms.new.free.items rooms.new.most.items }
    ensures free { IfSome result (λ segment. rooms.new.free.items ≡ lowered rooms.old.free.items segment (width problem.now cell.0 die)) }
{
    let segments = problem.dies().segments_of(die);
    let width = problem.width(cell, die);
    let target = targets[cell.0 as usize];
    match nearest(segments, rooms, hull, width, target) {
        Some(segment) => {
            rooms.take(segment as usize, width);
            Some(segment)
        }
        None => None,
    }
}

// Each of these cells takes a segment of a die, or the first that finds none.
fn take_all(
    alloc: Global,
    problem: &Problem,
    targets: &[Point],
    die: Die,
    order: &[CellId],
) -> Result<Result<Vec<Choice>, CellId>, NoMemory>
    requires order { All (λ cell. cell.0 < length problem.now.cells) order.now }
    requires targets { AreNear problem.now targets.now }
    ensures taken { IfOk result (λ taken. MatchResult taken (λ choices. taken_in problem.now targets.now die order.now ≡ Ok (taken_of choices.items))
        (λ cell. taken_in problem.now targets.now die order.now ≡ Err cell.0)) }
    ensures choices { IfOk result (λ taken. IfOk taken (λ choices. All (IsChoice problem.now die) choices.items)) }
{
    let segments = problem.dies().segments_of(die);
    let hull = hull_of(segments);
    let mut rooms = Rooms::new(alloc, segments)?;
    let mut choices = Vec::with_capacity(alloc, order.len())?;
    for cell in order {
        match take_nearest(problem, targets, die, hull, &mut rooms, *cell) {
            Some(segment) => choices.push(Choice {
                cell: *cell,
                segment,
            })?,
            None => return Ok(Err(*cell)),
        }
    }
    Ok(Ok(choices))
}

// Lays each cell on its segment, in order of the targets.
fn lanes_of<S: Side>(
    alloc: Global,
    problem: &Problem,
    targets: &[Point],
    choices: &[Choice],
) -> Result<Lanes<S>, NoMemory>
    requires targets { length targets.now ≡ length problem.now.cells }
    requires choices { All (IsChoice problem.now S.DIE) choices.now }
    ensures { IfOk result (λ lanes. lanes ≡ lanes_by problem.now S.DIE targets.now (taken_of choices.now)) }
{
    let entries = by_target(alloc, targets, choices)?;
    let segments = problem.dies().segments::<S>().len();
    let mut lanes = Lanes::new(alloc, segments as u32)?;
    for entry in entries.as_slice() {
        lanes.push(SegId::new(entry.2), CellId(entry.1))?;
    }
    Ok(lanes)
}
