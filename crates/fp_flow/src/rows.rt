//! The rows of a trial: the cells of each segment where they cost the least, with the duals that show it.

ghost use Rattle.std.specs.Prelude.{◌≡◌, ◌+◌, ◌^◌, ◌<◌, ◌≤ℤ◌, ◌+ℤ◌, pos, [], All, IfOk, OnOk, length, map};
ghost use Rattle.std.specs.List.{range_with_len};
ghost use Rattle.fp_cert.specs.RowsLaws.{cell_for};
ghost use Rattle.fp_cert.specs.Shown.{with_row};
ghost use Rattle.fp_flow.specs.Rows.{IsPlacedRow, line_of, placed_row, AddsBestRow};
ghost use Rattle.fp_rows.specs.Squares.{IsRow};

use fp_abacus::{Cluster, place_row};
use fp_base::{CellId, Die, NoMemory, Point};
use fp_cert::{CellShown, RowShown, Trial};
use fp_netlist::Problem;
use fp_rows::RowCell;
use fp_tech::Segment;
use std::alloc::Global;

/// What one row after the other is placed in: the cells of the row, room for its clusters, their positions, and the duals, one before
/// the first cell and one behind each.
#[derive(Drop)]
pub struct RowScratch {
    cells: Vec<RowCell>,
    work: Vec<Cluster>,
    xs: Vec<i64>,
    duals: Vec<u64>,
}

impl RowScratch {
    /// Scratch that holds no row. It takes no memory.
    pub fn new(alloc: Global) -> RowScratch {
        RowScratch {
            cells: Vec::new(alloc),
            work: Vec::new(alloc),
            xs: Vec::new(alloc),
            duals: Vec::new(alloc),
        }
    }
}

/// Places the cells of a lane where they cost the least, and shows them in a trial.
pub fn place_lane(
    alloc: Global,
    problem: &Problem,
    die: Die,
    segment: &Segment,
    lane: &[CellId],
    targets: &[Point],
    scratch: &mut RowScratch,
    trial: &mut Trial,
) -> Result<(), NoMemory>
    requires within { All (λ cell. cell.0 < length problem.now.cells) lane.now }
    requires targets { length targets.now ≡ length problem.now.cells }
    requires row { IsRow (map (cell_for problem.now die targets.now) lane.now) segment.now.start (segment.now.start +ℤ segment.now.length) }
    ensures { OnOk result (AddsBestRow problem.now die segment.now lane.now targets.now trial.old trial.new) }
{
    fill_cells(problem, die, lane, targets, &mut scratch.cells)?;
    place_cells(start_of(segment), end_of(segment), scratch)?;
    push_lane(alloc, die, lane, targets, scratch, trial)
}

/// Where a segment starts.
fn start_of(segment: &Segment) -> i64
    ensures { result ≡ segment.now.start }
{
    segment.start
}

/// Where a segment ends.
fn end_of(segment: &Segment) -> i64
    requires start { pos 0 ≤ℤ segment.now.start }
    requires length { pos 0 ≤ℤ segment.now.length }
    requires end { (segment.now.start +ℤ segment.now.length) ≤ℤ pos (2 ^ 31) }
    ensures { result ≡ segment.now.start +ℤ segment.now.length }
{
    segment.start + segment.length
}

/// Makes a vector hold the cells of a lane as those of a row.
fn fill_cells(
    problem: &Problem,
    die: Die,
    lane: &[CellId],
    targets: &[Point],
    cells: &mut Vec<RowCell>,
) -> Result<(), NoMemory>
    requires within { All (λ cell. cell.0 < length problem.now.cells) lane.now }
    requires targets { length targets.now ≡ length problem.now.cells }
    ensures { OnOk result (cells.new.items ≡ map (cell_for problem.now die targets.now) lane.now) }
{
    cells.clear();
    for cell in lane {
        cells.push(row_cell(problem, die, *cell, targets))?;
    }
    Ok(())
}

/// A cell as one of a row: it weighs as much as it has connections, and at least 1.
fn row_cell(problem: &Problem, die: Die, cell: CellId, targets: &[Point]) -> RowCell
    requires within { cell.0 < length problem.now.cells }
    requires targets { length targets.now ≡ length problem.now.cells }
    ensures { result ≡ cell_for problem.now die targets.now cell }
{
    let weight = problem.conns_of_cell(cell).len().max(1);
    RowCell {
        width: problem.width(cell, die),
        target: targets[cell.0 as usize].x,
        weight: weight as i64,
    }
}

/// Places the cells of the row that a scratch holds where they cost the least.
fn place_cells(lo: i64, hi: i64, scratch: &mut RowScratch) -> Result<(), NoMemory>
    requires { IsRow scratch.old.cells.items lo hi }
    ensures { OnOk result (IsPlacedRow scratch.old.cells.items lo hi scratch.new.xs.items scratch.new.duals.items) }
{
    place_in(
        &scratch.cells,
        lo,
        hi,
        &mut scratch.work,
        &mut scratch.xs,
        &mut scratch.duals,
    )
}

/// Places the cells of a row where they cost the least.
fn place_in(
    cells: &[RowCell],
    lo: i64,
    hi: i64,
    work: &mut Vec<Cluster>,
    xs: &mut Vec<i64>,
    duals: &mut Vec<u64>,
) -> Result<(), NoMemory>
    requires row { IsRow cells.now lo hi }
    ensures { OnOk result (IsPlacedRow cells.now lo hi xs.new.items duals.new.items) }
{
    work.clear();
    xs.clear();
    duals.clear();
    work.resize_with(cells.len(), || Cluster::EMPTY)?;
    xs.resize_with(cells.len(), || 0)?;
    duals.resize_with(cells.len() + 1, || 0)?;
    place_row(cells, lo, hi, work, xs, duals);
    Ok(())
}

/// Shows a lane's cells at their positions in a trial.
fn push_lane(
    alloc: Global,
    die: Die,
    lane: &[CellId],
    targets: &[Point],
    placed: &RowScratch,
    trial: &mut Trial,
) -> Result<(), NoMemory>
    requires within { All (λ cell. cell.0 < length targets.now) lane.now }
    requires xs { length placed.now.xs.items ≡ length lane.now }
    requires duals { length placed.now.duals.items ≡ length lane.now + 1 }
    ensures { OnOk result (trial.new ≡ with_row trial.old die (placed_row lane.now targets.now placed.now.xs.items placed.now.duals.items)) }
{
    let mut row = RowShown::new(alloc, placed.duals[0]);
    match push_cells(lane, targets, placed, &mut row) {
        Ok(()) => trial.push_row(die, row),
        Err(fault) => {
            drop(row);
            Err(fault)
        }
    }
}

/// Adds a lane's cells to a row.
fn push_cells(
    lane: &[CellId],
    targets: &[Point],
    placed: &RowScratch,
    row: &mut RowShown,
) -> Result<(), NoMemory>
    requires within { All (λ cell. cell.0 < length targets.now) lane.now }
    requires xs { length placed.now.xs.items ≡ length lane.now }
    requires duals { length placed.now.duals.items ≡ length lane.now + 1 }
    requires empty { row.old.cells ≡ [] }
    ensures { OnOk result (row.new ≡ record row.old {
      cells = map (line_of lane.now targets.now placed.now.xs.items placed.now.duals.items)
          (range_with_len 0 (length lane.now));
    }) }
{
    for rank in 0..lane.len() {
        row.push(shown(lane, targets, placed, rank))?;
    }
    Ok(())
}

/// What is shown of the cell of a rank.
fn shown(lane: &[CellId], targets: &[Point], placed: &RowScratch, rank: usize) -> CellShown
    requires within { All (λ cell. cell.0 < length targets.now) lane.now }
    requires xs { length placed.now.xs.items ≡ length lane.now }
    requires duals { length placed.now.duals.items ≡ length lane.now + 1 }
    requires rank { rank < length lane.now }
    ensures { result ≡ line_of lane.now targets.now placed.now.xs.items placed.now.duals.items rank }
{
    let cell = lane[rank];
    CellShown {
        cell,
        x: placed.xs[rank],
        target: targets[cell.0 as usize],
        dual: placed.duals[rank + 1],
    }
}
