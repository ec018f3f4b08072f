//! A placement shown as it stands: each cell with its own place as target, and no duals.

ghost use Rattle.std.specs.Prelude.{◌≡◌, ◌<◌, ◌++◌, [], All, OnOk, length, map, get_or};
ghost use Rattle.fp_place.specs.Placed.{lanes_of, IsPlacementOf};
ghost use Rattle.fp_cert.specs.Shown.{with_row};
ghost use Rattle.fp_flow.specs.Still.{still_cell, still_row, with_rows, with_still};

use fp_base::{CellId, Die, NoMemory, Point};
use fp_cert::{CellShown, RowShown, Trial};
use fp_netlist::Problem;
use fp_place::{Placement, Spot};
use std::alloc::Global;

/// Shows the lanes of a placement in a trial.
pub fn show_still(
    alloc: Global,
    problem: &Problem,
    placement: &Placement,
    trial: &mut Trial,
) -> Result<(), NoMemory>
    requires { IsPlacementOf problem.now placement.now }
    ensures { OnOk result (trial.new ≡ with_still placement.now trial.old) }
{
    show_die(alloc, problem, placement, Die::Top, trial)?;
    show_die(alloc, problem, placement, Die::Bottom, trial)
}

/// Shows the lanes of a die.
fn show_die(
    alloc: Global,
    problem: &Problem,
    placement: &Placement,
    die: Die,
    trial: &mut Trial,
) -> Result<(), NoMemory>
    requires { IsPlacementOf problem.now placement.now }
    ensures { OnOk result (trial.new ≡ with_rows trial.old die (map (still_row placement.now) (lanes_of placement.now die))) }
{
    for segment in 0..problem.dies().segments_of(die).len() as u32 {
        show_lane(alloc, placement, die, segment, trial)?;
    }
    Ok(())
}

/// Shows the lane of a segment.
fn show_lane(
    alloc: Global,
    placement: &Placement,
    die: Die,
    segment: u32,
    trial: &mut Trial,
) -> Result<(), NoMemory>
    requires { segment < length (lanes_of placement.now die) }
    ensures { OnOk result (trial.new ≡ with_row trial.old die (still_row placement.now (get_or (lanes_of placement.now die) segment []))) }
{
    let mut row = RowShown::new(alloc, 0);
    match push_still(placement, placement.lane(die, segment), &mut row) {
        Ok(()) => trial.push_row(die, row),
        Err(fault) => {
            drop(row);
            Err(fault)
        }
    }
}

/// Adds cells to a row as they stand.
fn push_still(placement: &Placement, lane: &[CellId], row: &mut RowShown) -> Result<(), NoMemory>
    requires { All (λ cell. cell.0 < length placement.now.spots) lane.now }
    ensures { OnOk result (row.new ≡ record row.old { cells = row.old.cells ++ map (still_cell placement.now) lane.now }) }
{
    for cell in lane {
        row.push(as_it_stands(*cell, placement.spot(*cell)))?;
    }
    Ok(())
}

/// What is shown of a cell at its spot.
fn as_it_stands(cell: CellId, spot: Spot) -> CellShown
    ensures { result ≡ record { cell = cell; x = spot.x; target = record { x = spot.x; y = spot.y }; dual = 0 } }
{
    CellShown {
        cell,
        x: spot.x,
        target: Point {
            x: spot.x,
            y: spot.y,
        },
        dual: 0,
    }
}
