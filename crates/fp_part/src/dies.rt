//! The dies of a placement.

ghost use Rattle.std.specs.Prelude.{◌≡◌, IfOk};
ghost use Rattle.fp_place.specs.Places.{dies_of};
ghost use Rattle.fp_place.specs.Placed.{places_of, IsPlacementOf};

use fp_base::{CellId, Die, NoMemory};
use fp_netlist::Problem;
use fp_place::Placement;
use std::alloc::Global;

/// The die of each cell of a placement, in file order.
pub fn dies_of(
    alloc: Global,
    problem: &Problem,
    placement: &Placement,
) -> Result<Vec<Die>, NoMemory>
    requires { IsPlacementOf problem.now placement.now }
    ensures { IfOk result (λ dies. dies.items ≡ dies_of (places_of placement.now)) }
{
    let cells = problem.cells();
    let mut dies = Vec::with_capacity(alloc, cells as usize)?;
    for cell in 0..cells {
        dies.push(placement.spot(CellId(cell)).die)?;
    }
    Ok(dies)
}
