//! The counts that an output file's head lines say.

ghost use Rattle.std.specs.Prelude.{◌≡◌, length};
ghost use Rattle.fp_place.specs.Drawing.{lines_from, terminals_from};
ghost use Rattle.fp_place.specs.Placed.{places_of, IsPlacementOf};

use fp_base::{CellId, Die, NetId};
use fp_netlist::Problem;
use fp_place::Placement;

/// The number of cells on a die.
pub fn cells_on(problem: &Problem, placement: &Placement, die: Die) -> u32
    requires { IsPlacementOf problem.now placement.now }
    ensures { result ≡ length (lines_from die 0 (places_of placement.now)) }
{
    let mut count = 0;
    for cell in 0..problem.cells() {
        if placement.spot(CellId(cell)).die == die {
            count += 1;
        }
    }
    count
}

/// The number of terminals.
pub fn terminals(problem: &Problem, placement: &Placement) -> u32
    requires { IsPlacementOf problem.now placement.now }
    ensures { result ≡ length (terminals_from 0 placement.now.terminals) }
{
    let mut count = 0;
    for net in 0..problem.nets() {
        if placement.terminal(NetId(net)).is_some() {
            count += 1;
        }
    }
    count
}
