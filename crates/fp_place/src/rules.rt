//! Whether an assignment of cells to dies keeps the rules that ask for no places.

ghost use Rattle.std.specs.Prelude.{◌≡◌, ◌<◌, ◌&&◌, ◌↔◌, IsTrue, length};
ghost use Rattle.fp_place.specs.Areas.{fits};
ghost use Rattle.fp_place.specs.Held.{has_room};
ghost use Rattle.fp_place.specs.Settled.{KeepRules};

use crate::caps::Caps;
use crate::standing::fits;
use fp_base::{CellId, Die};
use fp_netlist::Problem;

// Whether a die takes one more cell: it is at most as high as the die's rows, and the die keeps its percent.
fn takes(problem: &Problem, caps: &Caps, cell: CellId, die: Die) -> bool
    requires { cell.0 < length problem.now.cells }
    ensures { result ≡ (fits problem.now cell.0 die && has_room problem.now caps.now cell.0 die) }
{
    fits(problem, cell, die) && caps.room(problem, cell, die)
}

/// Whether an assignment of cells to dies, a die for each cell in file order, keeps rules 3, 5 and 6 of a legal placement: each cell is
/// at most as high as the rows of its die, and the area of each die's cells is at most the die's percent of the frame's area. The
/// answer is exact, in whole numbers of 128 bits; it takes one pass over the cells and no memory.
pub fn keeps_rules(problem: &Problem, dies: &[Die]) -> bool
    requires { length dies.now ≡ length problem.now.cells }
    ensures { IsTrue result ↔ KeepRules problem.now dies.now }
{
    let mut caps = Caps::empty();
    for number in 0..problem.cells() {
        let cell = CellId(number);
        let die = dies[number as usize];
        if !takes(problem, &caps, cell, die) {
            return false;
        }
        caps.add(problem, cell, die);
    }
    true
}
