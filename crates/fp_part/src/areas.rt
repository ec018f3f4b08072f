//! The area that each die's cells take.

ghost use Rattle.std.specs.Prelude.{◌≡◌};
ghost use Rattle.fp_place.specs.Settled.{KeepRules};
ghost use Rattle.fp_place.specs.Held.{held_by};

use fp_base::{CellId, Die};
use fp_netlist::Problem;
use fp_place::Caps;

/// The area that each die's cells take, where each cell stands on its die of the list.
pub fn caps_of(problem: &Problem, dies: &[Die]) -> Caps
    requires { KeepRules problem.now dies.now }
    ensures { result ≡ held_by problem.now dies.now }
{
    let mut caps = Caps::empty();
    for cell in 0..problem.cells() {
        caps.add(problem, CellId(cell), dies[cell as usize]);
    }
    caps
}
