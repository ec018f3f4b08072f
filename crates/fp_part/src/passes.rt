//! Fiduccia-Mattheyses passes, as long as one leaves fewer nets cut.
//!
//! After C. M. Fiduccia and R. M. Mattheyses, "A linear-time heuristic for improving network partitions", 19th Design Automation
//! Conference, 1982: in a pass each cell is moved at most once and then locked, the base cell of each move is a free cell of greatest
//! gain, and the pass keeps the prefix of its moves with the fewest cut nets. Their balance criterion is here that the dies keep their
//! rules: each cell fits its die, and both dies keep their percents.

ghost use Rattle.std.specs.Prelude.{◌≡◌, ℕ, ◌<◌, ◌≤◌, IfOk, length};
ghost use Rattle.fp_place.specs.Cut.{cut};
ghost use Rattle.fp_place.specs.Settled.{flipped, settled, KeepRules};
ghost use Rattle.fp_part.specs.Partitions.{IsBegun};

use crate::partition::Partition;
use fp_base::{Die, NoMemory};
use fp_netlist::Problem;
use std::alloc::Global;

// Passes until one leaves no fewer nets cut, or no net is cut.
fn run_passes(problem: &Problem, partition: &mut Partition) -> Result<(), NoMemory>
    requires { IsBegun problem.now partition.old }
    ensures { IfOk result (λ _. partition.new.gains.dies ≡ settled problem.now partition.old.gains.dies) }
{
    while partition.cut > 0 {
        let before = partition.cut;
        partition.pass(problem)?;
        if partition.cut == before {
            break;
        }
    }
    Ok(())
}

// The dies after the last pass.
fn last_dies(
    alloc: Global,
    problem: &Problem,
    partition: &mut Partition,
) -> Result<Vec<Die>, NoMemory>
    requires { IsBegun problem.now partition.old }
    ensures { IfOk result (λ dies. dies.items ≡ settled problem.now partition.old.gains.dies) }
{
    run_passes(problem, partition)?;
    Ok(Vec::from_slice(alloc, partition.gains.dies())?)
}

/// Dies settled from earlier ones that keep the rules of heights and percents, by Fiduccia-Mattheyses passes. In a pass each cell moves at
/// most once to its other die. The base cell of each move is, among the free cells that fit their other die and have room there, one whose
/// move leaves the fewest nets cut, the least cell among ties. A pass keeps the best prefix of its moves, the shortest with the fewest cut
/// nets, and passes go on as long as one lowers that number.
///
/// The dies keep the rules and have no more cut nets than before, and no move of a single cell that keeps the rules leaves fewer.
/// `NoMemory` comes only where memory for the gains, the moves or the answer is not there.
pub fn settle(alloc: Global, problem: &Problem, from: &[Die]) -> Result<Vec<Die>, NoMemory>
    requires { KeepRules problem.now from.now }
    ensures settled { IfOk result (λ dies. dies.items ≡ settled problem.now from.now) }
    ensures rules { IfOk result (λ dies. KeepRules problem.now dies.items) }
    ensures cut { IfOk result (λ dies. cut problem.now dies.items ≤ cut problem.now from.now) }
    ensures steady { IfOk result (λ dies. (cell : ℕ) → cell < length problem.now.cells
        → KeepRules problem.now (flipped dies.items cell)
        → cut problem.now dies.items ≤ cut problem.now (flipped dies.items cell)) }
{
    let mut partition = Partition::new(alloc, problem, from)?;
    let dies = last_dies(alloc, problem, &mut partition);
    drop(partition);
    dies
}
