//! The trial for which the choice of rows fails.

ghost use Rattle.std.specs.Prelude.{◌≡◌, ◌<◌, [], length, IfOk, OnOk};
ghost use Rattle.fp_place.specs.Places.{die_at, same_die};
ghost use Rattle.fp_cert.specs.Trials.{IsRowless};
ghost use Rattle.fp_flow.specs.Tops.{tops_of};
ghost use Rattle.fp_base.specs.declared.ids.Die.TheVariants.{Top};

use fp_base::{CellId, Die, NoMemory};
use fp_cert::{Ending, Trial};
use fp_netlist::Problem;
use std::alloc::Global;

/// The trial of dies for which a cell found no segment: it lists the cells of the top die, by rising number.
pub fn rowless(
    alloc: Global,
    problem: &Problem,
    dies: &[Die],
    cell: CellId,
) -> Result<Trial, NoMemory>
    requires { length dies.now ≡ length problem.now.cells }
    ensures { IfOk result (IsRowless problem.now dies.now cell.0) }
{
    let mut trial = Trial::new(alloc, Ending::NoRow(cell), 0);
    match push_tops(problem, dies, &mut trial) {
        Ok(()) => Ok(trial),
        Err(fault) => {
            drop(trial);
            Err(fault)
        }
    }
}

/// Lists the cells of the top die in a trial that lists none.
fn push_tops(problem: &Problem, dies: &[Die], trial: &mut Trial) -> Result<(), NoMemory>
    requires dies { length dies.now ≡ length problem.now.cells }
    requires empty { trial.old.top_cells ≡ [] }
    ensures { OnOk result (trial.new ≡ record trial.old { top_cells = tops_of dies.now (length problem.now.cells) }) }
{
    for cell in 0..problem.cells() {
        if is_on_top(dies, CellId(cell)) {
            trial.push_top(CellId(cell))?;
        }
    }
    Ok(())
}

/// Whether a cell is on the top die.
fn is_on_top(dies: &[Die], cell: CellId) -> bool
    requires { cell.0 < length dies.now }
    ensures { result ≡ same_die (die_at dies.now cell.0) Top }
{
    dies[cell.0 as usize] == Die::Top
}
