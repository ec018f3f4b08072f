//! Conditions 10 and 11: on each segment the cells stand without overlap, and the duals show that they stand where they cost the least.

ghost use Rattle.std.specs.Prelude.{◌≡◌, ◌↔◌, ◌<◌, ◌+◌, ◌+ℤ◌, true, All, IfOk, OnOk, IsTrue, length};
ghost use Rattle.fp_rows.specs.Squares.{IsRow, ArePlaces};
ghost use Rattle.fp_cert.specs.Certified.{AreDualsShown, row_duals};
ghost use Rattle.fp_cert.specs.Endings.{has_rows};
ghost use Rattle.fp_cert.specs.Trials.{row_cell, row_cells, row_xs};
ghost use Rattle.fp_check.specs.Conditions.{OfPlaced, AreFeasibleShown};
ghost use Rattle.fp_check.specs.Rooms.{HaveRoom, HasRoom, HaveRoomOn, AllMeet, MeetsAll, MeetOn, Meets, MeetsAt};

use fp_base::{Die, NoMemory};
use fp_cert::{CellShown, Ending, RowShown, Run, Trial};
use fp_netlist::Problem;
use fp_rows::{RowCell, is_feasible, row_shown};
use fp_tech::Segment;
use std::alloc::Global;

/// What is asked of each row: that its cells stand in their order without overlap, or that its duals show them to cost the least, too.
#[derive(Clone, Copy)]
enum Asked {
    Order,
    Duals,
}

/// What the rows are tried in, one after the other: cells, their positions, and the duals, one before the first cell and one behind each.
#[derive(Drop)]
struct Scratch {
    cells: Vec<RowCell>,
    xs: Vec<i64>,
    duals: Vec<u64>,
}

/// Whether the cells of each segment stand in their order without overlap, within the segment, in each trial that placed its cells.
pub fn are_feasible(alloc: Global, problem: &Problem, run: &Run) -> Result<bool, NoMemory>
    requires { HaveRoom problem.now run.now }
    ensures { IfOk result (λ b. IsTrue b ↔ OfPlaced run.now (AreFeasibleShown problem.now)) }
{
    meets(alloc, problem, run, Asked::Order)
}

/// Whether the duals of each segment show that its cells stand where they cost the least.
pub fn have_duals(alloc: Global, problem: &Problem, run: &Run) -> Result<bool, NoMemory>
    requires room { HaveRoom problem.now run.now }
    requires feasible { OfPlaced run.now (AreFeasibleShown problem.now) }
    ensures { IfOk result (λ b. IsTrue b ↔ OfPlaced run.now (AreDualsShown problem.now)) }
{
    meets(alloc, problem, run, Asked::Duals)
}

/// Whether the rows of each trial that placed its cells are as is asked.
fn meets(alloc: Global, problem: &Problem, run: &Run, asked: Asked) -> Result<bool, NoMemory>
    requires { HaveRoom problem.now run.now }
    ensures { IfOk result (λ b. IsTrue b ↔ OfPlaced run.now (MeetsAll problem.now asked)) }
{
    let mut scratch = Scratch {
        cells: Vec::new(alloc),
        xs: Vec::new(alloc),
        duals: Vec::new(alloc),
    };
    let met = trials_meet(problem, run.trials(), asked, &mut scratch);
    drop(scratch);
    met
}

/// The same, of trials, in a scratch.
fn trials_meet(
    problem: &Problem,
    trials: &[Trial],
    asked: Asked,
    scratch: &mut Scratch,
) -> Result<bool, NoMemory>
    requires { HaveRoomOn problem.now trials.now }
    ensures { IfOk result (λ b. IsTrue b ↔ AllMeet problem.now asked trials.now) }
{
    for number in 0..trials.len() {
        if !trial_meets(problem, &trials[number], asked, scratch)? {
            return Ok(false);
        }
    }
    Ok(true)
}

/// Whether the rows of a trial are as is asked, where it placed its cells.
fn trial_meets(
    problem: &Problem,
    trial: &Trial,
    asked: Asked,
    scratch: &mut Scratch,
) -> Result<bool, NoMemory>
    requires { has_rows trial.now.ending ≡ true → HasRoom problem.now trial.now }
    ensures { IfOk result (λ b. IsTrue b ↔ (has_rows trial.now.ending ≡ true → MeetsAll problem.now asked trial.now)) }
{
    match trial.ending() {
        Ending::NoRow(_) => Ok(true),
        _ => dies_meet(problem, trial, asked, scratch),
    }
}

/// Whether the rows of both dies are as is asked.
fn dies_meet(
    problem: &Problem,
    trial: &Trial,
    asked: Asked,
    scratch: &mut Scratch,
) -> Result<bool, NoMemory>
    requires { HasRoom problem.now trial.now }
    ensures { IfOk result (λ b. IsTrue b ↔ MeetsAll problem.now asked trial.now) }
{
    let top = rows_meet(problem, Die::Top, trial, asked, scratch)?;
    let bottom = rows_meet(problem, Die::Bottom, trial, asked, scratch)?;
    Ok(top && bottom)
}

/// Whether the rows of a die are as is asked.
fn rows_meet(
    problem: &Problem,
    die: Die,
    trial: &Trial,
    asked: Asked,
    scratch: &mut Scratch,
) -> Result<bool, NoMemory>
    requires { HasRoom problem.now trial.now }
    ensures { IfOk result (λ b. IsTrue b ↔ MeetOn problem.now asked trial.now die) }
{
    let segments = problem.dies().segments_of(die);
    let rows = trial.rows(die);
    for number in 0..segments.len() {
        if !row_meets(
            problem,
            die,
            &segments[number],
            &rows[number],
            asked,
            scratch,
        )? {
            return Ok(false);
        }
    }
    Ok(true)
}

/// Whether the row of a segment is as is asked.
fn row_meets(
    problem: &Problem,
    die: Die,
    segment: &Segment,
    row: &RowShown,
    asked: Asked,
    scratch: &mut Scratch,
) -> Result<bool, NoMemory>
    requires within { All (λ line. line.cell.0 < length problem.now.cells) row.now.cells }
    requires room { IsRow (row_cells problem.now die row.now) segment.now.start (segment.now.start +ℤ segment.now.length) }
    requires places { ArePlaces (row_cells problem.now die row.now) (row_xs row.now) }
    ensures { IfOk result (λ b. IsTrue b ↔ Meets asked problem.now die segment.now row.now) }
{
    fill(problem, die, row, scratch)?;
    Ok(scratch_meets(segment, asked, scratch))
}

/// Makes a scratch hold a row.
fn fill(problem: &Problem, die: Die, row: &RowShown, scratch: &mut Scratch) -> Result<(), NoMemory>
    requires { All (λ line. line.cell.0 < length problem.now.cells) row.now.cells }
    ensures cells { OnOk result (scratch.new.cells.items ≡ row_cells problem.now die row.now) }
    ensures xs { OnOk result (scratch.new.xs.items ≡ row_xs row.now) }
    ensures duals { OnOk result (scratch.new.duals.items ≡ row_duals row.now) }
{
    scratch.cells.clear();
    scratch.xs.clear();
    scratch.duals.clear();
    scratch.duals.push(row.first())?;
    let lines = row.cells();
    for line in lines {
        scratch.cells.push(row_cell(problem, die, line))?;
        scratch.xs.push(line.x)?;
        scratch.duals.push(line.dual)?;
    }
    Ok(())
}

/// A line's cell as one of a row: it weighs as much as it has connections, and at least 1.
fn row_cell(problem: &Problem, die: Die, line: &CellShown) -> RowCell
    requires { line.now.cell.0 < length problem.now.cells }
    ensures { result ≡ row_cell problem.now die line.now }
{
    let weight = problem.conns_of_cell(line.cell).len().max(1);
    RowCell {
        width: problem.width(line.cell, die),
        target: line.target.x,
        weight: weight as i64,
    }
}

/// Whether the row that a scratch holds is as is asked, on a segment that has room for it.
fn scratch_meets(segment: &Segment, asked: Asked, scratch: &Scratch) -> bool
    requires room { IsRow scratch.now.cells.items segment.now.start (segment.now.start +ℤ segment.now.length) }
    requires places { ArePlaces scratch.now.cells.items scratch.now.xs.items }
    requires duals { length scratch.now.duals.items ≡ length scratch.now.cells.items + 1 }
    ensures { IsTrue result ↔ MeetsAt asked scratch.now.cells.items segment.now.start (segment.now.start +ℤ segment.now.length) scratch.now.xs.items scratch.now.duals.items }
{
    let start = segment.start;
    let end = start + segment.length;
    match asked {
        Asked::Order => is_feasible(&scratch.cells, start, end, &scratch.xs),
        Asked::Duals => row_shown(&scratch.cells, start, end, &scratch.xs, &scratch.duals),
    }
}
