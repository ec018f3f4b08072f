//! Condition 3: each cell is listed exactly once on the segments of both dies; or, where there was no row for a cell, no cell is listed twice.

ghost use Rattle.std.specs.Prelude.{◌≡◌, ◌↔◌, ◌<◌, ◌∷◌, [], ℕ, All, IfOk, IsTrue, length, map, get_or, nat_eq, true};
ghost use Rattle.std.specs.List.{list_all, IsDistinct};
ghost use Rattle.fp_cert.specs.OfProblem.{IsTrialOf, IsRunOf};
ghost use Rattle.fp_check.specs.Conditions.{OfEach, StandOnceShown, ListsOnce};
ghost use Rattle.fp_check.specs.Marks.{marked, cells_in, cells_in_rows, cells_listed, Marks};

use fp_base::{CellId, Die, NoMemory};
use fp_cert::{CellShown, Ending, RowShown, Run, Trial};
use fp_netlist::Problem;
use std::alloc::Global;

/// Whether each trial that placed its cells lists each of them exactly once, and each other one lists no cell twice.
pub fn lists_once(alloc: Global, problem: &Problem, run: &Run) -> Result<bool, NoMemory>
    requires { (slots : ℕ) × IsRunOf problem.now slots run.now }
    ensures { IfOk result (λ b. IsTrue b ↔ OfEach run.now (λ trial. ListsOnce problem.now trial trial.ending)) }
{
    for trial in run.trials() {
        if !trial_lists_once(alloc, problem, trial)? {
            return Ok(false);
        }
    }
    Ok(true)
}

/// The same of one trial.
fn trial_lists_once(alloc: Global, problem: &Problem, trial: &Trial) -> Result<bool, NoMemory>
    requires { (slots : ℕ) × IsTrialOf problem.now slots trial.now }
    ensures { IfOk result (λ b. IsTrue b ↔ ListsOnce problem.now trial.now trial.now.ending) }
{
    match trial.ending() {
        Ending::NoRow(_) => are_apart(alloc, problem, trial.top_cells()),
        _ => stand_once(alloc, problem, trial),
    }
}

/// Whether each cell of a problem is listed exactly once on the segments of both dies.
fn stand_once(alloc: Global, problem: &Problem, trial: &Trial) -> Result<bool, NoMemory>
    ensures { IfOk result (λ b. IsTrue b ↔ StandOnceShown problem.now trial.now) }
{
    let mut seen = vec![in alloc; false; problem.cells() as usize]?;
    if !mark_both(trial, &mut seen) {
        return Ok(false);
    }
    Ok(are_all_marked(&seen))
}

/// Whether no cell of a list comes twice.
fn are_apart(alloc: Global, problem: &Problem, cells: &[CellId]) -> Result<bool, NoMemory>
    requires { All (λ cell. cell.0 < length problem.now.cells) cells.now }
    ensures { IfOk result (λ b. IsTrue b ↔ IsDistinct nat_eq (map (λ cell. cell.0) cells.now)) }
{
    let mut seen = vec![in alloc; false; problem.cells() as usize]?;
    for cell in cells {
        if !mark(*cell, &mut seen) {
            return Ok(false);
        }
    }
    Ok(true)
}

/// Marks the cells of the segments of both dies.
fn mark_both(trial: &Trial, seen: &mut Vec<bool>) -> bool
    ensures { Marks result seen.new.items (marked seen.old.items (cells_listed trial.now)) }
{
    if !mark_rows(trial.rows(Die::Top), seen) {
        return false;
    }
    mark_rows(trial.rows(Die::Bottom), seen)
}

/// Marks the cells of rows; false where one is marked already or has no place.
fn mark_rows(rows: &[RowShown], seen: &mut Vec<bool>) -> bool
    ensures { Marks result seen.new.items (marked seen.old.items (cells_in_rows rows.now)) }
{
    for row in rows {
        if !mark_cells(row.cells(), seen) {
            return false;
        }
    }
    true
}

/// Marks the cells of a row.
fn mark_cells(lines: &[CellShown], seen: &mut Vec<bool>) -> bool
    ensures { Marks result seen.new.items (marked seen.old.items (cells_in lines.now)) }
{
    for line in lines {
        if !mark(line.cell, seen) {
            return false;
        }
    }
    true
}

/// Marks a cell; false where it is marked already or has no place.
fn mark(cell: CellId, seen: &mut Vec<bool>) -> bool
    ensures { Marks result seen.new.items (marked seen.old.items (cell.0 ∷ [])) }
{
    if is_marked(cell, seen.as_slice()) {
        return false;
    }
    seen[cell.0 as usize] = true;
    true
}

/// Whether a cell is marked, or has no place.
fn is_marked(cell: CellId, seen: &[bool]) -> bool
    ensures { result ≡ get_or seen.now cell.0 true }
{
    let place = cell.0 as usize;
    place >= seen.len() || seen[place]
}

/// Whether all are marked.
fn are_all_marked(seen: &[bool]) -> bool
    ensures { result ≡ list_all (λ mark. mark) seen.now }
{
    seen.iter().all(|mark| *mark)
}
