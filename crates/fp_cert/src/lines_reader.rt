//! Reading what a trial shows.

ghost use Rattle.std.specs.Prelude.{◌≡◌, ◌+◌, ◌-◌, ◌≤◌, ◌^◌, [], length, codes, IfOk, IsTrue};
ghost use Rattle.fp_text.specs.Reading.{Gives, many_next};
ghost use Rattle.fp_tech.specs.Plan.{segments};
ghost use Rattle.fp_tech.specs.Slots.{Slots, slot_count, IsGrid};
ghost use Rattle.fp_cert.specs.Shown.{ShownTrial, trial_without, with_cell, with_row, with_cut, with_top};
ghost use Rattle.fp_cert.specs.Endings.{has_rows};
ghost use Rattle.fp_cert.specs.CertText.{die_word};
ghost use Rattle.fp_cert.specs.OfProblem.{cells_in, IsTrialOf};
ghost use Rattle.fp_cert.specs.CertGrammar.{AreLines};
ghost use Rattle.fp_cert.specs.CertReading.{cell_next, row_next, row_item, rows_next, cut_next, listed_next, score_next, lines_next, top_next, tops_next};
ghost use Rattle.fp_cert.specs.Growing.{with_cells, with_rows, with_cuts, with_tops, Grows, GrowsTo, Becomes};

use crate::numbers::{NUMBER, amount, below, number_line, target};
use crate::shown::{CellShown, CutShown, Ending, RowShown};
use crate::trial::Trial;
use crate::trial_lines::word_of;
use fp_base::{CellId, Die, NetId, SlotId};
use fp_netlist::Problem;
use fp_tech::Grid;
use fp_text::{Kind, TextFault, Tokens};
use std::alloc::Global;

/// The most lines of one kind in a trial.
const LINES: u64 = 1 << 18;

/// The next line of a cell.
#[tactic(auto, unfolding(crate::specs::CertReading::cell_next))]
fn next_cell(problem: &Problem, tokens: &mut Tokens<'_>) -> Result<CellShown, TextFault>
    ensures { Gives (λ line. line) result tokens.new (cell_next problem.now tokens.old) }
{
    tokens.keyword(b"Cell")?;
    let cell = below(problem.cells(), tokens)?;
    let x = tokens.number(0, NUMBER, Kind::Number)?;
    let target = target(tokens)?;
    let dual = amount(tokens)?;
    Ok(CellShown {
        cell: CellId(cell),
        x: x as i64,
        target,
        dual,
    })
}

/// Adds the next cell to a segment.
fn add_cell(row: &mut RowShown, problem: &Problem, tokens: &mut Tokens<'_>) -> Result<(), TextFault>
    ensures { Grows with_cell result row.old row.new tokens.new (cell_next problem.now tokens.old) }
{
    let cell = next_cell(problem, tokens)?;
    row.push(cell).or(Err(TextFault::Memory))
}

/// Adds so many cells to a segment.
fn many_cells(
    row: &mut RowShown,
    problem: &Problem,
    count: u64,
    tokens: &mut Tokens<'_>,
) -> Result<(), TextFault>
    ensures { Grows with_cells result row.old row.new tokens.new (many_next (λ _. cell_next problem.now) count [] tokens.old) }
{
    for _ in 0..count {
        add_cell(row, problem, tokens)?;
    }
    Ok(())
}

/// The next segment, where the trial's segments before it took so many cells.
#[tactic(auto, unfolding(crate::specs::CertReading::row_next))]
fn next_row(
    alloc: Global,
    problem: &Problem,
    taken: u64,
    tokens: &mut Tokens<'_>,
) -> Result<RowShown, TextFault>
    requires { taken ≤ 2 ^ 18 }
    ensures { Gives (λ row. row) result tokens.new (row_next problem.now taken tokens.old) }
{
    let count = number_line(tokens, b"Segment", 0, LINES - taken, Kind::Limit)?;
    let first = amount(tokens)?;
    let mut row = RowShown::new(alloc, first);
    many_cells(&mut row, problem, count, tokens)?;
    Ok(row)
}

/// Adds the next segment of a die to a trial, whose segments before it took so many cells; how many they took with it.
fn add_row(
    trial: &mut Trial,
    alloc: Global,
    problem: &Problem,
    die: Die,
    taken: u64,
    tokens: &mut Tokens<'_>,
) -> Result<u64, TextFault>
    requires { taken ≤ 2 ^ 18 }
    ensures grows { GrowsTo (λ shown row. with_row shown die row) (λ row after. after ≡ taken + length row.cells) result trial.old trial.new tokens.new
        (row_next problem.now taken tokens.old) }
    ensures few { IfOk result (λ after. after ≤ 2 ^ 18) }
{
    let row = next_row(alloc, problem, taken, tokens)?;
    let after = taken + row.cells().len() as u64;
    match trial.push_row(die, row) {
        Ok(()) => Ok(after),
        Err(_) => Err(TextFault::Memory),
    }
}

/// Adds so many segments of a die to a trial; how many cells the trial's segments took with them.
fn many_rows(
    trial: &mut Trial,
    alloc: Global,
    problem: &Problem,
    die: Die,
    count: u64,
    mut taken: u64,
    tokens: &mut Tokens<'_>,
) -> Result<u64, TextFault>
    requires { taken ≤ 2 ^ 18 }
    ensures grows { GrowsTo (with_rows die) (λ rows after. after ≡ taken + cells_in rows) result trial.old trial.new tokens.new
        (many_next (row_item problem.now taken) count [] tokens.old) }
    ensures few { IfOk result (λ after. after ≤ 2 ^ 18) }
{
    for _ in 0..count {
        taken = add_row(trial, alloc, problem, die, taken, tokens)?;
    }
    Ok(taken)
}

/// Reads the segments of a die, as many as the problem has; how many cells the trial's segments took with them.
#[tactic(auto, unfolding(crate::specs::CertReading::rows_next))]
fn rows(
    trial: &mut Trial,
    alloc: Global,
    problem: &Problem,
    die: Die,
    taken: u64,
    tokens: &mut Tokens<'_>,
) -> Result<u64, TextFault>
    requires { taken ≤ 2 ^ 18 }
    ensures grows { GrowsTo (with_rows die) (λ rows after. after ≡ taken + cells_in rows) result trial.old trial.new tokens.new
        (rows_next problem.now die taken tokens.old) }
    ensures few { IfOk result (λ after. after ≤ 2 ^ 18) }
{
    let segments = problem.dies().segments_of(die).len() as u64;
    let count = number_line(tokens, word_of(die), segments, segments, Kind::Range)?;
    many_rows(trial, alloc, problem, die, count, taken, tokens)
}

/// The next line of a cut net.
#[tactic(auto, unfolding(crate::specs::CertReading::cut_next))]
fn next_cut(problem: &Problem, slots: u32, tokens: &mut Tokens<'_>) -> Result<CutShown, TextFault>
    ensures { Gives (λ line. line) result tokens.new (cut_next problem.now slots tokens.old) }
{
    tokens.keyword(b"Cut")?;
    let net = below(problem.nets(), tokens)?;
    let slot = below(slots, tokens)?;
    let price = amount(tokens)?;
    Ok(CutShown {
        net: NetId(net),
        slot: SlotId(slot),
        price,
    })
}

/// Adds the next cut net to a trial.
fn add_cut(
    trial: &mut Trial,
    problem: &Problem,
    slots: u32,
    tokens: &mut Tokens<'_>,
) -> Result<(), TextFault>
    ensures { Grows with_cut result trial.old trial.new tokens.new (cut_next problem.now slots tokens.old) }
{
    let cut = next_cut(problem, slots, tokens)?;
    trial.push_cut(cut).or(Err(TextFault::Memory))
}

/// Adds so many cut nets to a trial.
fn many_cuts(
    trial: &mut Trial,
    problem: &Problem,
    slots: u32,
    count: u64,
    tokens: &mut Tokens<'_>,
) -> Result<(), TextFault>
    ensures { Grows with_cuts result trial.old trial.new tokens.new (many_next (λ _. cut_next problem.now slots) count [] tokens.old) }
{
    for _ in 0..count {
        add_cut(trial, problem, slots, tokens)?;
    }
    Ok(())
}

/// Reads the cut nets.
#[tactic(auto, unfolding(crate::specs::CertReading::listed_next))]
fn cuts(
    trial: &mut Trial,
    problem: &Problem,
    slots: u32,
    tokens: &mut Tokens<'_>,
) -> Result<(), TextFault>
    ensures { Grows with_cuts result trial.old trial.new tokens.new (listed_next (codes "Terminals") (cut_next problem.now slots) tokens.old) }
{
    let count = number_line(tokens, b"Terminals", 0, LINES, Kind::Limit)?;
    many_cuts(trial, problem, slots, count, tokens)
}

/// Reads the score.
#[tactic(auto, unfolding(crate::specs::CertReading::score_next))]
fn score(tokens: &mut Tokens<'_>) -> Result<u64, TextFault>
    ensures { Gives (λ n. n) result tokens.new (score_next tokens.old) }
{
    tokens.keyword(b"Score")?;
    amount(tokens)
}

/// Reads a trial's lines from its top die's segments to its score into a trial without lines.
fn fill_lines(
    trial: &mut Trial,
    alloc: Global,
    problem: &Problem,
    slots: u32,
    tokens: &mut Tokens<'_>,
    ending: Ending,
) -> Result<(), TextFault>
    requires { trial.old ≡ trial_without ending 0 }
    ensures { Becomes result trial.new tokens.new (lines_next problem.now slots ending tokens.old) }
{
    let taken = rows(trial, alloc, problem, Die::Top, 0, tokens)?;
    rows(trial, alloc, problem, Die::Bottom, taken, tokens)?;
    cuts(trial, problem, slots, tokens)?;
    let score = score(tokens)?;
    trial.end(ending, score);
    Ok(())
}

/// Reads a trial's lines from its top die's segments to its score, with a grid of so many slots.
pub fn placed_trial(
    alloc: Global,
    problem: &Problem,
    slots: u32,
    tokens: &mut Tokens<'_>,
    ending: Ending,
) -> Result<Trial, TextFault>
    ensures { Gives (λ trial. trial) result tokens.new (lines_next problem.now slots ending tokens.old) }
{
    let mut trial = Trial::new(alloc, ending, 0);
    fill_lines(&mut trial, alloc, problem, slots, tokens, ending)?;
    Ok(trial)
}

/// The lines of one trial that ended so, from its top die's segments to its score. The ending is not `NoRow`. The lines are those of a
/// trial in the certificate file, our own form; the tokens before them are the caller's, and those behind the score are left.
///
/// `Wrong` comes only where the tokens do not begin with such lines: it is the first fault from left to right, as `read_cert` says.
/// `Memory` comes where memory was refused. After a fault nothing is said of the tokens.
pub fn read_lines(
    alloc: Global,
    problem: &Problem,
    tokens: &mut Tokens<'_>,
    ending: Ending,
) -> Result<Trial, TextFault>
    requires { IsTrue (has_rows ending) }
    // Which trial it is, and which fault.
    ensures gives { (grid : Slots) → IsGrid problem.now.plan.frame problem.now.plan.terminal grid
        → Gives (λ trial. trial) result tokens.new (lines_next problem.now (slot_count grid) ending tokens.old) }
    // What is read is in the grammar.
    ensures reads { (grid : Slots) → IsGrid problem.now.plan.frame problem.now.plan.terminal grid
        → IfOk result (λ trial. AreLines problem.now (slot_count grid) trial tokens.old.words tokens.new.words × (trial.ending ≡ ending)) }
    // It is of the problem.
    ensures of_problem { (grid : Slots) → IsGrid problem.now.plan.frame problem.now.plan.terminal grid
        → IfOk result (λ trial. IsTrialOf problem.now (slot_count grid) trial) }
{
    let slots = Grid::of(problem.dies()).slots();
    placed_trial(alloc, problem, slots, tokens, ending)
}

/// The next line of a cell of the top die.
#[tactic(auto, unfolding(crate::specs::CertReading::top_next))]
fn next_top(problem: &Problem, tokens: &mut Tokens<'_>) -> Result<CellId, TextFault>
    ensures { Gives (λ cell. cell) result tokens.new (top_next problem.now tokens.old) }
{
    tokens.keyword(b"Cell")?;
    let cell = below(problem.cells(), tokens)?;
    Ok(CellId(cell))
}

/// Adds the next cell of the top die to a trial.
fn add_top(trial: &mut Trial, problem: &Problem, tokens: &mut Tokens<'_>) -> Result<(), TextFault>
    ensures { Grows with_top result trial.old trial.new tokens.new (top_next problem.now tokens.old) }
{
    let cell = next_top(problem, tokens)?;
    trial.push_top(cell).or(Err(TextFault::Memory))
}

/// Adds so many cells of the top die to a trial.
fn many_tops(
    trial: &mut Trial,
    problem: &Problem,
    count: u64,
    tokens: &mut Tokens<'_>,
) -> Result<(), TextFault>
    ensures { Grows with_tops result trial.old trial.new tokens.new (many_next (λ _. top_next problem.now) count [] tokens.old) }
{
    for _ in 0..count {
        add_top(trial, problem, tokens)?;
    }
    Ok(())
}

/// Reads the cells of the top die.
#[tactic(auto, unfolding(crate::specs::CertReading::listed_next))]
fn tops(trial: &mut Trial, problem: &Problem, tokens: &mut Tokens<'_>) -> Result<(), TextFault>
    ensures { Grows with_tops result trial.old trial.new tokens.new (listed_next (codes "TopCells") (top_next problem.now) tokens.old) }
{
    let count = number_line(tokens, b"TopCells", 0, LINES, Kind::Limit)?;
    many_tops(trial, problem, count, tokens)
}

/// Reads the lines of a trial that found no row for a cell.
#[tactic(auto, unfolding(crate::specs::CertReading::tops_next))]
pub fn rowless_trial(
    alloc: Global,
    problem: &Problem,
    tokens: &mut Tokens<'_>,
    cell: CellId,
) -> Result<Trial, TextFault>
    ensures { Gives (λ trial. trial) result tokens.new (tops_next problem.now cell tokens.old) }
{
    let mut trial = Trial::new(alloc, Ending::NoRow(cell), 0);
    tops(&mut trial, problem, tokens)?;
    Ok(trial)
}
