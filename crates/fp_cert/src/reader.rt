//! Reading a certificate file.

ghost use Rattle.std.specs.Prelude.{◌≡◌, ◌<◌, ◌≤◌, ◌^◌, ◌↔◌, [], length, IfOk, Ok};
ghost use Rattle.fp_text.specs.Reading.{Gives, many_next};
ghost use Rattle.fp_tech.specs.Slots.{Slots, slot_count, IsGrid};
ghost use Rattle.fp_cert.specs.Shown.{ShownRun, with_trial};
ghost use Rattle.fp_cert.specs.CertText.{cert_text};
ghost use Rattle.fp_cert.specs.OfProblem.{IsRunOf};
ghost use Rattle.fp_cert.specs.CertGrammar.{ReadsCert};
ghost use Rattle.fp_cert.specs.CertReading.{rowless_next, ending_next, trial_next, trial_item, version_next, trials_next, cert_of, GivesRun};
ghost use Rattle.fp_cert.specs.Growing.{with_trials, Grows, Finishes};

use crate::lines_reader::{placed_trial, rowless_trial};
use crate::numbers::{NUMBER, below, number_line, wrong};
use crate::run::Run;
use crate::shown::Ending;
use crate::trial::Trial;
use fp_base::CellId;
use fp_netlist::Problem;
use fp_tech::Grid;
use fp_text::{Kind, TextFault, Tokens};
use std::alloc::Global;

/// The cell for which a trial found no row.
#[tactic(auto, unfolding(crate::specs::CertReading::rowless_next))]
fn rowless(problem: &Problem, tokens: &mut Tokens<'_>) -> Result<Ending, TextFault>
    ensures { Gives (λ ending. ending) result tokens.new (rowless_next problem.now tokens.old) }
{
    let cell = below(problem.cells(), tokens)?;
    Ok(Ending::NoRow(CellId(cell)))
}

/// How a trial ended, by its word; else `Word`.
#[tactic(auto, unfolding(crate::specs::CertReading::ending_next))]
fn ending(problem: &Problem, tokens: &mut Tokens<'_>) -> Result<Ending, TextFault>
    ensures { Gives (λ ending. ending) result tokens.new (ending_next problem.now tokens.old) }
{
    let word = tokens.word()?;
    if word.text == b"start".as_slice() {
        Ok(Ending::Start)
    } else if word.text == b"better".as_slice() {
        Ok(Ending::Better)
    } else if word.text == b"kept".as_slice() {
        Ok(Ending::NotBetter)
    } else if word.text == b"norow".as_slice() {
        rowless(problem, tokens)
    } else {
        Err(wrong(word.at, Kind::Word))
    }
}

/// The next trial, which has this number.
#[tactic(auto, unfolding(crate::specs::CertReading::trial_next))]
fn next_trial(
    alloc: Global,
    problem: &Problem,
    slots: u32,
    number: u64,
    tokens: &mut Tokens<'_>,
) -> Result<Trial, TextFault>
    ensures { Gives (λ trial. trial) result tokens.new (trial_next problem.now slots number tokens.old) }
{
    number_line(tokens, b"Trial", number, number, Kind::Range)?;
    let ending = ending(problem, tokens)?;
    match ending {
        Ending::NoRow(cell) => rowless_trial(alloc, problem, tokens, cell),
        _ => placed_trial(alloc, problem, slots, tokens, ending),
    }
}

/// Adds the next trial to a run.
fn add_trial(
    run: &mut Run,
    alloc: Global,
    problem: &Problem,
    slots: u32,
    tokens: &mut Tokens<'_>,
) -> Result<(), TextFault>
    ensures { Grows with_trial result run.old run.new tokens.new (trial_item problem.now slots run.old.trials tokens.old) }
{
    let number = run.trials().len() as u64;
    let trial = next_trial(alloc, problem, slots, number, tokens)?;
    run.push_trial(trial).or(Err(TextFault::Memory))
}

/// Adds so many trials to a run without trials.
fn many_trials(
    run: &mut Run,
    alloc: Global,
    problem: &Problem,
    slots: u32,
    count: u64,
    tokens: &mut Tokens<'_>,
) -> Result<(), TextFault>
    requires { run.old.trials ≡ [] }
    ensures { Grows with_trials result run.old run.new tokens.new (many_next (trial_item problem.now slots) count [] tokens.old) }
{
    for _ in 0..count {
        add_trial(run, alloc, problem, slots, tokens)?;
    }
    Ok(())
}

/// Reads the version, and the cost of terminals behind version 2.
#[tactic(auto, unfolding(crate::specs::CertReading::version_next))]
fn version(tokens: &mut Tokens<'_>) -> Result<u64, TextFault>
    ensures gives { Gives (λ cost. cost) result tokens.new (version_next tokens.old) }
    ensures small { IfOk result (λ cost. cost ≤ 2 ^ 30) }
{
    let version = number_line(tokens, b"FaceplaceCert", 1, 2, Kind::Range)?;
    if version == 1 {
        Ok(0)
    } else {
        number_line(tokens, b"Cost", 1, NUMBER, Kind::Range)
    }
}

/// Reads the trials and the answer, up to the end of the file, into a run without trials.
fn fill_run(
    run: &mut Run,
    alloc: Global,
    problem: &Problem,
    slots: u32,
    tokens: &mut Tokens<'_>,
) -> Result<(), TextFault>
    requires { run.old.trials ≡ [] }
    ensures { Finishes result run.new (trials_next problem.now slots run.old tokens.old) }
{
    let count = number_line(tokens, b"Trials", 2, 9, Kind::Range)?;
    many_trials(run, alloc, problem, slots, count, tokens)?;
    let answer = number_line(tokens, b"Answer", 0, 8, Kind::Range)?;
    run.set_answer(answer as u32);
    tokens.end()
}

/// Reads the whole file, with a grid of so many slots.
fn whole_run(alloc: Global, problem: &Problem, slots: u32, bytes: &[u8]) -> Result<Run, TextFault>
    ensures { GivesRun result (cert_of problem.now slots bytes.now) }
{
    let mut tokens = Tokens::new(bytes);
    let cost = version(&mut tokens)?;
    let limit = number_line(&mut tokens, b"Limit", 1, 8, Kind::Range)?;
    let mut run = Run::new(alloc, limit as u32, cost as u32);
    fill_run(&mut run, alloc, problem, slots, &mut tokens)?;
    Ok(run)
}

/// The run that a certificate file of a problem says: the version, with the cost of terminals behind version 2; `Limit`, how many trials
/// may be made behind the first one; `Trials`, their number, and each trial by its number from 0; and `Answer`, the number of the trial
/// that is the answer. That is our own form. The limit is 1 to 8, the trials are 2 to 9, and the answer is 0 to 8; a cell, a net or a slot
/// is below its count in the problem and its grid, each die has as many segments as in the problem, and no trial has more than 2^18 cells,
/// cut nets or cells of the top die. Lines end anywhere, and numbers may have zeros in front.
///
/// `Wrong` comes only where the file is not in the grammar: it is the first fault from left to right. At each token it is `Ended` where
/// there is none, `Word` where another keyword is needed or a trial did not end so, `Number` where a number is needed and the token is none
/// or is above the greatest (2^60 for a dual, a price and the score, 2^32 with or without a `-` for a target, 2^30 for all others), `Limit`
/// for too many lines, `Range` for any other number outside its range, and `Trailing` behind the answer. `Memory` comes where memory was
/// refused.
pub fn read_cert(alloc: Global, problem: &Problem, bytes: &[u8]) -> Result<Run, TextFault>
    // What is read is of the problem.
    ensures of_problem { (grid : Slots) → IsGrid problem.now.plan.frame problem.now.plan.terminal grid
        → IfOk result (λ run. IsRunOf problem.now (slot_count grid) run) }
    // What is read is in the grammar, with its run.
    ensures reads { (grid : Slots) → IsGrid problem.now.plan.frame problem.now.plan.terminal grid
        → IfOk result (λ run. ReadsCert problem.now (slot_count grid) bytes.now run) }
    // What is in the grammar is read, unless memory runs out.
    ensures only { (grid : Slots) → IsGrid problem.now.plan.frame problem.now.plan.terminal grid
        → (run : ShownRun) → ReadsCert problem.now (slot_count grid) bytes.now run → GivesRun result (Ok run) }
    // A file says a run exactly where the reading from left to right gives it.
    ensures agree { (grid : Slots) → IsGrid problem.now.plan.frame problem.now.plan.terminal grid
        → (run : ShownRun) → ReadsCert problem.now (slot_count grid) bytes.now run ↔ (cert_of problem.now (slot_count grid) bytes.now ≡ Ok run) }
    // A file says at most one run.
    ensures unique { (grid : Slots) → IsGrid problem.now.plan.frame problem.now.plan.terminal grid
        → (one other : ShownRun) → ReadsCert problem.now (slot_count grid) bytes.now one → ReadsCert problem.now (slot_count grid) bytes.now other → one ≡ other }
    // Which fault it is.
    ensures gives { (grid : Slots) → IsGrid problem.now.plan.frame problem.now.plan.terminal grid
        → GivesRun result (cert_of problem.now (slot_count grid) bytes.now) }
    // What `write_cert` writes of a run of the problem is read as that run.
    ensures back { (grid : Slots) → IsGrid problem.now.plan.frame problem.now.plan.terminal grid
        → (run : ShownRun) → IsRunOf problem.now (slot_count grid) run → bytes.now ≡ cert_text run → GivesRun result (Ok run) }
    // It is short.
    ensures short { (grid : Slots) → IsGrid problem.now.plan.frame problem.now.plan.terminal grid
        → (run : ShownRun) → IsRunOf problem.now (slot_count grid) run → length (cert_text run) < 2 ^ 30 }
{
    let _cells = problem.cells();
    let slots = Grid::of(problem.dies()).slots();
    whole_run(alloc, problem, slots, bytes)
}
