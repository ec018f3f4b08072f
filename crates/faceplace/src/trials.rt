//! The report of a run of trials.

ghost use Rattle.std.specs.Prelude.{◌≡◌, ◌++◌, IfOk, codes};
ghost use Rattle.fp_cert.specs.Trials.{answer_of};
ghost use Rattle.faceplace.specs.Trials.{scored_text, ending_text, trial_line, trial_lines, place_report};
ghost use Rattle.faceplace.specs.TrialCells.{IsEndingOf, AreTrialsOf};

use crate::report::score_report;
use fp_cert::{Ending, Run, Trial};
use fp_netlist::Problem;
use std::alloc::{AllocError, Global};

/// A word and a score.
fn scored_words(alloc: Global, word: &str, score: u64) -> Result<Vec<u8>, AllocError>
    ensures { IfOk result (λ words. words.items ≡ scored_text word.now score) }
{
    let words = format!(in alloc; "{word} {score}")?;
    Ok(words.into_bytes())
}

/// How a trial ended: `start S`, `better S`, `kept S` or `norow CELL`.
fn ending_words(alloc: Global, problem: &Problem, trial: &Trial) -> Result<Vec<u8>, AllocError>
    requires { IsEndingOf problem.now trial.now.ending }
    ensures { IfOk result (λ words. words.items ≡ ending_text problem.now trial.now.ending trial.now.score) }
{
    match trial.ending() {
        Ending::Start => scored_words(alloc, "start", trial.score()),
        Ending::Better => scored_words(alloc, "better", trial.score()),
        Ending::NotBetter => scored_words(alloc, "kept", trial.score()),
        Ending::NoRow(cell) => {
            let mut words = Vec::from_slice(alloc, b"norow ")?;
            words.extend_from_slice(problem.cell_name(cell))?;
            Ok(words)
        }
    }
}

/// A trial's line: its number, and how it ended.
fn trial_line(
    alloc: Global,
    problem: &Problem,
    number: u64,
    trial: &Trial,
) -> Result<Vec<u8>, AllocError>
    requires { IsEndingOf problem.now trial.now.ending }
    ensures { IfOk result (λ line. line.items ≡ trial_line problem.now number trial.now) }
{
    let head = format!(in alloc; "trial {number} ")?;
    let mut line = head.into_bytes();
    line.extend_from_slice(&ending_words(alloc, problem, trial)?)?;
    line.extend_from_slice(b"\n")?;
    Ok(line)
}

/// Adds the lines of trials, which are numbered from 0.
fn push_trials(
    alloc: Global,
    problem: &Problem,
    trials: &[Trial],
    report: &mut Vec<u8>,
) -> Result<(), AllocError>
    requires { AreTrialsOf problem.now trials.now }
    ensures { IfOk result (λ _. report.new.items ≡ report.old.items ++ trial_lines problem.now 0 trials.now) }
{
    for number in 0..trials.len() {
        let line = trial_line(alloc, problem, number as u64, &trials[number])?;
        report.extend_from_slice(&line)?;
    }
    Ok(())
}

/// The score of a run's answer.
fn answer_score(run: &Run) -> u64
    ensures { result ≡ (answer_of run.now).score }
{
    match run.trials().get(run.answer() as usize) {
        Some(trial) => trial.score(),
        None => 0,
    }
}

/// The report of a run, behind a front: the score of the seed, a line for each trial, and the score of the answer.
pub fn place_report(
    alloc: Global,
    front: &[u8],
    problem: &Problem,
    seed_score: u64,
    run: &Run,
) -> Result<Vec<u8>, AllocError>
    requires { AreTrialsOf problem.now run.now.trials }
    ensures { IfOk result (λ report. report.items ≡ front.now ++ place_report problem.now seed_score run.now) }
{
    let head = format!(in alloc; "seed {seed_score}\n")?;
    let mut report = Vec::from_slice(alloc, front)?;
    report.extend_from_slice(head.as_bytes())?;
    push_trials(alloc, problem, run.trials(), &mut report)?;
    let foot = score_report(alloc, answer_score(run))?;
    report.extend_from_slice(foot.as_bytes())?;
    Ok(report)
}
