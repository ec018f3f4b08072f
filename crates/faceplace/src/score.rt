//! The command that scores an output file.

ghost use Rattle.std.specs.Prelude.{◌≡◌, ◌≤◌, Some};
ghost use Rattle.fp_base.specs.Faults.{Rose};
ghost use Rattle.faceplace.specs.Request.{Score};
ghost use Rattle.faceplace.specs.Judging.{Reports};
ghost use Rattle.faceplace.specs.Status.{code_of};
ghost use Rattle.faceplace.specs.Run.{outside, EndsAs, EndsForProblem};

use crate::input::{MOST_INPUT, Stop, read_input, read_output};
use crate::refusal::refuse;
use crate::report::{broken_report, score_report};
use crate::status::{Status, tell};
use fp_base::{Folder, Sink};
use fp_netlist::Problem;
use fp_place::{Drawn, Judged, verdict};
use fp_score::score;
use std::alloc::Global;

/// Reports the verdict on a drawing: its score, or the rule that it breaks.
fn judge<S: Sink>(alloc: Global, problem: &Problem, drawn: &Drawn, out: &mut S) -> Status
    ensures { Reports problem.now drawn.now (code_of result) (S.written out.old) (S.written out.new) (S.faults out.old) (S.faults out.new) }
{
    match verdict(alloc, problem, drawn) {
        Ok(Judged::Legal(placement)) => match score_report(alloc, score(problem, &placement)) {
            Ok(report) => tell(out, report.as_bytes(), Status::Done),
            Err(_) => Status::NoMemory,
        },
        Ok(Judged::Breaks { rule, subject }) => {
            match broken_report(alloc, problem, rule, subject) {
                Ok(report) => tell(out, &report, Status::Broken),
                Err(_) => Status::NoMemory,
            }
        }
        Err(_) => Status::NoMemory,
    }
}

/// Judges an output file for a problem, and reports its score.
fn score_problem<F: Folder, S: Sink>(
    alloc: Global,
    problem: &Problem,
    output: &str,
    folder: &mut F,
    out: &mut S,
) -> Status
    ensures { EndsForProblem problem.now (λ input. Score input output.now) (code_of result)
        (outside (F.held folder.old) (S.written out.old) (F.faults folder.old) (S.faults out.old))
        (outside (F.held folder.new) (S.written out.new) (F.faults folder.new) (S.faults out.new)) }
{
    match read_output(alloc, folder, problem, output) {
        Ok(drawn) => judge(alloc, problem, &drawn, out),
        Err(Stop::Memory) => Status::NoMemory,
        Err(Stop::Device) => Status::Device,
        Err(Stop::Refused(cause)) => refuse(alloc, MOST_INPUT, output, cause, out),
    }
}

/// Judges an output file for an input file, and reports its score.
pub fn run_score<F: Folder, S: Sink>(
    alloc: Global,
    input: &str,
    output: &str,
    folder: &mut F,
    out: &mut S,
) -> Status
    ensures { EndsAs (Some (Score input.now output.now)) (code_of result)
        (outside (F.held folder.old) (S.written out.old) (F.faults folder.old) (S.faults out.old))
        (outside (F.held folder.new) (S.written out.new) (F.faults folder.new) (S.faults out.new)) }
{
    match read_input(alloc, folder, input) {
        Ok(problem) => score_problem(alloc, &problem, output, folder, out),
        Err(Stop::Memory) => Status::NoMemory,
        Err(Stop::Device) => Status::Device,
        Err(Stop::Refused(cause)) => refuse(alloc, MOST_INPUT, input, cause, out),
    }
}
