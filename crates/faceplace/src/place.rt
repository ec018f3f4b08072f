//! The command that places the cells of an input.

ghost use Rattle.std.specs.Prelude.{◌≡◌, ◌≤◌, ℕ, Option, Some, Ok};
ghost use Rattle.fp_place.specs.Placed.{IsPlacementOf};
ghost use Rattle.fp_flow.specs.Outcomes.{FlowGives};
ghost use Rattle.faceplace.specs.Request.{Asked, Place};
ghost use Rattle.faceplace.specs.TrialCells.{AreTrialsOf};
ghost use Rattle.faceplace.specs.Due.{placing, PlaceDue, IsDue};
ghost use Rattle.faceplace.specs.Status.{code_of};
ghost use Rattle.faceplace.specs.Run.{outside, EndsAs, EndsWhereDue};

use crate::input::{MOST_INPUT, Stop, read_input};
use crate::refusal::{refuse, unfit};
use crate::status::{Status, tell};
use crate::trials::place_report;
use fp_base::{Folder, Sink};
use fp_cert::write_cert;
use fp_flow::{FlowFault, Outcome, place};
use fp_netlist::Problem;
use fp_out::write_out;
use std::alloc::Global;

/// Writes the placement of an outcome to an output file and the certificate of its run to another, and then tells the report.
fn write_files<F: Folder, S: Sink>(
    problem: &Problem,
    outcome: &Outcome,
    report: &[u8],
    output: &str,
    cert: &str,
    folder: &mut F,
    out: &mut S,
) -> Status
    requires { IsPlacementOf problem.now outcome.now.answer }
    ensures { (asked : Option Asked) → IsDue asked (F.held folder.old) (placing problem.now outcome.now.run outcome.now.answer output.now cert.now report.now)
        → EndsAs asked (code_of result)
        (outside (F.held folder.old) (S.written out.old) (F.faults folder.old) (S.faults out.old))
        (outside (F.held folder.new) (S.written out.new) (F.faults folder.new) (S.faults out.new)) }
{
    if write_out(folder, output, problem, &outcome.answer).is_err() {
        return Status::Device;
    }
    if write_cert(folder, cert, &outcome.run).is_err() {
        return Status::Device;
    }
    tell(out, report, Status::Done)
}

/// Writes an outcome of a problem, and reports it behind a front.
fn write_outcome<F: Folder, S: Sink>(
    alloc: Global,
    front: &[u8],
    problem: &Problem,
    outcome: &Outcome,
    output: &str,
    cert: &str,
    folder: &mut F,
    out: &mut S,
) -> Status
    requires of_problem { IsPlacementOf problem.now outcome.now.answer }
    requires trials { AreTrialsOf problem.now outcome.now.run.trials }
    ensures { (trials : ℕ) → FlowGives problem.now trials (Ok outcome.now) → EndsWhereDue (PlaceDue front.now problem.now output.now cert.now trials) (code_of result)
        (outside (F.held folder.old) (S.written out.old) (F.faults folder.old) (S.faults out.old))
        (outside (F.held folder.new) (S.written out.new) (F.faults folder.new) (S.faults out.new)) }
{
    match place_report(alloc, front, problem, outcome.seed_score, &outcome.run) {
        Ok(report) => write_files(problem, outcome, &report, output, cert, folder, out),
        Err(_) => Status::NoMemory,
    }
}

/// Places the cells of a problem in at most so many trials beside the first one, writes the best placement and its certificate, and
/// reports the trials behind a front.
pub fn place_problem<F: Folder, S: Sink>(
    alloc: Global,
    front: &[u8],
    problem: &Problem,
    output: &str,
    cert: &str,
    trials: u32,
    folder: &mut F,
    out: &mut S,
) -> Status
    requires some { 1 ≤ trials }
    requires few { trials ≤ 8 }
    ensures { EndsWhereDue (PlaceDue front.now problem.now output.now cert.now trials) (code_of result)
        (outside (F.held folder.old) (S.written out.old) (F.faults folder.old) (S.faults out.old))
        (outside (F.held folder.new) (S.written out.new) (F.faults folder.new) (S.faults out.new)) }
{
    match place(alloc, problem, trials) {
        Ok(outcome) => write_outcome(alloc, front, problem, &outcome, output, cert, folder, out),
        Err(FlowFault::Memory) => Status::NoMemory,
        Err(
            FlowFault::Unfit {
                top_first,
                bottom_first,
            },
        ) => unfit(alloc, problem, top_first, bottom_first, out),
    }
}

/// Places the cells of an input file in at most so many trials beside the first one, writes the best placement and its certificate, and
/// reports the trials.
pub fn run_place<F: Folder, S: Sink>(
    alloc: Global,
    input: &str,
    output: &str,
    cert: &str,
    trials: u32,
    folder: &mut F,
    out: &mut S,
) -> Status
    requires some { 1 ≤ trials }
    requires few { trials ≤ 8 }
    ensures { EndsAs (Some (Place input.now output.now cert.now trials)) (code_of result)
        (outside (F.held folder.old) (S.written out.old) (F.faults folder.old) (S.faults out.old))
        (outside (F.held folder.new) (S.written out.new) (F.faults folder.new) (S.faults out.new)) }
{
    match read_input(alloc, folder, input) {
        Ok(problem) => place_problem(alloc, &[], &problem, output, cert, trials, folder, out),
        Err(Stop::Memory) => Status::NoMemory,
        Err(Stop::Device) => Status::Device,
        Err(Stop::Refused(cause)) => refuse(alloc, MOST_INPUT, input, cause, out),
    }
}
