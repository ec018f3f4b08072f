//! The command that checks an output file by a certificate.

ghost use Rattle.std.specs.Prelude.{◌≡◌, ◌≤◌, Some};
ghost use Rattle.fp_tech.specs.Slots.{Slots, slot_count, IsGrid};
ghost use Rattle.fp_cert.specs.OfProblem.{IsRunOf};
ghost use Rattle.fp_check.specs.Answers.{AreNetsOf};
ghost use Rattle.faceplace.specs.Request.{Check};
ghost use Rattle.faceplace.specs.Checking.{finding_status, TellsFinding};
ghost use Rattle.faceplace.specs.Report.{finding_report};
ghost use Rattle.faceplace.specs.Status.{code_of, Refuses};
ghost use Rattle.faceplace.specs.Run.{outside, EndsAs, EndsForProblem, EndsForDrawing};

use crate::input::{MOST_CERT, MOST_INPUT, Stop, read_certificate, read_input, read_output};
use crate::refusal::refuse;
use crate::report::finding_report;
use crate::status::{Status, tell};
use fp_base::{Folder, Sink};
use fp_cert::{Finding, Run};
use fp_check::check;
use fp_netlist::Problem;
use fp_place::Drawn;
use fp_tech::Grid;
use std::alloc::Global;

/// The status of a finding.
fn status_of(finding: Finding) -> Status
    ensures { code_of result ≡ finding_status finding }
{
    match finding {
        Finding::Yes => Status::Done,
        Finding::No(_) => Status::Broken,
    }
}

/// Reports a finding.
fn tell_finding<S: Sink>(alloc: Global, finding: Finding, out: &mut S) -> Status
    ensures { Refuses (finding_report finding) (finding_status finding) (code_of result) (S.written out.old) (S.written out.new) (S.faults out.old) (S.faults out.new) }
{
    match finding_report(alloc, finding) {
        Ok(report) => tell(out, report.as_bytes(), status_of(finding)),
        Err(_) => Status::NoMemory,
    }
}

/// Checks a drawing by a run, and reports what is found.
fn check_run<S: Sink>(
    alloc: Global,
    problem: &Problem,
    drawn: &Drawn,
    run: &Run,
    out: &mut S,
) -> Status
    requires run { (grid : Slots) → IsGrid problem.now.plan.frame problem.now.plan.terminal grid → IsRunOf problem.now (slot_count grid) run.now }
    requires nets { AreNetsOf problem.now drawn.now }
    ensures { TellsFinding problem.now drawn.now run.now (code_of result) (S.written out.old) (S.written out.new) (S.faults out.old) (S.faults out.new) }
{
    match check(alloc, problem, drawn, run) {
        Ok(finding) => tell_finding(alloc, finding, out),
        Err(_) => Status::NoMemory,
    }
}

/// Checks a drawing by a certificate, and reports what is found.
fn check_drawn<F: Folder, S: Sink>(
    alloc: Global,
    problem: &Problem,
    drawn: &Drawn,
    output: &str,
    cert: &str,
    folder: &mut F,
    out: &mut S,
) -> Status
    requires { AreNetsOf problem.now drawn.now }
    ensures { EndsForDrawing problem.now drawn.now output.now (λ input. Check input output.now cert.now) (code_of result)
        (outside (F.held folder.old) (S.written out.old) (F.faults folder.old) (S.faults out.old))
        (outside (F.held folder.new) (S.written out.new) (F.faults folder.new) (S.faults out.new)) }
{
    let _grid = Grid::of(problem.dies());
    match read_certificate(alloc, folder, problem, cert) {
        Ok(run) => check_run(alloc, problem, drawn, &run, out),
        Err(Stop::Memory) => Status::NoMemory,
        Err(Stop::Device) => Status::Device,
        Err(Stop::Refused(cause)) => refuse(alloc, MOST_CERT, cert, cause, out),
    }
}

/// Checks an output file by a certificate for a problem, and reports what is found.
fn check_problem<F: Folder, S: Sink>(
    alloc: Global,
    problem: &Problem,
    output: &str,
    cert: &str,
    folder: &mut F,
    out: &mut S,
) -> Status
    ensures { EndsForProblem problem.now (λ input. Check input output.now cert.now) (code_of result)
        (outside (F.held folder.old) (S.written out.old) (F.faults folder.old) (S.faults out.old))
        (outside (F.held folder.new) (S.written out.new) (F.faults folder.new) (S.faults out.new)) }
{
    match read_output(alloc, folder, problem, output) {
        Ok(drawn) => check_drawn(alloc, problem, &drawn, output, cert, folder, out),
        Err(Stop::Memory) => Status::NoMemory,
        Err(Stop::Device) => Status::Device,
        Err(Stop::Refused(cause)) => refuse(alloc, MOST_INPUT, output, cause, out),
    }
}

/// Checks an output file for an input file by a certificate, and reports what is found.
pub fn run_check<F: Folder, S: Sink>(
    alloc: Global,
    input: &str,
    output: &str,
    cert: &str,
    folder: &mut F,
    out: &mut S,
) -> Status
    ensures { EndsAs (Some (Check input.now output.now cert.now)) (code_of result)
        (outside (F.held folder.old) (S.written out.old) (F.faults folder.old) (S.faults out.old))
        (outside (F.held folder.new) (S.written out.new) (F.faults folder.new) (S.faults out.new)) }
{
    match read_input(alloc, folder, input) {
        Ok(problem) => check_problem(alloc, &problem, output, cert, folder, out),
        Err(Stop::Memory) => Status::NoMemory,
        Err(Stop::Device) => Status::Device,
        Err(Stop::Refused(cause)) => refuse(alloc, MOST_INPUT, input, cause, out),
    }
}
