//! The refusal of a file, and of a problem without a seed.

ghost use Rattle.fp_score.specs.FirstFit.{IsStopOf};
ghost use Rattle.faceplace.specs.Report.{input_report, unfit_report};
ghost use Rattle.faceplace.specs.Causes.{cause_of};
ghost use Rattle.faceplace.specs.Status.{code_of, Refuses};

use crate::report::{Cause, input_report, unfit_report};
use crate::status::{Status, tell};
use fp_base::Sink;
use fp_netlist::Problem;
use fp_score::Stop;
use std::alloc::Global;

/// Reports why a file is refused, which may have so many bytes.
pub fn refuse<S: Sink>(alloc: Global, limit: u64, name: &str, cause: Cause, out: &mut S) -> Status
    ensures { Refuses (input_report limit name.now (cause_of cause)) 3 (code_of result) (S.written out.old) (S.written out.new) (S.faults out.old) (S.faults out.new) }
{
    match input_report(alloc, limit, name, cause) {
        Ok(report) => tell(out, report.as_bytes(), Status::BadInput),
        Err(_) => Status::NoMemory,
    }
}

/// Reports why neither first fit stands.
pub fn unfit<S: Sink>(
    alloc: Global,
    problem: &Problem,
    top_first: Stop,
    bottom_first: Stop,
    out: &mut S,
) -> Status
    requires top { IsStopOf problem.now top_first }
    requires bottom { IsStopOf problem.now bottom_first }
    ensures { Refuses (unfit_report problem.now top_first bottom_first) 4 (code_of result) (S.written out.old) (S.written out.new) (S.faults out.old) (S.faults out.new) }
{
    match unfit_report(alloc, problem, top_first, bottom_first) {
        Ok(report) => tell(out, &report, Status::Unfit),
        Err(_) => Status::NoMemory,
    }
}
