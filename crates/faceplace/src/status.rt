//! How the program ends, as its exit status.

ghost use Rattle.std.specs.Prelude.{◌≡◌, ◌≤◌};
ghost use Rattle.faceplace.specs.Status.{code_of, Tells};

use fp_base::{Failed, Sink};

/// How a run ends.
#[derive(Clone, Copy, Debug, PartialEq, Eq)]
pub enum Status {
    /// What was asked for is done.
    Done,
    /// Memory was asked for and refused.
    NoMemory,
    /// The words are no request.
    BadWords,
    /// The input file is refused.
    BadInput,
    /// No first fit of the input stands.
    Unfit,
    /// The output file breaks a rule.
    Broken,
    /// A device failed.
    Device,
}

impl Status {
    /// The exit status.
    pub fn code(self) -> u8
        ensures { result ≡ code_of self }
    {
        match self {
            Status::Done => 0,
            Status::NoMemory => 1,
            Status::BadWords => 2,
            Status::BadInput => 3,
            Status::Unfit => 4,
            Status::Broken => 5,
            Status::Device => 6,
        }
    }
}

/// Puts the report of a status, and answers the status, or that of a device where the sink fails.
pub fn tell<S: Sink>(out: &mut S, report: &[u8], status: Status) -> Status
    ensures tells { Tells report.now status result (S.written out.old) (S.written out.new) (S.faults out.old) (S.faults out.new) }
{
    match out.put(report) {
        Ok(()) => status,
        Err(Failed) => Status::Device,
    }
}
