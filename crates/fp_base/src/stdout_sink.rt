//! Standard output as a sink.

ghost use Rattle.std.specs.Prelude.{◌≡◌, None};

use crate::call_count::risen;
use crate::device::write_whole;
use crate::folder::Failed;
use crate::sink::Sink;
use std::io;
use std::marker::Model;

/// Standard output. It tells nothing of what was written, and takes no memory.
#[derive(Drop)]
pub struct StdoutSink<'r, R: Print> {
    rt: &'r R,
    faults: u64,
}

impl<'r, R: Print> Model for StdoutSink<'r, R> {
    ghost use Rattle.std.specs.Prelude.{ℕ};

    ghost Value = { ℕ };

    ghost view = { λ s. s.faults };
}

impl<'r, R: Print> StdoutSink<'r, R> {
    /// Output with no faults so far.
    pub fn new(rt: &'r R) -> StdoutSink<'r, R>
        ensures { result ≡ 0 }
    {
        StdoutSink { rt, faults: 0 }
    }
}

impl<'r, R: Print> Sink for StdoutSink<'r, R> {
    ghost written = { λ s. None };

    ghost faults = { λ s. s };

    fn put(&mut self, piece: &[u8]) -> Result<(), Failed> {
        if write_whole(&mut io::writer(self.rt), piece) {
            return Ok(());
        }
        self.faults = risen(self.faults);
        Err(Failed)
    }
}
