//! A sink in memory, for tests: it tells what was written, and fails where it is asked to.

ghost use Rattle.std.specs.Prelude.{◌≡◌, ◌≤◌, [], IfOk, OnOk, OnErr, is_ok};
ghost use Rattle.fp_base.specs.Faults.{Rose};
ghost use Rattle.fp_base.specs.Files.{followed_by, FrontFollows};
ghost use Rattle.fp_base.specs.Memory.{bytes_told, can_put, put_whole, put_part};

use crate::buffer::Buffer;
use crate::call_count::CallCount;
use crate::folder::{Failed, NoMemory};
use crate::sink::Sink;
use std::alloc::Global;
use std::marker::Model;

/// A sink in memory. It takes its room when it is made. Its puts are numbered from 0 and take no
/// memory, and one fails exactly where its number is one of those that are to fail, with nothing
/// put, or where the piece does not fit, with the part put that fits.
#[derive(Drop)]
pub struct MemSink {
    output: Buffer,
    calls: CallCount,
}

impl Model for MemSink {
    ghost use Rattle.fp_base.specs.Memory.{SinkState, sink_code};

    ghost Value = { SinkState };

    ghost coded = { sink_code };

    ghost view = { λ s. record { output = s.output; calls = s.calls } };
}

impl MemSink {
    /// A sink with nothing written and no faults, with room for `room` bytes. The puts with the
    /// numbers in `fails` are to fail. It answers `NoMemory` where the room is not there.
    pub fn new(alloc: Global, fails: &[u64], room: usize) -> Result<MemSink, NoMemory>
        ensures { IfOk result (λ s. s ≡ record {
          output = record { bytes = []; room = room };
          calls = record { so_far = 0; faults = 0; fails = fails.now };
        }) }
    {
        let output = Buffer::new(alloc, room)?;
        let calls = CallCount::new(alloc, fails)?;
        Ok(MemSink { output, calls })
    }

    /// The bytes so far.
    pub fn written(&self) -> &[u8]
        ensures { result.now ≡ self.now.output.bytes }
    {
        self.output.as_slice()
    }

    /// How many puts there were, as far as 2^64 - 1. A put's number is what this gives before it.
    pub fn calls(&self) -> u64
        ensures { result ≡ self.now.calls.so_far }
    {
        self.calls.so_far()
    }
}

impl Sink for MemSink {
    ghost written = { bytes_told };

    ghost faults = { λ s. s.calls.faults };

    fn put(&mut self, piece: &[u8]) -> Result<(), Failed>
        ensures put { OnOk result
            (bytes_told self.new ≡ followed_by piece.now (bytes_told self.old)) }
        ensures front { OnErr result
            (FrontFollows piece.now (bytes_told self.old) (bytes_told self.new)) }
        ensures later { self.old.calls.faults ≤ self.new.calls.faults }
        ensures cause { OnErr result (Rose self.old.calls.faults self.new.calls.faults) }
        ensures answer { is_ok result ≡ can_put self.old piece.now }
        ensures ok { OnOk result (self.new ≡ put_whole self.old piece.now) }
        ensures err { OnErr result (self.new ≡ put_part self.old piece.now) }
    {
        if self.calls.is_due() {
            self.calls.fail();
            return Err(Failed);
        }
        let spare = self.output.spare();
        if piece.len() > spare {
            self.output.append(&piece[..spare]);
            self.calls.fail();
            return Err(Failed);
        }
        self.output.append(piece);
        self.calls.count();
        Ok(())
    }
}
