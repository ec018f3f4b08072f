//! Bytes in room that is taken once, so that filling it later takes no memory.

ghost use Rattle.std.specs.Prelude.{◌≡◌, ◌+◌, ◌≤◌, ◌++◌, [], length, IfOk};

use crate::folder::NoMemory;
use std::alloc::Global;
use std::marker::Model;

/// At most `room` bytes.
#[derive(Drop)]
pub struct Buffer {
    bytes: Vec<u8>,
    room: usize,
}

impl Model for Buffer {
    ghost use Rattle.std.specs.Prelude.{◌≤◌, vec_len, vec_capacity};
    ghost use Rattle.fp_base.specs.Memory.{Filled};

    ghost Value = { Filled };

    ghost view = { λ b. record { bytes = b.bytes.items; room = b.room } };

    ghost invariant = { λ b. (vec_len b.bytes ≤ b.room) × (b.room ≤ vec_capacity b.bytes) };
}

impl Buffer {
    pub fn new(alloc: Global, room: usize) -> Result<Buffer, NoMemory>
        ensures { IfOk result (λ b. b ≡ record { bytes = []; room = room }) }
    {
        let bytes = Vec::with_capacity(alloc, room)?;
        Ok(Buffer { bytes, room })
    }

    pub fn as_slice(&self) -> &[u8]
        ensures value { result.now ≡ self.now.bytes }
        ensures within { length self.now.bytes ≤ self.now.room }
    {
        self.bytes.as_slice()
    }

    /// How many bytes more fit.
    pub fn spare(&self) -> usize
        ensures { result + length self.now.bytes ≡ self.now.room }
    {
        self.room - self.bytes.len()
    }

    pub fn append(&mut self, piece: &[u8])
        requires { length self.old.bytes + length piece.now ≤ self.old.room }
        ensures { self.new ≡ record self.old { bytes = self.old.bytes ++ piece.now } }
    {
        let _ = self.bytes.extend_from_slice(piece);
    }

    pub fn set(&mut self, bytes: &[u8])
        requires { length bytes.now ≤ self.old.room }
        ensures { self.new ≡ record self.old { bytes = bytes.now } }
    {
        self.bytes.clear();
        let _ = self.bytes.extend_from_slice(bytes);
    }
}
