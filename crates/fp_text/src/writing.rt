//! A writer of one file, piece by piece.

ghost use Rattle.std.specs.Prelude.{◌≡◌, ◌≤◌, ◌<◌, ◌+◌, [], ◌++◌, length, false, true, is_err, decimal, Some};
ghost use Rattle.std.specs.Fmt.{signed_decimal};
ghost use Rattle.fp_text.specs.Writing.{told, GoesOn, Starts, Adds, Finishes};

use fp_base::{Failed, Folder};
use itoa::Buffer;
use std::marker::Model;

/// The bytes that a writer keeps before it appends them.
const ROOM: usize = 4096;

/// A writer of a file that is given its folder and its name at each call, and keeps neither. It
/// holds up to 4,096 bytes back, and appends them at once. After a call of the folder that failed
/// it makes no further one. Contracts see the bytes that wait, and whether such a call has failed.
#[derive(Drop)]
pub struct Writer {
    buffer: [u8; ROOM],
    used: usize,
    stopped: bool,
}

impl Model for Writer {
    ghost use Rattle.std.specs.Prelude.{◌≤◌, take};
    ghost use Rattle.fp_text.specs.Writing.{Waiting};

    ghost Value = { Waiting };

    ghost view = { λ w. record { bytes = take w.used w.buffer; failed = w.stopped } };

    ghost invariant = { λ w. w.used ≤ 4096 };
}

impl Writer {
    /// Creates the name, and a writer of its bytes.
    pub fn new<F: Folder>(folder: &mut F, name: &str) -> Writer
        ensures starts { Starts name.now (told F.held F.made F.faults folder.old)
            (told F.held F.made F.faults folder.new) result }
        ensures goes_on { GoesOn name.now (told F.held F.made F.faults folder.new) result }
    {
        Writer {
            buffer: [0; ROOM],
            used: 0,
            stopped: folder.create(name).is_err(),
        }
    }

    /// Adds the piece.
    pub fn put<F: Folder>(&mut self, folder: &mut F, name: &str, piece: &[u8])
        requires { GoesOn name.now (told F.held F.made F.faults folder.old) self.old }
        ensures adds { Adds name.now piece.now (told F.held F.made F.faults folder.old)
            (told F.held F.made F.faults folder.new) self.old self.new }
        ensures goes_on { GoesOn name.now (told F.held F.made F.faults folder.new) self.new }
        ensures idle { self.old.failed ≡ true → folder.new ≡ folder.old }
    {
        if self.stopped {
            return;
        }
        self.make_room(folder, name, piece.len());
        self.add(folder, name, piece);
    }

    /// Appends what waits, if the piece does not fit behind it.
    fn make_room<F: Folder>(&mut self, folder: &mut F, name: &str, needed: usize)
        requires running { self.old.failed ≡ false }
        requires made { F.made folder.old ≡ Some name.now }
        ensures adds { Adds name.now [] (told F.held F.made F.faults folder.old)
            (told F.held F.made F.faults folder.new) self.old self.new }
        ensures room { 4096 < length self.new.bytes + needed → self.new.failed ≡ false
            → self.new.bytes ≡ [] }
    {
        if needed > ROOM - self.used {
            self.flush(folder, name);
        }
    }

    /// Appends what waits.
    fn flush<F: Folder>(&mut self, folder: &mut F, name: &str)
        requires running { self.old.failed ≡ false }
        requires made { F.made folder.old ≡ Some name.now }
        ensures adds { Adds name.now [] (told F.held F.made F.faults folder.old)
            (told F.held F.made F.faults folder.new) self.old self.new }
        ensures empty { self.new.failed ≡ false → self.new.bytes ≡ [] }
    {
        match folder.append(name, &self.buffer[..self.used]) {
            Ok(()) => self.used = 0,
            Err(Failed) => self.stopped = true,
        }
    }

    /// Adds a piece that fits, or behind which nothing waits.
    fn add<F: Folder>(&mut self, folder: &mut F, name: &str, piece: &[u8])
        requires made { self.old.failed ≡ false → F.made folder.old ≡ Some name.now }
        requires room { 4096 < length self.old.bytes + length piece.now → self.old.failed ≡ false
            → self.old.bytes ≡ [] }
        ensures adds { Adds name.now piece.now (told F.held F.made F.faults folder.old)
            (told F.held F.made F.faults folder.new) self.old self.new }
    {
        if self.stopped {
            return;
        }
        if piece.len() <= ROOM - self.used {
            self.keep(piece);
            return;
        }
        match folder.append(name, piece) {
            Ok(()) => {}
            Err(Failed) => self.stopped = true,
        }
    }

    /// Keeps a piece that fits.
    fn keep(&mut self, piece: &[u8])
        requires { length self.old.bytes + length piece.now ≤ 4096 }
        ensures { self.new
            ≡ record { bytes = self.old.bytes ++ piece.now; failed = self.old.failed } }
    {
        let end = self.used + piece.len();
        self.buffer[self.used..end].copy_from_slice(piece);
        self.used = end;
    }

    /// Adds the value in plain decimal.
    pub fn number<F: Folder>(&mut self, folder: &mut F, name: &str, value: u64)
        requires { GoesOn name.now (told F.held F.made F.faults folder.old) self.old }
        ensures adds { Adds name.now (decimal value) (told F.held F.made F.faults folder.old)
            (told F.held F.made F.faults folder.new) self.old self.new }
        ensures goes_on { GoesOn name.now (told F.held F.made F.faults folder.new) self.new }
        ensures idle { self.old.failed ≡ true → folder.new ≡ folder.old }
    {
        let mut digits = Buffer::new();
        self.put(folder, name, digits.format(value).as_bytes());
    }

    /// Adds the value in plain decimal, with one `-` in front where it is below 0.
    pub fn signed<F: Folder>(&mut self, folder: &mut F, name: &str, value: i64)
        requires { GoesOn name.now (told F.held F.made F.faults folder.old) self.old }
        ensures adds { Adds name.now (signed_decimal value) (told F.held F.made F.faults folder.old)
            (told F.held F.made F.faults folder.new) self.old self.new }
        ensures goes_on { GoesOn name.now (told F.held F.made F.faults folder.new) self.new }
        ensures idle { self.old.failed ≡ true → folder.new ≡ folder.old }
    {
        let mut digits = Buffer::new();
        self.put(folder, name, digits.format(value).as_bytes());
    }

    /// Appends what waits. On Ok the name holds all the pieces in order. `Failed` exactly where the
    /// writer has failed, before or in this call.
    pub fn finish<F: Folder>(self, folder: &mut F, name: &str) -> Result<(), Failed>
        requires { GoesOn name.now (told F.held F.made F.faults folder.old) self }
        ensures finishes { Finishes name.now (told F.held F.made F.faults folder.old)
            (told F.held F.made F.faults folder.new) self (is_err result) }
        ensures idle { self.failed ≡ true → folder.new ≡ folder.old }
    {
        if self.stopped {
            return Err(Failed);
        }
        folder.append(name, &self.buffer[..self.used])
    }
}
