//! A folder of files, by what it holds and how often its device has failed.

ghost use Rattle.std.specs.Prelude.{◌≡◌, ◌≤◌, ℕ, List, [], ◌++◌, length, Option, Some, None, Ok, Err, IfOk, OnOk, OnErr, IsErrOf};
ghost use Rattle.fp_base.specs.Faults.{Rose};
ghost use Rattle.fp_base.specs.Files.{Files, WhereTold, bytes_of, sets_file, OthersStay, ReadsAt};

use std::alloc::{AllocError, AllocFailed};

/// Memory was asked for and refused.
#[derive(Clone, Copy, Debug, PartialEq, Eq)]
pub struct NoMemory;

impl From<AllocError> for NoMemory {
    fn from(_error: AllocError) -> NoMemory {
        NoMemory
    }
}

impl<T: Drop> From<AllocFailed<T>> for NoMemory {
    fn from(_error: AllocFailed<T>) -> NoMemory {
        NoMemory
    }
}

/// A device failed; its count of faults rose, or stands at its greatest number.
#[derive(Clone, Copy, Debug, PartialEq, Eq)]
pub struct Failed;

/// Why nothing was read.
#[derive(Clone, Copy, Debug, PartialEq, Eq)]
pub enum ReadFault {
    /// The folder does not hold the name.
    Missing,
    /// The device failed.
    Failed,
}

/// A folder of files. What it holds is optional: a real folder tells nothing of it.
pub trait Folder {
    /// The held names with their bytes, where the folder tells them.
    ghost held: { Self → Option Files };

    /// The name that was last created, none before the first `create` and after a failed one.
    ghost made: { Self → Option (List ℕ) };

    /// How often the device has failed. It never falls, and stands still at 2^64 - 1.
    ghost faults: { Self → ℕ };

    /// Reads from an offset into the front of the buffer, and says how many bytes. It says 0 only at
    /// or past the end, or for an empty buffer. `Missing` leaves the count of faults as it was.
    fn read_at(&mut self, name: &str, at: u64, buf: &mut [u8]) -> Result<usize, ReadFault>
        ensures within { IfOk result (λ count. count ≤ length buf.new) }
        ensures bytes { WhereTold (held self.old) (λ files. ReadsAt (bytes_of files name.now) at result buf.new) }
        ensures held { held self.new ≡ held self.old }
        ensures made { made self.new ≡ made self.old }
        ensures later { faults self.old ≤ faults self.new }
        ensures missing { IsErrOf result ReadFault.Missing → faults self.new ≡ faults self.old }
        ensures cause { IsErrOf result ReadFault.Failed → Rose (faults self.old) (faults self.new) };

    /// Makes the name hold no bytes, whether it was held or not.
    fn create(&mut self, name: &str) -> Result<(), Failed>
        ensures created { OnOk result (held self.new ≡ sets_file name.now (λ _. []) (held self.old)) }
        ensures made { OnOk result (made self.new ≡ Some name.now) }
        ensures others { OthersStay name.now (held self.old) (held self.new) }
        ensures not_made { OnErr result (made self.new ≡ None) }
        ensures later { faults self.old ≤ faults self.new }
        ensures cause { OnErr result (Rose (faults self.old) (faults self.new)) };

    /// Puts the piece behind what the name holds. The name is the one that was last created.
    fn append(&mut self, name: &str, piece: &[u8]) -> Result<(), Failed>
        requires { made self.old ≡ Some name.now }
        ensures appended { OnOk result (held self.new ≡ sets_file name.now (λ bytes. bytes ++ piece.now) (held self.old)) }
        ensures made { made self.new ≡ made self.old }
        ensures others { OthersStay name.now (held self.old) (held self.new) }
        ensures later { faults self.old ≤ faults self.new }
        ensures cause { OnErr result (Rose (faults self.old) (faults self.new)) };
}
