//! A sink of printed bytes, by what was written and how often its device has failed.

ghost use Rattle.std.specs.Prelude.{◌≡◌, ◌≤◌, ℕ, List, Option, OnOk, OnErr};
ghost use Rattle.fp_base.specs.Faults.{Rose};
ghost use Rattle.fp_base.specs.Files.{followed_by, FrontFollows};

use crate::folder::Failed;

/// Where a program prints. What was written is optional: real output tells nothing of it.
pub trait Sink {
    /// The bytes so far, where the sink tells them.
    ghost written: { Self → Option (List ℕ) };

    /// How often the device has failed. It never falls, and stands still at 2^64 - 1.
    ghost faults: { Self → ℕ };

    /// Puts the piece behind what was written. A failed put leaves a front of the piece there.
    fn put(&mut self, piece: &[u8]) -> Result<(), Failed>
        ensures put { OnOk result (written self.new ≡ followed_by piece.now (written self.old)) }
        ensures front { OnErr result (FrontFollows piece.now (written self.old) (written self.new)) }
        ensures later { faults self.old ≤ faults self.new }
        ensures cause { OnErr result (Rose (faults self.old) (faults self.new)) };
}
