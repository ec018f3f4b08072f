//! Why a drawn placement is not taken.

ghost use Rattle.std.specs.Prelude.{◌≡◌};

use crate::judge::Subject;
use fp_base::NoMemory;
use std::alloc::{AllocError, AllocFailed};

/// Memory was asked for and refused, or a rule is broken, with its first subject.
#[derive(Debug)]
pub enum Fault {
    Memory,
    Breaks { rule: u8, subject: Subject },
}

impl From<NoMemory> for Fault {
    ghost use Rattle.fp_place.specs.declared.fault.Fault.TheVariants.{Memory};

    ghost from_gives = { λ _ fault. fault ≡ Memory };

    fn from(_error: NoMemory) -> Fault {
        Fault::Memory
    }
}

impl From<AllocError> for Fault {
    ghost use Rattle.fp_place.specs.declared.fault.Fault.TheVariants.{Memory};

    ghost from_gives = { λ _ fault. fault ≡ Memory };

    fn from(_error: AllocError) -> Fault {
        Fault::Memory
    }
}

impl<T: Drop> From<AllocFailed<T>> for Fault {
    ghost use Rattle.fp_place.specs.declared.fault.Fault.TheVariants.{Memory};

    ghost from_gives = { λ _ fault. fault ≡ Memory };

    fn from(_error: AllocFailed<T>) -> Fault {
        Fault::Memory
    }
}
