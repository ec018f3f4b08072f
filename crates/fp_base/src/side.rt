//! The two dies as types, so that numbers of one die's segments cannot be taken for those of the other.

ghost use Rattle.std.specs.Prelude.{◌≡◌};

use crate::ids::Die;
use std::alloc::AllocError;
use std::marker::{Model, PhantomData};

/// A die as a type.
pub trait Side {
    ghost use Rattle.fp_base.specs.declared.ids.Die.{Die};

    ghost DIE: { Die };

    /// The die that the type stands for.
    const DIE: Die;
}

/// The top die.
pub struct Top;

/// The bottom die.
pub struct Bottom;

impl Side for Top {
    ghost use Rattle.fp_base.specs.declared.ids.Die.TheVariants as dies;

    ghost DIE = { dies.Top };

    const DIE: Die = Die::Top;
}

impl Side for Bottom {
    ghost use Rattle.fp_base.specs.declared.ids.Die.TheVariants as dies;

    ghost DIE = { dies.Bottom };

    const DIE: Die = Die::Bottom;
}

/// A segment of a die, numbered from 0 upwards. Contracts see it as this number. One of the top die does not compile
/// where one of the bottom die is due.
pub struct SegId<S: Side> {
    index: u32,
    side: PhantomData<S>,
}

impl<S: Side> Model for SegId<S> {
    ghost use Rattle.std.specs.Prelude.{ℕ};
    ghost use Rattle.std.specs.Coded.{coded_ℕ};

    ghost Value = { ℕ };

    ghost coded = { coded_ℕ };

    ghost view = { λ s. s.index };

    ghost inverse = { λ n. record { index = n; side = record {} } };
}

impl<S: Side> Clone for SegId<S> {
    ghost is_clone = { λ old new. new ≡ old };

    fn clone(&self) -> Result<Self, AllocError> {
        Ok(SegId::new(self.index))
    }
}

impl<S: Side> Copy for SegId<S> {}

impl<S: Side> SegId<S> {
    /// The segment of this number.
    pub fn new(index: u32) -> SegId<S>
        ensures { result ≡ index }
    {
        SegId {
            index,
            side: PhantomData,
        }
    }

    /// Its number.
    pub fn index(self) -> u32
        ensures { result ≡ self }
    {
        self.index
    }
}
