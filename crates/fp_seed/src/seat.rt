//! The seat of a cell: where the first fit puts it.

use fp_base::Die;
use std::alloc::AllocError;
use std::marker::Model;

/// Where a cell sits: a die, the number of a segment of it, and the cell's x.
pub struct Seat {
    pub die: Die,
    pub segment: u32,
    pub x: i64,
}

impl Model for Seat {
    ghost use Rattle.fp_score.specs.FirstFit as fit;

    ghost Value = { fit.Seat };

    ghost view = { λ s. record { die = s.die; segment = s.segment; x = s.x } };

    ghost inverse = { λ s. record { die = s.die; segment = s.segment; x = s.x } };
}

impl Clone for Seat {
    fn clone(&self) -> Result<Self, AllocError> {
        Ok(*self)
    }
}

impl Copy for Seat {}
