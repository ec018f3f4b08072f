//! Where a drawn cell stands.

use fp_base::Die;
use std::alloc::AllocError;
use std::marker::Model;

/// A die and a lower left corner.
#[derive(Debug)]
pub struct Place {
    pub die: Die,
    pub x: i64,
    pub y: i64,
}

impl Model for Place {
    ghost use Rattle.fp_place.specs.Places.{Place};

    ghost Value = { Place };

    ghost view = { λ p. record { die = p.die; x = p.x; y = p.y } };

    ghost inverse = { λ p. record { die = p.die; x = p.x; y = p.y } };
}

impl Clone for Place {
    fn clone(&self) -> Result<Self, AllocError> {
        Ok(*self)
    }
}

impl Copy for Place {}
