//! The die that faces another.

ghost use Rattle.std.specs.Prelude.{◌≡◌};
ghost use Rattle.fp_place.specs.Places.{other_die};

use fp_base::Die;

/// The die that faces another: the bottom one for the top one, and the other way round.
pub fn other(die: Die) -> Die
    ensures { result ≡ other_die die }
{
    match die {
        Die::Top => Die::Bottom,
        Die::Bottom => Die::Top,
    }
}
