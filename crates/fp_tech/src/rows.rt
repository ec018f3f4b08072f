//! The rows of a die.

ghost use Rattle.std.specs.Prelude.{◌≡◌, ◌+◌, ◌≤◌, ◌^◌};
ghost use Rattle.fp_tech.specs.Plan.{rows_lie};

use crate::dies::{DieSpec, Frame};

/// Whether a die's rows lie in the frame.
pub fn rows_lie(frame: Frame, spec: DieSpec) -> bool
    requires start { spec.start_x + spec.length ≤ 2 ^ 31 }
    requires repeat { spec.repeat ≤ 2 ^ 16 }
    ensures { result ≡ rows_lie frame spec }
{
    let right = spec.start_x + spec.length;
    let upper = u64::from(spec.start_y) + u64::from(spec.height) * u64::from(spec.repeat);
    frame.llx <= spec.start_x
        && right <= frame.urx
        && frame.lly <= spec.start_y
        && upper <= u64::from(frame.ury)
}
