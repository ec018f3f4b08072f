//! Spans of a row's cells, as a stack at the end of a slice.

ghost use Rattle.std.specs.Prelude.{◌≡◌, ◌+◌, ◌^◌, ◌<◌, ◌≤◌, ◌≤ℤ◌, ◌<ℤ◌, [], ◌∷◌, length, drop, pos};
ghost use Rattle.fp_absrow.specs.Spans.{CanPart, parts_of, span_at};

/// Scratch of [`place_convex`](crate::place_convex): a run of neighbouring cells, with a lowest and a highest level.
///
/// The level of a cell is its position less the widths of the cells before it.
#[derive(Clone, Copy)]
pub struct Span {
    pub(crate) cells: u32,
    pub(crate) low: i64,
    pub(crate) high: i64,
}

impl Span {
    /// Scratch that is no span yet.
    pub const EMPTY: Span = Span {
        cells: 0,
        low: 0,
        high: 0,
    };
}

/// The level in the middle of two, or the one below it.
pub fn middle(low: i64, high: i64) -> i64
    requires from { pos 0 ≤ℤ low }
    requires some { low <ℤ high }
    ensures at_least { low ≤ℤ result }
    ensures below { result <ℤ high }
{
    low + (high - low) / 2
}

/// Lays a span of all cells at the end of the stack, and gives where it lies.
pub fn lay_all(work: &mut [Span], low: i64, high: i64) -> usize
    requires some { 0 < length work.old }
    requires few { length work.old < 2 ^ 32 }
    ensures within { result < length work.old }
    ensures laid { drop result work.new ≡ record { cells = length work.old; low = low; high = high } ∷ [] }
{
    let last = work.len() - 1;
    work[last] = Span {
        cells: work.len() as u32,
        low,
        high,
    };
    last
}

/// Parts the span at `first`: its cells before `cut` go no higher than the level, the others go higher. Gives where the stack begins
/// now.
pub fn part(work: &mut [Span], first: usize, cut: u32, level: i64) -> usize
    requires { CanPart work.old first cut level }
    ensures within { result ≤ length work.new }
    ensures parted { drop result work.new ≡ parts_of (span_at work.old first) cut level (drop (first + 1) work.old) }
{
    let span = work[first];
    let before = Span {
        cells: cut,
        low: span.low,
        high: level,
    };
    let behind = Span {
        cells: span.cells - cut,
        low: level + 1,
        high: span.high,
    };
    if cut == span.cells {
        work[first] = before;
        return first;
    }
    work[first] = behind;
    if cut == 0 {
        return first;
    }
    work[first - 1] = before;
    first - 1
}
