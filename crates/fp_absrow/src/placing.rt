//! Levels by halving: a span's cells are scanned at the level in its middle, and those that stand best there or lower part from those
//! that stand best higher, until each span has one level. The way is our own; for squares it gives the rows of Abacus (Spindler,
//! Schlichtmann, Johannes, ISPD 2008).

ghost use Rattle.std.specs.Prelude.{◌≡◌, ◌+◌, ◌^◌, ◌<◌, ◌≤◌, ◌++◌, ◌+ℤ◌, ◌-ℤ◌, ◌≤ℤ◌, [], ◌∷◌, length, take, drop, pos};
ghost use Rattle.fp_rows.specs.Runs.{span, packed};
ghost use Rattle.fp_absrow.specs.ConvexCells.{HasRoom, AreConvexCells, width_of};
ghost use Rattle.fp_absrow.specs.Spans.{some_cells, IsCut};
ghost use Rattle.fp_absrow.specs.Tight.{AreTight};

use crate::cost::RowCost;
use crate::span::{Span, lay_all, middle, part};

/// The widths of all cells.
fn width_of_all<C: RowCost>(costs: &C) -> i64
    requires { span width_of (C.cells_of costs.now) ≤ℤ pos (2 ^ 31) }
    ensures { result ≡ span width_of (C.cells_of costs.now) }
{
    let mut width = 0;
    for cell in 0..costs.cells() {
        width += costs.width(cell);
    }
    width
}

/// How many of the cells from `first` on, which touch from a position on, stand best there or further left; the others stand best
/// further right.
fn cut_at<C: RowCost>(costs: &C, first: u32, count: u32, position: i64) -> u32
    requires within { first + count ≤ length (C.cells_of costs.now) }
    requires from { pos 0 ≤ℤ position }
    requires to { (position +ℤ span width_of (some_cells first count (C.cells_of costs.now))) ≤ℤ pos (2 ^ 31) }
    ensures { IsCut (some_cells first count (C.cells_of costs.now)) position result }
{
    let mut excess = 0i128;
    let mut cut = 0;
    let mut at = position;
    let _convex = costs.cells();
    for i in 0..count {
        excess += costs.rise(first + i, at);
        if excess >= 0 {
            excess = 0;
            cut = i + 1;
        }
        at += costs.width(first + i);
    }
    cut
}

/// Sets the cells from `first` on, touching from a position on, and gives where they end.
fn pack<C: RowCost>(costs: &C, first: u32, count: u32, position: i64, xs: &mut [i64]) -> i64
    requires within { first + count ≤ length (C.cells_of costs.now) }
    requires xs { length xs.old ≡ length (C.cells_of costs.now) }
    requires from { pos 0 ≤ℤ position }
    requires to { (position +ℤ span width_of (some_cells first count (C.cells_of costs.now))) ≤ℤ pos (2 ^ 31) }
    ensures end { result ≡ position +ℤ span width_of (some_cells first count (C.cells_of costs.now)) }
    ensures placed { take (first + count) xs.new
        ≡ take first xs.old ++ packed width_of position (some_cells first count (C.cells_of costs.now)) }
{
    let mut end = position;
    let _convex = costs.cells();
    for i in 0..count {
        xs[(first + i) as usize] = end;
        end += costs.width(first + i);
    }
    end
}

/// Sets the positions of all cells, whose one span lies at `first` in the stack, with levels from `lo` to `top`.
fn place_spans<C: RowCost>(
    costs: &C,
    work: &mut [Span],
    first: usize,
    lo: i64,
    top: i64,
    xs: &mut [i64],
)
    requires row { HasRoom (C.cells_of costs.now) lo (top +ℤ span width_of (C.cells_of costs.now)) }
    requires work { length work.old ≡ length (C.cells_of costs.now) }
    requires xs { length xs.old ≡ length (C.cells_of costs.now) }
    requires first { first < length work.old }
    requires laid { drop first work.old ≡ record { cells = length work.old; low = lo; high = top } ∷ [] }
    ensures { AreTight (C.cells_of costs.now) lo (top +ℤ span width_of (C.cells_of costs.now)) xs.new }
{
    let _convex = costs.cells();
    let mut first = first;
    let mut placed = 0;
    let mut before = 0;
    while first < work.len() {
        let span = work[first];
        if span.low < span.high {
            let level = middle(span.low, span.high);
            let cut = cut_at(costs, placed, span.cells, level + before);
            first = part(work, first, cut, level);
        } else {
            before = pack(costs, placed, span.cells, span.low + before, xs) - span.low;
            placed += span.cells;
            first += 1;
        }
    }
}

/// Sets the positions of all cells.
pub fn place_cells<C: RowCost>(costs: &C, lo: i64, hi: i64, work: &mut [Span], xs: &mut [i64])
    requires row { HasRoom (C.cells_of costs.now) lo hi }
    requires work { length work.old ≡ length (C.cells_of costs.now) }
    requires xs { length xs.old ≡ length (C.cells_of costs.now) }
    ensures convex { AreConvexCells (C.cells_of costs.now) }
    ensures tight { AreTight (C.cells_of costs.now) lo hi xs.new }
{
    if costs.cells() == 0 {
        return;
    }
    let top = hi - width_of_all(costs);
    let first = lay_all(work, lo, top);
    place_spans(costs, work, first, lo, top, xs);
}
