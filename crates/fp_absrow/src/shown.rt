//! Whether duals show positions to be the best.

ghost use Rattle.std.specs.Prelude.{◌≡◌, ◌↔◌, ◌+◌, ◌<◌, All, length, IsTrue};
ghost use Rattle.fp_rows.specs.Rows.{FallsBy};
ghost use Rattle.fp_rows.specs.Squares.{IsPlace};
ghost use Rattle.fp_absrow.specs.ConvexCells.{HasRoom, ConvexFeasible, ConvexBest, ConvexDuals, rise_of, cell_at};

use crate::cost::RowCost;

/// Whether the positions lie between the ends, in order and without overlap.
fn is_feasible<C: RowCost>(costs: &C, lo: i64, hi: i64, xs: &[i64]) -> bool
    requires row { HasRoom (C.cells_of costs.now) lo hi }
    requires count { length xs.now ≡ length (C.cells_of costs.now) }
    requires places { All IsPlace xs.now }
    ensures { IsTrue result ↔ ConvexFeasible (C.cells_of costs.now) lo hi xs.now }
{
    let mut from = lo;
    for cell in 0..costs.cells() {
        let x = xs[cell as usize];
        if x < from {
            return false;
        }
        from = x + costs.width(cell);
    }
    from <= hi
}

/// Whether a dual is 0, or what is before it touches what is behind it.
fn is_touching(dual: u64, from: i64, to: i64) -> bool
    ensures { IsTrue result ↔ (0 < dual → from ≡ to) }
{
    dual == 0 || from == to
}

/// Whether the duals before and after a cell fall by what its cost at the position allows.
fn is_falling<C: RowCost>(costs: &C, cell: u32, x: i64, before: u64, after: u64) -> bool
    requires cell { cell < length (C.cells_of costs.now) }
    requires place { IsPlace x }
    ensures { IsTrue result ↔ FallsBy rise_of (cell_at (C.cells_of costs.now) cell) x before after }
{
    let fall = i128::from(before) - i128::from(after);
    costs.rise(cell, x - 1) <= fall && fall <= costs.rise(cell, x)
}

/// Whether the duals show the positions to be the best.
fn are_duals<C: RowCost>(costs: &C, lo: i64, hi: i64, xs: &[i64], duals: &[u64]) -> bool
    requires row { HasRoom (C.cells_of costs.now) lo hi }
    requires count { length xs.now ≡ length (C.cells_of costs.now) }
    requires places { All IsPlace xs.now }
    requires duals { length duals.now ≡ length (C.cells_of costs.now) + 1 }
    ensures { IsTrue result ↔ ConvexDuals (C.cells_of costs.now) lo hi xs.now duals.now }
{
    let last = costs.cells();
    if last == 0 {
        return duals[0] == 0;
    }
    let mut from = lo;
    for cell in 0..last {
        let i = cell as usize;
        let x = xs[i];
        if !is_touching(duals[i], from, x) {
            return false;
        }
        if !is_falling(costs, cell, x, duals[i], duals[i + 1]) {
            return false;
        }
        from = x + costs.width(cell);
    }
    is_touching(duals[last as usize], from, hi)
}

/// Whether the positions are feasible, and the duals show that no feasible positions cost less.
///
/// `lo` and `hi` are the row's ends, from 0 to 2^31, with room for the cells between them. There is a position for each cell, from 0
/// to 2^31, and there is one dual more than cells: one before the first cell, and one behind each. It takes no memory.
///
/// It is true exactly where both hold, and then the positions cost the least, for costs of any kind. Positions that cost the least
/// are not shown by duals of other positions, so where it is false they may still be the best.
pub fn convex_shown<C: RowCost>(costs: &C, lo: i64, hi: i64, xs: &[i64], duals: &[u64]) -> bool
    requires row { HasRoom (C.cells_of costs.now) lo hi }
    requires count { length xs.now ≡ length (C.cells_of costs.now) }
    requires places { All IsPlace xs.now }
    requires duals { length duals.now ≡ length (C.cells_of costs.now) + 1 }
    ensures shown { IsTrue result ↔ (ConvexFeasible (C.cells_of costs.now) lo hi xs.now
        × ConvexDuals (C.cells_of costs.now) lo hi xs.now duals.now) }
    ensures best { IsTrue result → ConvexBest (C.cells_of costs.now) lo hi xs.now }
{
    let _convex = costs.cells();
    is_feasible(costs, lo, hi, xs) && are_duals(costs, lo, hi, xs, duals)
}
