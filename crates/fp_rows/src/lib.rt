//! The problem of one row: cells in a fixed order between two ends, what their positions cost, and duals that show positions to
//! be the cheapest.
//!
//! It is the row problem of Abacus (Spindler, Schlichtmann, Johannes, ISPD 2008), over whole positions. The dual values, and that
//! positions with duals cost the least, are our own.
#![tactic(auto)]

ghost use Rattle.std.specs.Prelude.{◌≡◌, ◌+◌, ◌^◌, ◌<◌, ◌↔◌, pos, neg_ℤ, ◌≤ℤ◌, length, IsTrue};
ghost use Rattle.fp_rows.specs.Rows.{FallsBy};
ghost use Rattle.fp_rows.specs.Squares.{squared_cost, squared_rise, total_cost, Feasible, IsBest, AreDuals, IsCell, AreCells, IsRow, IsPlace, ArePlaces};

/// One cell of a row, which stands to the right of those before it and costs its weight times the square of its distance from
/// its target.
#[derive(Clone, Copy)]
pub struct RowCell {
    /// How far it reaches to the right of its position, in units of length, from 1 to 2^30.
    pub width: i64,
    /// Where it would stand if it were alone, in units of length, within 2^32 of 0.
    pub target: i64,
    /// What a distance of 1 from the target costs, from 1; those of a row sum to at most 2^22.
    pub weight: i64,
}

/// What a cell costs at a position.
fn square_at(cell: RowCell, x: i64) -> i128
    requires cell { IsCell cell }
    requires weight { cell.weight ≤ℤ pos (2 ^ 22) }
    requires place { IsPlace x }
    ensures { result ≡ squared_cost cell x }
{
    let distance = i128::from(x - cell.target);
    i128::from(cell.weight) * (distance * distance)
}

/// What the cost of a cell rises by from a position to the next.
fn rise_at(cell: RowCell, x: i64) -> i64
    requires cell { IsCell cell }
    requires weight { cell.weight ≤ℤ pos (2 ^ 22) }
    requires from { neg_ℤ (pos 1) ≤ℤ x }
    requires to { x ≤ℤ pos (2 ^ 31) }
    ensures { result ≡ squared_rise cell x }
{
    cell.weight * (2 * (x - cell.target) + 1)
}

/// What the cells cost at their positions, in all: the sum of each weight times the squared distance from the target.
///
/// There is a position for each cell, from 0 to 2^31. The positions need not be feasible.
pub fn row_cost(cells: &[RowCell], xs: &[i64]) -> i128
    requires cells { AreCells cells.now }
    requires places { ArePlaces cells.now xs.now }
    ensures { result ≡ total_cost cells.now xs.now }
{
    let mut total = 0;
    for i in 0..cells.len() {
        total += square_at(cells[i], xs[i]);
    }
    total
}

/// Whether the positions lie between the ends, in order and without overlap.
///
/// `lo` and `hi` are the row's ends, from 0 to 2^31, with room for the cells between them. There is a position for each cell, from
/// 0 to 2^31. It is true exactly where each cell begins at or behind the end of the one before, the first at or behind `lo`, and
/// the last ends at or before `hi`.
pub fn is_feasible(cells: &[RowCell], lo: i64, hi: i64, xs: &[i64]) -> bool
    requires row { IsRow cells.now lo hi }
    requires places { ArePlaces cells.now xs.now }
    ensures { IsTrue result ↔ Feasible cells.now lo hi xs.now }
{
    let mut from = lo;
    for i in 0..cells.len() {
        if xs[i] < from {
            return false;
        }
        from = xs[i] + cells[i].width;
    }
    from <= hi
}

/// Whether a dual is 0, or what is before it touches what is behind it.
fn is_touching(dual: u64, from: i64, to: i64) -> bool
    ensures { IsTrue result ↔ (0 < dual → from ≡ to) }
{
    dual == 0 || from == to
}

/// Whether the duals before and after a cell fall by what its cost at the position allows.
fn is_falling(cell: RowCell, x: i64, before: u64, after: u64) -> bool
    requires cell { IsCell cell }
    requires weight { cell.weight ≤ℤ pos (2 ^ 22) }
    requires place { IsPlace x }
    ensures { IsTrue result ↔ FallsBy squared_rise cell x before after }
{
    let fall = i128::from(before) - i128::from(after);
    let least = i128::from(rise_at(cell, x - 1));
    let most = i128::from(rise_at(cell, x));
    least <= fall && fall <= most
}

/// Whether the duals show the positions to be the best.
fn are_duals(cells: &[RowCell], lo: i64, hi: i64, xs: &[i64], duals: &[u64]) -> bool
    requires row { IsRow cells.now lo hi }
    requires places { ArePlaces cells.now xs.now }
    requires duals { length duals.now ≡ length cells.now + 1 }
    ensures { IsTrue result ↔ AreDuals cells.now lo hi xs.now duals.now }
{
    if cells.is_empty() {
        return duals[0] == 0;
    }
    let mut from = lo;
    for i in 0..cells.len() {
        if !is_touching(duals[i], from, xs[i]) {
            return false;
        }
        if !is_falling(cells[i], xs[i], duals[i], duals[i + 1]) {
            return false;
        }
        from = xs[i] + cells[i].width;
    }
    is_touching(duals[cells.len()], from, hi)
}

/// Whether the positions are feasible, and the duals show that no feasible positions cost less.
///
/// `lo` and `hi` are the row's ends, from 0 to 2^31, with room for the cells between them. There is a position for each cell,
/// from 0 to 2^31, and there is one dual more than cells: one before the first cell, and one behind each. The duals are ours: they
/// are those of linear programming for the rules that a cell ends before the next begins, in whole numbers.
///
/// It is true exactly where both hold, and then the positions cost the least. Positions that cost the least are not shown by duals
/// of other positions, so where it is false they may still be the best.
pub fn row_shown(cells: &[RowCell], lo: i64, hi: i64, xs: &[i64], duals: &[u64]) -> bool
    requires row { IsRow cells.now lo hi }
    requires places { ArePlaces cells.now xs.now }
    requires duals { length duals.now ≡ length cells.now + 1 }
    ensures shown { IsTrue result
        ↔ (Feasible cells.now lo hi xs.now × AreDuals cells.now lo hi xs.now duals.now) }
    ensures best { IsTrue result → IsBest cells.now lo hi xs.now }
{
    is_feasible(cells, lo, hi, xs) && are_duals(cells, lo, hi, xs, duals)
}

#[cfg(test)]
mod tests;
