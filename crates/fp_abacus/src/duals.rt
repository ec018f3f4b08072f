//! The least duals of positions: each is no less than the cells behind it need, and no less than what is left of the one before it.

ghost use Rattle.std.specs.Prelude.{◌≡◌, ◌+◌, ◌^◌, ◌≤ℤ◌, neg_ℤ, pos, length};
ghost use Rattle.fp_rows.specs.Squares.{AreCells, ArePlaces, IsCell, squared_rise};
ghost use Rattle.fp_rows.specs.LeastDuals.{needs, least_duals};

use fp_rows::RowCell;

/// What the cost of a cell rises by from a position to the next.
fn rise_at(cell: RowCell, x: i64) -> i64
    requires cell { IsCell cell }
    requires weight { cell.weight ≤ℤ pos (2 ^ 22) }
    requires from { neg_ℤ (pos 1) ≤ℤ x }
    requires to { x ≤ℤ pos (2 ^ 31) }
    ensures { result ≡ squared_rise cell x }
{
    cell.weight * (2 * (x - cell.target) + 1)
}

/// Sets each dual to the least that the cells behind it need.
pub fn set_needs(cells: &[RowCell], xs: &[i64], duals: &mut [u64])
    requires cells { AreCells cells.now }
    requires places { ArePlaces cells.now xs.now }
    requires duals { length duals.old ≡ length cells.now + 1 }
    ensures { duals.new ≡ needs squared_rise cells.now xs.now }
{
    duals[cells.len()] = 0;
    for i in (0..cells.len()).rev() {
        duals[i] = duals[i + 1].saturating_add_signed(rise_at(cells[i], xs[i] - 1));
    }
}

/// Raises the duals that the cells need to the least that show the positions.
pub fn raise_to_least(cells: &[RowCell], xs: &[i64], duals: &mut [u64])
    requires cells { AreCells cells.now }
    requires places { ArePlaces cells.now xs.now }
    requires duals { length duals.old ≡ length cells.now + 1 }
    requires needs { duals.old ≡ needs squared_rise cells.now xs.now }
    ensures { duals.new ≡ least_duals squared_rise 0 cells.now xs.now }
{
    let mut spare = 0u64;
    for i in 0..cells.len() {
        duals[i] = spare.max(duals[i]);
        spare = spare.saturating_add_signed(-rise_at(cells[i], xs[i]));
    }
    let last = cells.len();
    duals[last] = spare.max(duals[last]);
}
