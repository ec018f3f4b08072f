//! The least duals of positions: each is no less than the cells behind it need, and no less than what is left of the one before it.

ghost use Rattle.std.specs.Prelude.{◌≡◌, ◌+◌, ◌^◌, ◌≤◌, ℤ, All, length};
ghost use Rattle.fp_rows.specs.Squares.{IsPlace};
ghost use Rattle.fp_rows.specs.LeastDuals.{above, needs, least_duals};
ghost use Rattle.fp_absrow.specs.ConvexCells.{rise_of};

use crate::cost::RowCost;

/// A number, or 0 in place of one below 0.
fn above(number: i128) -> u64
    requires { above number ≤ 2 ^ 57 }
    ensures { result ≡ above number }
{
    number.max(0) as u64
}

/// Sets each dual to the least that the cells behind it need.
pub fn set_needs<C: RowCost>(costs: &C, xs: &[i64], duals: &mut [u64])
    requires count { length xs.now ≡ length (C.cells_of costs.now) }
    requires places { All IsPlace xs.now }
    requires duals { length duals.old ≡ length (C.cells_of costs.now) + 1 }
    ensures { duals.new ≡ needs rise_of (C.cells_of costs.now) xs.now }
{
    let last = costs.cells();
    duals[last as usize] = 0;
    for cell in (0..last).rev() {
        let i = cell as usize;
        duals[i] = above(i128::from(duals[i + 1]) + costs.rise(cell, xs[i] - 1));
    }
}

/// Raises the duals that the cells need to the least that show the positions.
pub fn raise_to_least<C: RowCost>(costs: &C, xs: &[i64], duals: &mut [u64])
    requires count { length xs.now ≡ length (C.cells_of costs.now) }
    requires places { All IsPlace xs.now }
    requires duals { length duals.old ≡ length (C.cells_of costs.now) + 1 }
    requires needs { duals.old ≡ needs rise_of (C.cells_of costs.now) xs.now }
    ensures { duals.new ≡ least_duals rise_of 0 (C.cells_of costs.now) xs.now }
{
    let last = costs.cells();
    let mut spare = 0u64;
    for cell in 0..last {
        let i = cell as usize;
        duals[i] = spare.max(duals[i]);
        spare = above(i128::from(spare) - costs.rise(cell, xs[i]));
    }
    duals[last as usize] = spare.max(duals[last as usize]);
}
