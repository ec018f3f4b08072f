//! What an assignment costs.

ghost use Rattle.std.specs.Prelude.{◌≡◌, ◌<◌, ◌≤◌, ◌*◌, ℕ};
ghost use Rattle.fp_match.specs.Prices.{IsWithinLimits, IsFloor, IsNear, AreNearStripes};

use std::ops::Range;

/// Rows that are each to have a column of their own, and what each column costs each row. There are
/// at most 2^18 rows and 2^20 columns, and a cost is at most 2^36.
///
/// The columns lie in stripes of equal width, for which a row may have a floor under its costs, so
/// that columns far away need not be read one by one, and a range that holds the near ones. So has it
/// for the stripes.
pub trait Costs {
    ghost row_count: { Self → ℕ };

    ghost column_count: { Self → ℕ };

    /// The cost by row and column.
    ghost cost_of: { Self → ℕ → ℕ → ℕ };

    ghost stripe_width: { Self → ℕ };

    /// How many rows there are. The limits of the whole problem stand here.
    fn rows(&self) -> u32
        ensures value { result ≡ row_count self.now }
        ensures limits { IsWithinLimits (row_count self.now) (column_count self.now) (cost_of self.now) };

    /// How many columns there are.
    fn columns(&self) -> u32
        ensures { result ≡ column_count self.now };

    /// What the column costs the row.
    fn cost(&self, row: u32, column: u32) -> u64
        requires row_in { row < row_count self.now }
        requires column_in { column < column_count self.now }
        ensures { result ≡ cost_of self.now row column };

    /// How many columns a stripe has. Stripe j is the columns from `j * stripe` up to, without,
    /// `(j + 1) * stripe`, as far as there are columns.
    fn stripe(&self) -> u32
        ensures value { result ≡ stripe_width self.now }
        ensures positive { 1 ≤ result };

    /// A number that no column of the stripe costs the row less than.
    fn floor(&self, row: u32, stripe: u32) -> u64
        requires row_in { row < row_count self.now }
        requires stripe_in { stripe * stripe_width self.now < column_count self.now }
        ensures { IsFloor (cost_of self.now row) (column_count self.now) (stripe_width self.now) stripe result }
    {
        0
    }

    /// A range that holds all columns of the stripe that cost the row less than the limit. It may
    /// hold others, and go beyond the stripe.
    fn near(&self, row: u32, stripe: u32, limit: u64) -> Range<u32>
        requires row_in { row < row_count self.now }
        requires stripe_in { stripe * stripe_width self.now < column_count self.now }
        ensures { IsNear (cost_of self.now row) (column_count self.now) (stripe_width self.now) stripe limit result.start result.end }
    {
        0..self.columns()
    }

    /// A range that holds all stripes of which a column costs the row less than the limit. It may hold
    /// others, and go beyond the stripes.
    fn near_stripes(&self, row: u32, limit: u64) -> Range<u32>
        requires row_in { row < row_count self.now }
        requires some { 0 < column_count self.now }
        ensures { AreNearStripes (cost_of self.now row) (column_count self.now) (stripe_width self.now) limit result.start result.end }
    {
        let _width = self.stripe();
        0..self.columns()
    }

    /// A stripe to begin with for the row: best one of which a column costs it little.
    fn first_stripe(&self, row: u32) -> u32
        requires row_in { row < row_count self.now }
        requires some { 0 < column_count self.now }
        ensures { result * stripe_width self.now < column_count self.now }
    {
        0
    }
}
