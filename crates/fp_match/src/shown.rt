//! Whether prices show that a choice costs least.

ghost use Rattle.std.specs.Prelude.{◌≡◌, ◌↔◌, ◌^◌, ◌<◌, ◌≤◌, ◌+◌, ◌*◌, ℕ, All, IsTrue, length, slice_index};
ghost use Rattle.fp_match.specs.Prices.{ArePrices, IsBest, IsLeast};
ghost use Rattle.fp_match.specs.Owners.{unused};

use crate::choice::{Choice, UNUSED};
use crate::costs::Costs;
use crate::stripes::{near_columns, stripe_count};

/// Whether unused columns have price 0 and, for every row, the cost and price of its column are at
/// most those of every column. Then no choice of distinct columns costs less.
pub fn prices_shown<C: Costs>(costs: &C, choice: &Choice, prices: &[u64]) -> bool
    requires rows { length choice.now.chosen ≡ C.row_count costs.now }
    requires columns { choice.now.columns ≡ C.column_count costs.now }
    requires prices { length prices.now ≡ C.column_count costs.now }
    requires capped { All (λ p. p ≤ 2 ^ 60) prices.now }
    ensures shown { IsTrue result ↔ (ArePrices (C.cost_of costs.now) (C.column_count costs.now) choice.now.chosen prices.now) }
    ensures least { IsTrue result → IsLeast (C.cost_of costs.now) (C.row_count costs.now) (C.column_count costs.now) choice.now.chosen }
{
    unused_are_free(&choice.owner, prices) && rows_are_best(costs, &choice.chosen, prices)
}

/// Whether each column that no row has is of price 0.
fn unused_are_free(owner: &[u32], prices: &[u64]) -> bool
    requires { length prices.now ≡ length owner.now }
    ensures { IsTrue result ↔ ((s : ℕ) → s < length owner.now → slice_index owner.now s ≡ unused → slice_index prices.now s ≡ 0) }
{
    for (column, holder) in owner.iter().enumerate() {
        if *holder == UNUSED && prices[column] != 0 {
            return false;
        }
    }
    true
}

/// Whether each row's column is its best.
fn rows_are_best<C: Costs>(costs: &C, chosen: &[u32], prices: &[u64]) -> bool
    requires rows { length chosen.now ≡ C.row_count costs.now }
    requires within { All (λ s. s < C.column_count costs.now) chosen.now }
    requires prices { length prices.now ≡ C.column_count costs.now }
    requires capped { All (λ p. p ≤ 2 ^ 60) prices.now }
    ensures { IsTrue result ↔ ((n : ℕ) → n < length chosen.now → IsBest (C.cost_of costs.now) (C.column_count costs.now) prices.now n (slice_index chosen.now n)) }
{
    for row in 0..costs.rows() {
        if !is_best(costs, row, chosen[row as usize], prices) {
            return false;
        }
    }
    true
}

/// Whether the column is the row's best. A stripe whose floor is no less than what the row pays is
/// left out.
fn is_best<C: Costs>(costs: &C, row: u32, column: u32, prices: &[u64]) -> bool
    requires row_in { row < C.row_count costs.now }
    requires column_in { column < C.column_count costs.now }
    requires prices { length prices.now ≡ C.column_count costs.now }
    requires capped { All (λ p. p ≤ 2 ^ 60) prices.now }
    ensures { IsTrue result ↔ (IsBest (C.cost_of costs.now) (C.column_count costs.now) prices.now row column) }
{
    let _limits = costs.rows();
    let paid = costs.cost(row, column) + prices[column as usize];
    let _width = costs.stripe();
    for stripe in 0..stripe_count(costs) {
        if paid > costs.floor(row, stripe) {
            let near = near_columns(costs, row, stripe, paid);
            if !costs_at_least(costs, row, near.start, near.end, prices, paid) {
                return false;
            }
        }
    }
    true
}

/// Whether the row pays at least so much for each of the columns from `from` up to `to`.
fn costs_at_least<C: Costs>(
    costs: &C,
    row: u32,
    from: u32,
    to: u32,
    prices: &[u64],
    paid: u64,
) -> bool
    requires row_in { row < C.row_count costs.now }
    requires to_in { to ≤ C.column_count costs.now }
    requires prices { length prices.now ≡ C.column_count costs.now }
    requires capped { All (λ p. p ≤ 2 ^ 60) prices.now }
    ensures { IsTrue result ↔ ((t : ℕ) → from ≤ t → t < to → paid ≤ C.cost_of costs.now row t + slice_index prices.now t) }
{
    let _limits = costs.rows();
    for column in from..to {
        if paid > costs.cost(row, column) + prices[column as usize] {
            return false;
        }
    }
    true
}
