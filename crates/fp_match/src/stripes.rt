//! The stripes of columns.

ghost use Rattle.std.specs.Prelude.{◌≡◌, ◌<◌, ◌≤◌, ◌+◌, ◌*◌, ℕ, min};
ghost use Rattle.fp_match.specs.Prices.{IsNear, AreNearStripes};

use crate::costs::Costs;
use std::ops::Range;

/// How many stripes there are.
pub(crate) fn stripe_count<C: Costs>(costs: &C) -> u32
    ensures inside { (j : ℕ) → j < result → j * C.stripe_width costs.now < C.column_count costs.now }
    ensures all { C.column_count costs.now ≤ result * C.stripe_width costs.now }
{
    costs.columns().div_ceil(costs.stripe())
}

/// The end of the stripe that begins at this column.
pub(crate) fn stripe_end<C: Costs>(costs: &C, from: u32) -> u32
    ensures { result ≡ min (from + C.stripe_width costs.now) (C.column_count costs.now) }
{
    let _limits = costs.rows();
    from.saturating_add(costs.stripe()).min(costs.columns())
}

/// The columns of the stripe that may cost the row less than the limit. All others of the stripe cost
/// at least as much.
pub(crate) fn near_columns<C: Costs>(costs: &C, row: u32, stripe: u32, limit: u64) -> Range<u32>
    requires row_in { row < C.row_count costs.now }
    requires stripe_in { stripe * C.stripe_width costs.now < C.column_count costs.now }
    ensures order { result.start ≤ result.end }
    ensures inside { result.end ≤ C.column_count costs.now }
    ensures near { IsNear (C.cost_of costs.now row) (C.column_count costs.now) (C.stripe_width costs.now) stripe limit result.start result.end }
{
    let _limits = costs.rows();
    let from = stripe * costs.stripe();
    let to = stripe_end(costs, from);
    let near = costs.near(row, stripe, limit);
    let start = near.start.max(from).min(to);
    let end = near.end.max(start).min(to);
    start..end
}

/// The stripes of which a column may cost the row less than the limit. All columns of other stripes cost at least as much.
pub(crate) fn near_stripes<C: Costs>(costs: &C, row: u32, limit: u64) -> Range<u32>
    requires row_in { row < C.row_count costs.now }
    requires some { 0 < C.column_count costs.now }
    ensures order { result.start ≤ result.end }
    ensures inside { (j : ℕ) → j < result.end → j * C.stripe_width costs.now < C.column_count costs.now }
    ensures near { AreNearStripes (C.cost_of costs.now row) (C.column_count costs.now) (C.stripe_width costs.now) limit result.start result.end }
{
    let count = stripe_count(costs);
    let near = costs.near_stripes(row, limit);
    let start = near.start.min(count);
    let end = near.end.min(count).max(start);
    start..end
}
