//! One step of a search for a shortest augmenting path: the columns that a settled row could have, by their reduced costs.

ghost use Rattle.std.specs.Prelude.{◌≡◌, ◌<◌, ◌≤◌, ◌+◌, ◌*◌, ℕ, length};
ghost use Rattle.fp_match.specs.Search.{IsTree, IsMatching, Fits, Offered, IsOffer, Scanned, IsTurn, StripeCovered, StripeScanned, AreRuns};

use crate::choice::UNUSED;
use crate::closed::Closed;
use crate::costs::Costs;
use crate::labels::{FAR, Labels};
use crate::matching::Matching;
use crate::stripes::{near_columns, near_stripes};

/// The row that was settled last, how far it lies, and the cost and price of its column, 0 where it has none. What another column costs
/// the row, with its price, less that is the column's reduced cost.
#[derive(Clone, Copy)]
struct Turn {
    row: u32,
    depth: u64,
    least: u64,
}

/// Looks at a column that the row settled last reaches at this label.
fn offer<C: Costs>(
    costs: &C,
    matching: &Matching,
    labels: &mut Labels,
    row: u32,
    column: u32,
    label: u64,
)
    requires tree { IsTree (C.cost_of costs.now) (C.column_count costs.now) row matching.now labels.old }
    requires fits { Fits (C.column_count costs.now) row matching.now }
    requires offer { IsOffer (C.cost_of costs.now) (C.column_count costs.now) row matching.now labels.old column label }
    ensures { Offered (C.cost_of costs.now) (C.column_count costs.now) row matching.now labels.old labels.new column }
{
    let _costs = costs;
    let holder = matching.owner[column as usize];
    if holder == UNUSED {
        labels.sink_at(column, label);
        return;
    }
    let known = labels.label[holder as usize];
    if known == FAR {
        labels.enter(holder, label);
        return;
    }
    if label < known {
        labels.lower(holder, label);
        return;
    }
}

/// Looks at a column: it lies as much farther than the row that was settled last as its reduced cost is.
fn look_at<C: Costs>(
    costs: &C,
    matching: &Matching,
    labels: &mut Labels,
    closed: &mut Closed,
    row: u32,
    turn: Turn,
    column: u32,
)
    requires tree { IsTree (C.cost_of costs.now) (C.column_count costs.now) row matching.now labels.old }
    requires matched { IsMatching (C.cost_of costs.now) (C.column_count costs.now) row matching.now }
    requires fits { Fits (C.column_count costs.now) row matching.now }
    requires row_in { row < C.row_count costs.now }
    requires turn { IsTurn (C.cost_of costs.now) row matching.now labels.old turn }
    requires column_in { column < C.column_count costs.now }
    requires runs { AreRuns row matching.now labels.old closed.old }
    ensures offered { Offered (C.cost_of costs.now) (C.column_count costs.now) row matching.now labels.old labels.new column }
    ensures runs { AreRuns row matching.now labels.new closed.new }
{
    let _limits = costs.rows();
    let value = turn.depth + (costs.cost(turn.row, column) + matching.prices[column as usize]);
    if value >= labels.level + turn.least {
        return;
    }
    offer(costs, matching, labels, row, column, value - turn.least);
    closed.close(matching, labels, row, column, turn.depth);
}

/// Looks at the columns from `from` up to `to` that are not closed.
fn scan_columns<C: Costs>(
    costs: &C,
    matching: &Matching,
    labels: &mut Labels,
    closed: &mut Closed,
    row: u32,
    turn: Turn,
    from: u32,
    to: u32,
)
    requires tree { IsTree (C.cost_of costs.now) (C.column_count costs.now) row matching.now labels.old }
    requires matched { IsMatching (C.cost_of costs.now) (C.column_count costs.now) row matching.now }
    requires fits { Fits (C.column_count costs.now) row matching.now }
    requires row_in { row < C.row_count costs.now }
    requires turn { IsTurn (C.cost_of costs.now) row matching.now labels.old turn }
    requires order { from ≤ to }
    requires to_in { to ≤ C.column_count costs.now }
    requires runs { AreRuns row matching.now labels.old closed.old }
    ensures scanned { Scanned (C.cost_of costs.now) (C.column_count costs.now) row matching.now labels.old labels.new from to }
    ensures runs { AreRuns row matching.now labels.new closed.new }
{
    let _limits = costs.rows();
    let mut column = closed.open_from(matching, labels, row, from, to);
    while column < to {
        look_at(costs, matching, labels, closed, row, turn, column);
        column = closed.open_from(matching, labels, row, column + 1, to);
    }
}

/// Looks at the columns of a stripe that may lie within the level.
fn scan_near<C: Costs>(
    costs: &C,
    matching: &Matching,
    labels: &mut Labels,
    closed: &mut Closed,
    row: u32,
    turn: Turn,
    stripe: u32,
)
    requires tree { IsTree (C.cost_of costs.now) (C.column_count costs.now) row matching.now labels.old }
    requires matched { IsMatching (C.cost_of costs.now) (C.column_count costs.now) row matching.now }
    requires fits { Fits (C.column_count costs.now) row matching.now }
    requires row_in { row < C.row_count costs.now }
    requires turn { IsTurn (C.cost_of costs.now) row matching.now labels.old turn }
    requires stripe_in { stripe * C.stripe_width costs.now < C.column_count costs.now }
    requires runs { AreRuns row matching.now labels.old closed.old }
    ensures scanned { StripeScanned (C.cost_of costs.now) (C.column_count costs.now) (C.stripe_width costs.now) row matching.now labels.old labels.new stripe }
    ensures runs { AreRuns row matching.now labels.new closed.new }
{
    let _limits = costs.rows();
    let limit = labels.level + turn.least - turn.depth;
    let near = near_columns(costs, turn.row, stripe, limit);
    scan_columns(
        costs, matching, labels, closed, row, turn, near.start, near.end,
    );
}

/// Looks at the columns of a stripe, unless it is the one that was looked at first, or its floor
/// shows that it holds nothing within the level.
fn scan_stripe<C: Costs>(
    costs: &C,
    matching: &Matching,
    labels: &mut Labels,
    closed: &mut Closed,
    row: u32,
    turn: Turn,
    first: u32,
    stripe: u32,
)
    requires tree { IsTree (C.cost_of costs.now) (C.column_count costs.now) row matching.now labels.old }
    requires matched { IsMatching (C.cost_of costs.now) (C.column_count costs.now) row matching.now }
    requires fits { Fits (C.column_count costs.now) row matching.now }
    requires row_in { row < C.row_count costs.now }
    requires turn { IsTurn (C.cost_of costs.now) row matching.now labels.old turn }
    requires stripe_in { stripe * C.stripe_width costs.now < C.column_count costs.now }
    requires first { StripeCovered (C.cost_of costs.now) (C.column_count costs.now) (C.stripe_width costs.now) row matching.now labels.old first }
    requires runs { AreRuns row matching.now labels.old closed.old }
    ensures scanned { StripeScanned (C.cost_of costs.now) (C.column_count costs.now) (C.stripe_width costs.now) row matching.now labels.old labels.new stripe }
    ensures runs { AreRuns row matching.now labels.new closed.new }
{
    let _limits = costs.rows();
    let _width = costs.stripe();
    if stripe == first {
        return;
    }
    if labels.level + turn.least <= turn.depth + costs.floor(turn.row, stripe) {
        return;
    }
    scan_near(costs, matching, labels, closed, row, turn, stripe);
}

/// The turn of the row that was settled last.
fn turn_of<C: Costs>(costs: &C, matching: &Matching, labels: &Labels, row: u32) -> Turn
    requires tree { IsTree (C.cost_of costs.now) (C.column_count costs.now) row matching.now labels.now }
    requires matched { IsMatching (C.cost_of costs.now) (C.column_count costs.now) row matching.now }
    requires fits { Fits (C.column_count costs.now) row matching.now }
    requires row_in { row < C.row_count costs.now }
    ensures { IsTurn (C.cost_of costs.now) row matching.now labels.now result }
{
    let _limits = costs.rows();
    let current = labels.reached[labels.at];
    let depth = labels.label[current as usize];
    if current == row {
        return Turn {
            row: current,
            depth,
            least: 0,
        };
    }
    let column = matching.column_of[current as usize];
    let least = costs.cost(current, column) + matching.prices[column as usize];
    Turn {
        row: current,
        depth,
        least,
    }
}

/// Looks at the stripes that may hold a column within the level.
fn scan_stripes<C: Costs>(
    costs: &C,
    matching: &Matching,
    labels: &mut Labels,
    closed: &mut Closed,
    row: u32,
    turn: Turn,
    first: u32,
)
    requires tree { IsTree (C.cost_of costs.now) (C.column_count costs.now) row matching.now labels.old }
    requires matched { IsMatching (C.cost_of costs.now) (C.column_count costs.now) row matching.now }
    requires fits { Fits (C.column_count costs.now) row matching.now }
    requires row_in { row < C.row_count costs.now }
    requires some { 0 < C.column_count costs.now }
    requires turn { IsTurn (C.cost_of costs.now) row matching.now labels.old turn }
    requires first { StripeCovered (C.cost_of costs.now) (C.column_count costs.now) (C.stripe_width costs.now) row matching.now labels.old first }
    requires runs { AreRuns row matching.now labels.old closed.old }
    ensures scanned { Scanned (C.cost_of costs.now) (C.column_count costs.now) row matching.now labels.old labels.new 0 (C.column_count costs.now) }
    ensures runs { AreRuns row matching.now labels.new closed.new }
{
    let _limits = costs.rows();
    let limit = labels.level + turn.least - turn.depth;
    let near = near_stripes(costs, turn.row, limit);
    for stripe in near.start..near.end {
        scan_stripe(costs, matching, labels, closed, row, turn, first, stripe);
    }
}

/// Looks at all columns for the row that was settled last: those of one stripe first, and then those of each stripe that may hold a
/// column within the level that is then known.
pub(crate) fn scan_row<C: Costs>(
    costs: &C,
    matching: &Matching,
    labels: &mut Labels,
    closed: &mut Closed,
    row: u32,
)
    requires tree { IsTree (C.cost_of costs.now) (C.column_count costs.now) row matching.now labels.old }
    requires matched { IsMatching (C.cost_of costs.now) (C.column_count costs.now) row matching.now }
    requires fits { Fits (C.column_count costs.now) row matching.now }
    requires row_in { row < C.row_count costs.now }
    requires some { 0 < C.column_count costs.now }
    requires runs { AreRuns row matching.now labels.old closed.old }
    ensures scanned { Scanned (C.cost_of costs.now) (C.column_count costs.now) row matching.now labels.old labels.new 0 (C.column_count costs.now) }
    ensures runs { AreRuns row matching.now labels.new closed.new }
{
    let _limits = costs.rows();
    let turn = turn_of(costs, matching, labels, row);
    let first = costs.first_stripe(turn.row);
    scan_near(costs, matching, labels, closed, row, turn, first);
    scan_stripes(costs, matching, labels, closed, row, turn, first);
}
