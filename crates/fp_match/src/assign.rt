//! A matching of all rows at least total cost, by one shortest augmenting path for each row.
//!
//! After R. Jonker and A. Volgenant, "A shortest augmenting path algorithm for dense and sparse linear assignment problems", Computing 38,
//! 1987, without their initial steps: a search from a row without a column settles rows nearest first, as Dijkstra's does, where a step
//! to a column is as long as its reduced cost: its cost and price less those of the column that the settled row has. The search ends at
//! the nearest unused column. Then the prices of the columns of settled rows rise, so that no reduced cost falls below 0, and along the
//! augmenting path each row takes the next column.

ghost use Rattle.std.specs.Prelude.{◌≡◌, ◌<◌, ◌≤◌, ◌+◌, ℕ, length};
ghost use Rattle.fp_match.specs.Search.{AreFar, IsTree, IsMatching, Fits, IsGrown, IsRoomy, SameSizes, SameRooms, IsCleared, AreRuns, AreMarks, HasMarks};

use crate::choice::UNUSED;
use crate::closed::Closed;
use crate::costs::Costs;
use crate::labels::Labels;
use crate::matching::{Matching, augment, raise};
use crate::scan::scan_row;

/// Takes all columns from their rows, and makes every price 0.
fn clear(matching: &mut Matching)
    ensures cleared { IsCleared matching.new }
    ensures sizes { SameSizes matching.old matching.new }
{
    matching.owner.fill(UNUSED);
    matching.prices.fill(0);
}

/// Settles rows, nearest first, until no row that waits lies nearer than the nearest unused column: then the augmenting path to it is a
/// shortest one.
fn grow<C: Costs>(
    costs: &C,
    matching: &Matching,
    labels: &mut Labels,
    closed: &mut Closed,
    row: u32,
)
    requires tree { IsTree (C.cost_of costs.now) (C.column_count costs.now) row matching.now labels.old }
    requires matched { IsMatching (C.cost_of costs.now) (C.column_count costs.now) row matching.now }
    requires fits { Fits (C.column_count costs.now) row matching.now }
    requires row_in { row < C.row_count costs.now }
    requires some { 0 < C.column_count costs.now }
    requires runs { AreRuns row matching.now labels.old closed.old }
    ensures grown { IsGrown (C.cost_of costs.now) (C.column_count costs.now) row matching.now labels.new }
    ensures rooms { SameRooms labels.old labels.new }
    ensures runs { AreRuns row matching.now labels.new closed.new }
{
    scan_row(costs, matching, labels, closed, row);
    loop {
        if !labels.take_nearest(matching) {
            return;
        }
        scan_row(costs, matching, labels, closed, row);
    }
}

/// Gives one row more a column, by a shortest augmenting path, so that the rows so far keep least total cost.
fn insert<C: Costs>(
    costs: &C,
    matching: &mut Matching,
    labels: &mut Labels,
    closed: &mut Closed,
    row: u32,
)
    requires row_in { row < C.row_count costs.now }
    requires few { C.row_count costs.now ≤ C.column_count costs.now }
    requires room { IsRoomy (C.row_count costs.now) (C.column_count costs.now) matching.old labels.old }
    requires matched { IsMatching (C.cost_of costs.now) (C.column_count costs.now) row matching.old }
    requires all_far { AreFar labels.old }
    requires marks { AreMarks row matching.old closed.old }
    ensures matched { IsMatching (C.cost_of costs.now) (C.column_count costs.now) (row + 1) matching.new }
    ensures all_far { AreFar labels.new }
    ensures sizes { SameSizes matching.old matching.new }
    ensures rooms { SameRooms labels.old labels.new }
    ensures marks { AreMarks (row + 1) matching.new closed.new }
{
    let _limits = costs.rows();
    labels.start(row);
    grow(costs, matching, labels, closed, row);
    raise(&matching.column_of, &mut matching.prices, labels);
    augment(costs, matching, labels, row);
    labels.reset();
}

/// Gives each row a column of its own at least total cost, with prices that show it.
pub(crate) fn assign<C: Costs>(
    costs: &C,
    matching: &mut Matching,
    labels: &mut Labels,
    closed: &mut Closed,
)
    requires few { C.row_count costs.now ≤ C.column_count costs.now }
    requires room { IsRoomy (C.row_count costs.now) (C.column_count costs.now) matching.old labels.old }
    requires all_far { AreFar labels.old }
    requires marks { HasMarks matching.old closed.old }
    ensures matched { IsMatching (C.cost_of costs.now) (C.column_count costs.now) (C.row_count costs.now) matching.new }
    ensures all_far { AreFar labels.new }
    ensures sizes { SameSizes matching.old matching.new }
    ensures rooms { SameRooms labels.old labels.new }
    ensures marks { HasMarks matching.new closed.new }
{
    clear(matching);
    closed.open_all();
    for row in 0..costs.rows() {
        insert(costs, matching, labels, closed, row);
    }
}
