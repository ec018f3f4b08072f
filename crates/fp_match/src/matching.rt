//! The rows that have columns so far, and the prices of all columns.

ghost use Rattle.std.specs.Prelude.{◌≡◌, ◌<◌, ◌≤◌, ◌+◌, ℕ, length};
ghost use Rattle.fp_match.specs.Owners.{Agree};
ghost use Rattle.fp_match.specs.Search.{CanRaise, IsRaised, IsPath, IsAugmented, column_of, price_of};

use crate::costs::Costs;
use crate::labels::Labels;

/// Columns by row, rows by column and prices by column.
#[derive(Drop)]
pub(crate) struct Matching {
    /// The column of each row.
    pub(crate) column_of: Vec<u32>,
    /// The row of each column, or `UNUSED`.
    pub(crate) owner: Vec<u32>,
    /// The price of each column.
    pub(crate) prices: Vec<u64>,
}

impl Matching {
    /// The price of the column that the row has.
    pub(crate) fn price_held(&self, row: u32) -> u64
        requires row_in { row < length self.now.column_of.items }
        requires column_in { column_of self.now row < length self.now.prices.items }
        ensures { result ≡ price_of self.now (column_of self.now row) }
    {
        self.prices[self.column_of[row as usize] as usize]
    }
}

/// Raises the price of each settled row's column by as much as the row lies nearer than the level, so that the reduced costs on the
/// augmenting path are 0 and none falls below 0.
pub(crate) fn raise(column_of: &[u32], prices: &mut [u64], labels: &Labels)
    requires { CanRaise column_of.now prices.old labels.now }
    ensures { IsRaised column_of.now prices.old prices.new labels.now }
{
    for place in 1..labels.at + 1 {
        let row = labels.reached[place] as usize;
        let column = column_of[row] as usize;
        prices[column] += labels.level - labels.label[row];
    }
}

/// Augments the matching along the path that ends at the sink: from its end back to the row that had no column, each row gives its
/// column to the row before it on the path and takes the next one.
pub(crate) fn augment<C: Costs>(costs: &C, matching: &mut Matching, labels: &Labels, row: u32)
    requires { IsPath (C.cost_of costs.now) (C.column_count costs.now) row matching.old labels.now }
    ensures { IsAugmented (C.cost_of costs.now) (C.column_count costs.now) row matching.old matching.new }
{
    let _costs = costs;
    let mut column = labels.sink;
    let mut place = labels.last;
    while place > 0 {
        let current = labels.reached[place];
        let left = matching.column_of[current as usize];
        matching.column_of[current as usize] = column;
        matching.owner[column as usize] = current;
        column = left;
        place = labels.parent[current as usize];
    }
    matching.column_of[row as usize] = column;
    matching.owner[column as usize] = row;
}
