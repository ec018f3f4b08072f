//! The columns that a search need not look at again: their rows are known to lie no farther than the row that was settled last, so no
//! row settled from then on lowers a label there.

ghost use Rattle.std.specs.Prelude.{◌≡◌, ◌≢◌, ◌<◌, ◌≤◌, ◌+◌, ◌^◌, ℕ, length, slice_index};
ghost use Rattle.fp_match.specs.Owners.{unused};
ghost use Rattle.fp_match.specs.Search.{HasRoom, IsClosed, AreRuns, owner_of, label_of, row_at};

use crate::choice::UNUSED;
use crate::labels::Labels;
use crate::matching::Matching;

/// Runs of closed columns. A column is marked by the search that closed it, so that the next search finds all columns open.
#[derive(Drop)]
pub(crate) struct Closed {
    /// By column, the last search that closed it: the row that it began at, plus 1.
    pub(crate) search: Vec<u32>,
    /// By column that its search closed, a column behind it up to which all are closed.
    pub(crate) next: Vec<u32>,
}

impl Closed {
    /// Opens all columns, so that a search may begin at any row.
    pub(crate) fn open_all(&mut self)
        ensures sizes { length self.new.search.items ≡ length self.old.search.items }
        ensures same { self.new.next ≡ self.old.next }
        ensures open { (s : ℕ) → s < length self.new.search.items → slice_index self.new.search.items s ≡ 0 }
    {
        self.search.fill(0);
    }

    /// Closes the column if its row lies no farther than the row that was settled last, which lies at that depth.
    pub(crate) fn close(
        &mut self,
        matching: &Matching,
        labels: &Labels,
        row: u32,
        column: u32,
        depth: u64,
    )
        requires few { row < 2 ^ 18 }
        requires room { HasRoom row labels.now }
        requires column_in { column < length matching.now.owner.items }
        requires small { column < 2 ^ 20 }
        requires held { owner_of matching.now column ≢ unused → owner_of matching.now column < row }
        requires depth { depth ≡ label_of labels.now (row_at labels.now labels.now.at) }
        requires runs { AreRuns row matching.now labels.now self.old }
        ensures { AreRuns row matching.now labels.now self.new }
    {
        let holder = matching.owner[column as usize];
        if holder == UNUSED {
            return;
        }
        if labels.label[holder as usize] <= depth {
            self.search[column as usize] = row + 1;
            self.next[column as usize] = column + 1;
        }
    }

    /// A column behind a closed one, at most `to`, up to which all are closed. The next such step from there may be longer.
    fn hop(&mut self, matching: &Matching, labels: &Labels, row: u32, column: u32, to: u32) -> u32
        requires few { row < 2 ^ 18 }
        requires column_in { column < to }
        requires to_in { to ≤ length matching.now.owner.items }
        requires runs { AreRuns row matching.now labels.now self.old }
        requires marked { slice_index self.old.search.items column ≡ row + 1 }
        ensures runs { AreRuns row matching.now labels.now self.new }
        ensures behind { column < result }
        ensures within { result ≤ to }
        ensures closed { (s : ℕ) → column ≤ s → s < result → IsClosed row matching.now labels.now s }
    {
        let _labels = labels;
        let _matching = matching;
        let next = self.next[column as usize];
        if next < to && self.search[next as usize] == row + 1 {
            self.next[column as usize] = self.next[next as usize];
        }
        next.min(to)
    }

    /// The first column from `from` on that is not closed, or `to`.
    pub(crate) fn open_from(
        &mut self,
        matching: &Matching,
        labels: &Labels,
        row: u32,
        from: u32,
        to: u32,
    ) -> u32
        requires few { row < 2 ^ 18 }
        requires order { from ≤ to }
        requires to_in { to ≤ length matching.now.owner.items }
        requires runs { AreRuns row matching.now labels.now self.old }
        ensures runs { AreRuns row matching.now labels.now self.new }
        ensures behind { from ≤ result }
        ensures within { result ≤ to }
        ensures closed { (s : ℕ) → from ≤ s → s < result → IsClosed row matching.now labels.now s }
    {
        let mut column = from;
        while column < to && self.search[column as usize] == row + 1 {
            column = self.hop(matching, labels, row, column, to);
        }
        column
    }
}
