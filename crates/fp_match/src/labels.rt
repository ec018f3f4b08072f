//! The labels of a search for a shortest augmenting path: which rows it has reached, and how far they lie.

ghost use Rattle.std.specs.Prelude.{◌≡◌, ◌↔◌, ◌<◌, ◌≤◌, ◌+◌, ℕ, IsTrue, length, slice_index};
ghost use Rattle.std.specs.Bool.{OnTrue, OnFalse};
ghost use Rattle.fp_match.specs.Search.{IsLowered, IsEntered, IsNearest, IsTaken, IsStarted, HasRoom, HasPrices, AreFar, CanTake, HasReached, CanReset, IsReset, label_of, row_at};

use crate::matching::Matching;

/// The label of a row that is not reached. No distance comes near it.
pub(crate) const FAR: u64 = 1 << 62;

/// The rows that a search has reached, in the order of their distance as far as they are settled,
/// and behind them those that wait.
#[derive(Drop)]
pub(crate) struct Labels {
    /// By row, how far it lies from the row that the search began at, or `FAR`.
    pub(crate) label: Vec<u64>,
    /// By row, the place in `reached` of the row that it is reached from.
    pub(crate) parent: Vec<usize>,
    /// The rows that are reached. The first is the one that the search began at.
    pub(crate) reached: Vec<u32>,
    /// How many rows are reached.
    pub(crate) count: usize,
    /// The place in `reached` of the row that was settled last. Those behind it wait.
    pub(crate) at: usize,
    /// How far the nearest unused column lies, as far as is known, or `FAR`.
    pub(crate) level: u64,
    /// The nearest unused column, as far as is known: there the augmenting path would end.
    pub(crate) sink: u32,
    /// The place in `reached` of the row that `sink` is reached from.
    pub(crate) last: usize,
}

impl Labels {
    /// Begins a search at the row.
    pub(crate) fn start(&mut self, row: u32)
        requires { HasRoom row self.old }
        ensures { IsStarted row self.old self.new }
    {
        self.label[row as usize] = 0;
        self.reached[0] = row;
        self.count = 1;
        self.at = 0;
        self.level = FAR;
    }

    /// Lowers the label of a row that waits.
    pub(crate) fn lower(&mut self, row: u32, label: u64)
        requires { HasRoom row self.old }
        ensures { IsLowered self.old self.new row label }
    {
        self.label[row as usize] = label;
        self.parent[row as usize] = self.at;
    }

    /// Labels a row that was not reached.
    pub(crate) fn enter(&mut self, row: u32, label: u64)
        requires room { HasRoom row self.old }
        requires place { self.old.count < length self.old.reached.items }
        ensures { IsEntered self.old self.new row label }
    {
        self.label[row as usize] = label;
        self.parent[row as usize] = self.at;
        self.reached[self.count] = row;
        self.count += 1;
    }

    /// Makes a column the nearest unused one, reached from the row that was settled last.
    pub(crate) fn sink_at(&mut self, column: u32, level: u64)
        ensures { self.new ≡ record self.old { level = level; sink = column; last = self.old.at } }
    {
        self.level = level;
        self.sink = column;
        self.last = self.at;
    }

    /// Whether the row at the place lies nearer than the row at the other one, or as near where the price of its column is lower: unused
    /// columns are near there.
    fn is_nearer(&self, matching: &Matching, place: usize, other: usize) -> bool
        requires take { CanTake self.now }
        requires held { HasPrices matching.now self.now }
        requires place_waits { self.now.at < place }
        requires place_in { place < self.now.count }
        requires other_waits { self.now.at < other }
        requires other_in { other < self.now.count }
        ensures nearer { OnTrue result (label_of self.now (row_at self.now place) ≤ label_of self.now (row_at self.now other)) }
        ensures farther { OnFalse result (label_of self.now (row_at self.now other) ≤ label_of self.now (row_at self.now place)) }
    {
        let row = self.reached[place];
        let best = self.reached[other];
        let label = self.label[row as usize];
        let least = self.label[best as usize];
        if label < least {
            return true;
        }
        if least < label {
            return false;
        }
        matching.price_held(row) < matching.price_held(best)
    }

    /// Whether the row at the place lies as near as the row that was settled last, so that none lies nearer, and the price of its column is
    /// no higher than this.
    fn is_at_hand(&self, matching: &Matching, place: usize, price: u64) -> bool
        requires take { CanTake self.now }
        requires held { HasPrices matching.now self.now }
        requires place_waits { self.now.at < place }
        requires place_in { place < self.now.count }
        ensures { OnTrue result (label_of self.now (row_at self.now place) ≤ label_of self.now (row_at self.now self.now.at)) }
    {
        let row = self.reached[place];
        let settled = self.reached[self.at];
        if self.label[settled as usize] < self.label[row as usize] {
            return false;
        }
        matching.price_held(row) <= price
    }

    /// The price of the column of the row that was settled last. The row that the search began at has none: then no price is higher.
    fn price_settled(&self, matching: &Matching) -> u64
        requires take { CanTake self.now }
        requires held { HasPrices matching.now self.now }
    {
        if self.at == 0 {
            return u64::MAX;
        }
        matching.price_held(self.reached[self.at])
    }

    /// The place of the nearest row that waits, where one does. Of equally near rows it is one whose column has a low price, and one reached
    /// late: it looks at the last ones first, and no further than to one that is at hand.
    fn nearest(&self, matching: &Matching) -> usize
        requires take { CanTake self.now }
        requires held { HasPrices matching.now self.now }
        requires waits { self.now.at + 1 < self.now.count }
        ensures nearest { IsNearest self.now result }
        ensures within { result < self.now.count }
    {
        let price = self.price_settled(matching);
        let mut best = self.count - 1;
        let mut place = self.count;
        while place > self.at + 1 {
            place -= 1;
            if self.is_at_hand(matching, place, price) {
                return place;
            }
            if self.is_nearer(matching, place, best) {
                best = place;
            }
        }
        best
    }

    /// Settles the nearest row that waits. It says false where none lies within the level.
    pub(crate) fn take_nearest(&mut self, matching: &Matching) -> bool
        requires take { CanTake self.old }
        requires held { HasPrices matching.now self.old }
        ensures taken { OnTrue result (IsTaken self.old self.new) }
        ensures stays { OnFalse result (self.new ≡ self.old) }
        ensures none { OnFalse result (HasReached self.old) }
    {
        if self.at + 1 >= self.count {
            return false;
        }
        let place = self.nearest(matching);
        let row = self.reached[place];
        if self.label[row as usize] >= self.level {
            return false;
        }
        self.at += 1;
        self.reached[place] = self.reached[self.at];
        self.reached[self.at] = row;
        true
    }

    /// Takes the labels off all rows that were reached.
    pub(crate) fn reset(&mut self)
        requires { CanReset self.old }
        ensures { IsReset self.old self.new }
    {
        for place in 0..self.count {
            let row = self.reached[place] as usize;
            self.label[row] = FAR;
        }
    }
}
