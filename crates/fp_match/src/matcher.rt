//! Columns for rows at least total cost, with prices.

ghost use Rattle.std.specs.Prelude.{◌≡◌, ◌<◌, ◌≤◌, ◌^◌, [], All, IfOk, length, slice_index};
ghost use Rattle.fp_match.specs.Prices.{IsChoice, ArePrices, IsLeast};

use crate::assign::assign;
use crate::choice::UNUSED;
use crate::closed::Closed;
use crate::costs::Costs;
use crate::labels::{FAR, Labels};
use crate::matching::Matching;
use fp_base::NoMemory;
use std::alloc::Global;
use std::marker::Model;

/// Finds a column for each row at least total cost, with prices that show it, in room that is taken
/// once. It stores no table of costs: rows get their columns one after the other, each by a shortest augmenting path.
#[derive(Drop)]
pub struct Matcher {
    matching: Matching,
    labels: Labels,
    closed: Closed,
    rows: u32,
    columns: u32,
}

impl Model for Matcher {
    ghost use Rattle.fp_match.specs.Prices.{Solution};

    ghost Value = { Solution };

    ghost use Rattle.fp_match.specs.Matchers.{solution_of, IsReady};

    ghost view = { solution_of };

    ghost invariant = { IsReady };
}

impl Matcher {
    ghost use Rattle.fp_match.specs.Prices.{Solution};

    /// A matcher with room for so many rows and columns. It has no solution yet.
    pub fn with_room(alloc: Global, rows: u32, columns: u32) -> Result<Matcher, NoMemory>
        ensures { IfOk result (λ matcher. matcher ≡ record {
          row_room = rows;
          column_room = columns;
          chosen = [];
          prices = [];
        }) }
    {
        let matching = Matching {
            column_of: vec![in alloc; 0; rows as usize]?,
            owner: vec![in alloc; UNUSED; columns as usize]?,
            prices: vec![in alloc; 0; columns as usize]?,
        };
        let labels = Labels {
            label: vec![in alloc; FAR; rows as usize]?,
            parent: vec![in alloc; 0; rows as usize]?,
            reached: vec![in alloc; 0; rows as usize]?,
            count: 0,
            at: 0,
            level: FAR,
            sink: 0,
            last: 0,
        };
        let closed = Closed {
            search: vec![in alloc; 0; columns as usize]?,
            next: vec![in alloc; 0; columns as usize]?,
        };
        Ok(Matcher {
            matching,
            labels,
            closed,
            rows: 0,
            columns: 0,
        })
    }

    /// Gives each row a column of its own, at least total cost over all choices of distinct columns.
    /// A column that no row has gets price 0, and with prices added each row's column costs it no
    /// more than any other. A price is at most 2^36. It takes no memory.
    pub fn solve<C: Costs>(&mut self, costs: &C)
        requires few { C.row_count costs.now ≤ C.column_count costs.now }
        requires row_room { C.row_count costs.now ≤ self.old.row_room }
        requires column_room { C.column_count costs.now ≤ self.old.column_room }
        ensures choice { IsChoice (C.row_count costs.now) (C.column_count costs.now) self.new.chosen }
        ensures each_column { length self.new.prices ≡ C.column_count costs.now }
        ensures prices { ArePrices (C.cost_of costs.now) (C.column_count costs.now) self.new.chosen self.new.prices }
        ensures least { IsLeast (C.cost_of costs.now) (C.row_count costs.now) (C.column_count costs.now) self.new.chosen }
        ensures capped { All (λ p. p ≤ 2 ^ 36) self.new.prices }
        ensures row_room { self.new.row_room ≡ self.old.row_room }
        ensures column_room { self.new.column_room ≡ self.old.column_room }
    {
        self.rows = costs.rows();
        self.columns = costs.columns();
        assign(
            costs,
            &mut self.matching,
            &mut self.labels,
            &mut self.closed,
        );
    }

    /// The column of a row of the last `solve`.
    pub fn column_of(&self, row: u32) -> u32
        requires { row < length self.now.chosen }
        ensures { result ≡ slice_index self.now.chosen row }
    {
        self.matching.column_of[row as usize]
    }

    /// The price of a column of the last `solve`.
    pub fn price(&self, column: u32) -> u64
        requires { column < length self.now.prices }
        ensures { result ≡ slice_index self.now.prices column }
    {
        self.matching.prices[column as usize]
    }
}
