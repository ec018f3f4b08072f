//! By cell, its place in an order.

ghost use Rattle.std.specs.Prelude.{◌≡◌, ◌<◌, ◌^◌, IfOk, length, set, get_or, replicate, Some, None};

use fp_base::{CellId, NoMemory};
use std::alloc::Global;
use std::marker::Model;

// The place of a cell that is in no place.
const NOWHERE: u32 = u32::MAX;

/// By cell, its place in an order, where it has one. A place takes four bytes.
#[derive(Drop)]
pub struct Places {
    numbers: Vec<u32>,
}

impl Model for Places {
    ghost use Rattle.std.specs.Prelude.{ℕ, List, Option, map};
    ghost use Rattle.fp_gains.specs.OrderParts.{place_of};

    ghost Value = { List (Option ℕ) };

    ghost view = { λ p. map place_of p.numbers.items };
}

impl Places {
    /// So many cells, all without a place. The only call that takes memory; it fails where there is none.
    pub fn new(alloc: Global, count: u32) -> Result<Places, NoMemory>
        ensures { IfOk result (λ places. places ≡ replicate count None) }
    {
        let numbers = vec![in alloc; NOWHERE; count as usize]?;
        Ok(Places { numbers })
    }

    /// The place of a cell.
    pub fn get(&self, cell: CellId) -> Option<u32>
        requires { cell.0 < length self.now }
        ensures { result ≡ get_or self.now cell.0 None }
    {
        let number = self.numbers[cell.0 as usize];
        if number == NOWHERE {
            return None;
        }
        Some(number)
    }

    /// Gives a cell a place.
    pub fn put(&mut self, cell: CellId, place: u32)
        requires cell { cell.0 < length self.old }
        requires small { place < 2 ^ 18 }
        ensures { self.new ≡ set self.old cell.0 (Some place) }
    {
        self.numbers[cell.0 as usize] = place;
    }
}
