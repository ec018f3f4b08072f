//! The cells that fit a die, in order of their area there, with a key for each.

ghost use Rattle.std.specs.Prelude.{◌≡◌, ◌<◌, ◌≤◌, ◌^◌, ℕ, IfOk, length, map, All};
ghost use Rattle.std.specs.List.Sorted.{IsNonDecreasingBy};
ghost use Rattle.fp_netlist.specs.Points.{area};
ghost use Rattle.fp_place.specs.Areas.{fits};
ghost use Rattle.fp_gains.specs.Contests.{IsBestSlot};
ghost use Rattle.fp_gains.specs.Ordered.{IsOrderOf, IsNewOrder, IsDealt, IsBestOf, with_key};
ghost use Rattle.fp_gains.specs.OrderParts.{AreByArea, AreSlots, AreApart, AreAreas, IsBestWithRoom, IsRoomFor, cells_alone};

use crate::places::Places;
use crate::tournament::{Leader, Tournament};
use fp_base::{CellId, Die, NoMemory};
use fp_netlist::Problem;
use fp_place::Caps;
use std::alloc::Global;
use std::marker::Model;

/// The cells that fit a die, in order of their area there, with a key for each. A key of 0 leaves a cell out. Where a cell has room on the
/// die, so have all cells of less area, so those with room are a front part of the order, of which a tournament tells the best.
#[derive(Drop)]
pub struct Order {
    die: Die,
    // By cell, its place in the order.
    slots: Places,
    tournament: Tournament,
}

impl Model for Order {
    ghost use Rattle.fp_gains.specs.Ordered.{Ordered};
    ghost use Rattle.fp_gains.specs.KeptOrder.{ordered_kept, HoldsSlots};

    ghost Value = { Ordered };

    ghost view = { ordered_kept };

    ghost invariant = { HoldsSlots };
}

impl Order {
    /// The cells of a problem that fit the die, all with key 0. The only call that takes memory; it fails where there is none.
    pub fn new(alloc: Global, problem: &Problem, die: Die) -> Result<Order, NoMemory>
        ensures { IfOk result (IsNewOrder problem.now die) }
    {
        let cells = by_area(alloc, problem, die)?;
        let slots = slots_of(alloc, problem.cells(), &cells)?;
        let tournament = Tournament::new(alloc, &cells)?;
        Ok(Order {
            die,
            slots,
            tournament,
        })
    }

    /// Gives a cell another key, where it is in the order.
    pub fn set(&mut self, cell: CellId, key: u32)
        requires { cell.0 < length self.old.keys }
        ensures { self.new ≡ with_key self.old cell.0 key }
    {
        if let Some(slot) = self.slots.get(cell) {
            self.tournament.set(slot as usize, key);
        }
    }

    /// Gives each cell that is in the order its key of a list.
    pub fn set_all(&mut self, keys: &[u32])
        requires { length keys.now ≡ length self.old.keys }
        ensures { IsDealt keys.now self.old self.new }
    {
        self.tournament.deal(keys);
    }

    /// Of the cells with a key above 0 that fit the die and have room there, one of greatest key, the least among ties.
    pub fn best(&self, problem: &Problem, caps: &Caps) -> Option<Leader>
        requires { IsOrderOf problem.now self.now.die self.now }
        ensures { IsBestOf problem.now caps.now self.now result }
    {
        self.best_with_room(problem, caps)
            .filter(|leader| leader.key > 0)
    }

    // The best cell with room, whatever its key.
    fn best_with_room(&self, problem: &Problem, caps: &Caps) -> Option<Leader>
        requires { IsOrderOf problem.now self.now.die self.now }
        ensures { IsBestWithRoom problem.now caps.now self.now result }
    {
        let Some(leader) = self.tournament.leader() else {
            return None;
        };
        if caps.room(problem, leader.cell, self.die) {
            return Some(leader);
        }
        let count = count_with_room(problem, caps, self.die, &self.tournament);
        self.tournament.first(count)
    }
}

// Whether a cell is at most as high as the rows of a die.
fn fits(problem: &Problem, cell: CellId, die: Die) -> bool
    requires { cell.0 < length problem.now.cells }
    ensures { result ≡ fits problem.now cell.0 die }
{
    problem.height(cell, die) <= i64::from(problem.dies().spec(die).height)
}

// The cells that fit a die, in order of their area there.
fn by_area(alloc: Global, problem: &Problem, die: Die) -> Result<Vec<CellId>, NoMemory>
    ensures { IfOk result (λ cells. AreByArea problem.now die cells.items) }
{
    let mut entries = areas(alloc, problem, die)?;
    entries.sort_unstable();
    cells_of(alloc, entries.as_slice())
}

// The areas and the numbers of the cells that fit a die.
fn areas(alloc: Global, problem: &Problem, die: Die) -> Result<Vec<(u64, u32)>, NoMemory>
    ensures { IfOk result (λ entries. AreAreas problem.now die (length problem.now.cells) entries.items) }
{
    let mut entries = Vec::new(alloc);
    for cell in 0..problem.cells() {
        if fits(problem, CellId(cell), die) {
            entries.push((problem.area(CellId(cell), die), cell))?;
        }
    }
    Ok(entries)
}

// The cells alone.
fn cells_of(alloc: Global, entries: &[(u64, u32)]) -> Result<Vec<CellId>, NoMemory>
    ensures { IfOk result (λ cells. cells.items ≡ cells_alone entries.now) }
{
    let cells = entries.iter().map(|entry| CellId(entry.1)).collect(alloc)?;
    Ok(cells)
}

// By cell, its place among these.
fn slots_of(alloc: Global, count: u32, cells: &[CellId]) -> Result<Places, NoMemory>
    requires few { length cells.now ≤ 2 ^ 18 }
    requires within { All (λ cell. cell.0 < count) cells.now }
    requires apart { AreApart cells.now }
    ensures { IfOk result (λ slots. AreSlots count slots cells.now (length cells.now)) }
{
    let mut slots = Places::new(alloc, count)?;
    for (slot, cell) in cells.iter().enumerate() {
        slots.put(*cell, slot as u32);
    }
    Ok(slots)
}

// How many cells of the order have room on the die: they stand in front.
fn count_with_room(problem: &Problem, caps: &Caps, die: Die, tournament: &Tournament) -> usize
    requires within { All (λ leaf. leaf.cell.0 < length problem.now.cells) tournament.now }
    requires rising { IsNonDecreasingBy (λ leaf. area problem.now leaf.cell.0 die) tournament.now }
    ensures { IsRoomFor problem.now caps.now die tournament.now result }
{
    let mut low = 0;
    let mut high = tournament.len();
    while low < high {
        let middle = low + (high - low) / 2;
        if caps.room(problem, tournament.cell(middle), die) {
            low = middle + 1;
        } else {
            high = middle;
        }
    }
    low
}
