//! A partition of the cells into two dies, on its way through a Fiduccia-Mattheyses pass.

ghost use Rattle.std.specs.Prelude.{◌≡◌, ◌<◌, ◌≤ℤ◌, ◌+ℤ◌, ◌^◌, All, IfOk, List, Some, [], length, pos};
ghost use Rattle.std.specs.Option.{option_map};
ghost use Rattle.fp_base.specs.declared.ids.Die.{Die};
ghost use Rattle.fp_netlist.specs.Netlist.{IsSound, Netlist};
ghost use Rattle.fp_place.specs.Settled.{best, next_move, KeepRules};
ghost use Rattle.fp_gains.specs.Gained.{IsGainsOf};
ghost use Rattle.fp_part.specs.Partitions.{after_moves, fewer, IsReady, IsBegun, IsMoved, Advances, IsRun};

use crate::areas::caps_of;
use fp_base::{CellId, Die, NoMemory};
use fp_gains::Gains;
use fp_netlist::Problem;
use fp_place::{Caps, cut, other};
use std::alloc::Global;

/// The best prefix of a pass's moves so far: the fewest nets cut, and after how many moves they were first reached.
#[derive(Clone, Copy)]
pub struct Fewest {
    pub cut: u32,
    pub moves: usize,
}

/// The dies of the cells in a pass, with the gains of the cells, the area that each die's cells take and the number of cut nets; and of the
/// pass the dies that it began with, the cells that it moved, in the order of the moves, and their best prefix.
#[derive(Drop)]
pub struct Partition {
    pub gains: Gains,
    pub start: Vec<Die>,
    pub caps: Caps,
    pub cut: u32,
    pub moved: Vec<CellId>,
    pub fewest: Fewest,
}

impl Partition {
    /// These dies, where a pass begins: no cell is moved, and all are free.
    pub fn new(alloc: Global, problem: &Problem, from: &[Die]) -> Result<Partition, NoMemory>
        requires { KeepRules problem.now from.now }
        ensures begun { IfOk result (IsBegun problem.now) }
        ensures dies { IfOk result (λ partition. partition.gains.dies ≡ from.now) }
    {
        let start = Vec::from_slice(alloc, from)?;
        let gains = Gains::new(alloc, problem, from)?;
        let cut = cut(problem, from);
        Ok(Partition {
            gains,
            start,
            caps: caps_of(problem, from),
            cut,
            moved: Vec::new(alloc),
            fewest: Fewest { cut, moves: 0 },
        })
    }

    // Moves the base cell to its other die. It is locked first: then no order has to show its new gain.
    fn move_cell(&mut self, problem: &Problem, cell: CellId)
        requires sound { IsSound problem.now }
        requires cell { cell.0 < length problem.now.cells }
        requires ready { IsReady problem.now self.old }
        requires next { next_move problem.now self.old.gains.dies self.old.gains.locked ≡ Some cell.0 }
        ensures moved { IsMoved problem.now cell self.old self.new }
        ensures start { self.new.start ≡ self.old.start }
        ensures same { self.new.moved ≡ self.old.moved }
        ensures fewest { self.new.fewest ≡ self.old.fewest }
    {
        let gain = self.gains.gain(cell);
        let die = self.gains.dies()[cell.0 as usize];
        self.caps.add(problem, cell, other(die));
        self.caps.take(problem, cell, die);
        self.gains.lock(cell);
        self.gains.flip(problem, cell);
        self.cut = less(self.cut, gain);
    }

    // One move more, of the base cell.
    fn advance(&mut self, problem: &Problem, cell: CellId) -> Result<(), NoMemory>
        requires sound { IsSound problem.now }
        requires ready { IsReady problem.now self.old }
        requires next { next_move problem.now self.old.gains.dies self.old.gains.locked ≡ Some cell.0 }
        ensures { IfOk result (λ _. Advances problem.now cell self.old self.new) }
    {
        self.move_cell(problem, cell);
        self.moved.push(cell)?;
        self.fewest = fewer(self.fewest, self.cut, self.moved.len());
        Ok(())
    }

    // The base cell of the next move: a free cell of greatest gain that fits its other die and has room there, the least among ties.
    fn next_cell(&self, problem: &Problem) -> Option<CellId>
        requires { IsReady problem.now self.now }
        ensures { option_map (λ cell. cell.0) result ≡ next_move problem.now self.now.gains.dies self.now.gains.locked }
    {
        self.gains.best_movable(problem, &self.caps)
    }

    // The moves of a pass, until no free cell may move.
    fn run(&mut self, problem: &Problem) -> Result<(), NoMemory>
        requires { IsBegun problem.now self.old }
        ensures { IfOk result (λ _. IsRun problem.now self.old.gains.dies self.new) }
    {
        for _ in 0..problem.cells() {
            let Some(cell) = self.next_cell(problem) else {
                return Ok(());
            };
            self.advance(problem, cell)?;
        }
        Ok(())
    }

    /// A whole pass, and then the dies after its best prefix, where the next pass begins.
    pub fn pass(&mut self, problem: &Problem) -> Result<(), NoMemory>
        requires { IsBegun problem.now self.old }
        ensures begun { IfOk result (λ _. IsBegun problem.now self.new) }
        ensures dies { IfOk result (λ _. self.new.gains.dies ≡ best problem.now self.old.gains.dies) }
    {
        self.run(problem)?;
        move_all(&mut self.start, &self.moved[..self.fewest.moves]);
        self.gains.restart(&self.start);
        self.caps = caps_of(problem, &self.start);
        self.cut = self.fewest.cut;
        self.moved.clear();
        self.fewest.moves = 0;
        Ok(())
    }
}

// How many nets are cut after a move of this gain.
fn less(cut: u32, gain: i64) -> u32
    requires low { gain ≤ℤ pos cut }
    requires high { pos cut ≤ℤ (gain +ℤ pos (2 ^ 18)) }
    ensures { pos cut ≡ (pos result +ℤ gain) }
{
    (i64::from(cut) - gain) as u32
}

// The best prefix after these moves, which leave so many nets cut: a longer one has to leave fewer.
fn fewer(fewest: Fewest, cut: u32, moves: usize) -> Fewest
    ensures { result ≡ fewer fewest cut moves }
{
    if cut < fewest.cut {
        Fewest { cut, moves }
    } else {
        fewest
    }
}

// Moves each of these cells to its other die.
fn move_all(dies: &mut Vec<Die>, moved: &[CellId])
    requires { All (λ cell. cell.0 < length dies.old.items) moved.now }
    ensures { dies.new.items ≡ after_moves dies.old.items moved.now }
{
    for cell in moved {
        let place = cell.0 as usize;
        dies[place] = other(dies[place]);
    }
}
