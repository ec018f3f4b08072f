//! Fiduccia-Mattheyses gains of moves between the two dies.
//!
//! After C. M. Fiduccia and R. M. Mattheyses, "A linear-time heuristic for improving network partitions", 19th Design Automation
//! Conference, 1982: for each net its distribution is kept, the numbers of its cells on each die, and a move changes the gains of those
//! cells alone that share a net with the moved cell. In place of their buckets of equal gain each die has a tournament tree over the
//! cells that fit it, in order of area, since which cells have room depends on their areas.

ghost use Rattle.std.specs.Prelude.{◌≡◌, ℕ, ◌+ℤ◌, ◌<◌, IfOk, pos, false, true, length, map, set};
ghost use Rattle.std.specs.Option.{option_map};
ghost use Rattle.fp_netlist.specs.Netlist.{Netlist, IsSound};
ghost use Rattle.fp_place.specs.Cut.{cut};
ghost use Rattle.fp_place.specs.Settled.{flipped, first_least, none_moved};
ghost use Rattle.fp_gains.specs.Gained.{IsGainsOf, is_movable};
ghost use Rattle.fp_gains.specs.Contests.{IsBetter};
ghost use Rattle.fp_gains.specs.Kept.{even, IsStart};

use crate::links;
use crate::lists::Lists;
use crate::order::Order;
use crate::ranks::{EVEN, Ranks};
use crate::sides::NO_SIDES;
use crate::state::State;
use crate::tournament::{Leader, winner};
use fp_base::{CellId, Die, NoMemory};
use fp_netlist::Problem;
use fp_place::Caps;
use std::alloc::Global;
use std::marker::Model;

/// The Fiduccia-Mattheyses gain of each cell: how many nets fewer are cut after its move to its other die, from minus its number of nets
/// up to that number. Each cell is free or locked.
#[derive(Drop)]
pub struct Gains {
    members: Lists,
    nets: Lists,
    state: State,
}

impl Model for Gains {
    ghost use Rattle.fp_gains.specs.Gained.{Gained};
    ghost use Rattle.fp_gains.specs.Kept.{gained, IsKeptGains};

    ghost Value = { Gained };

    ghost view = { gained };

    ghost invariant = { IsKeptGains };
}

impl Gains {
    /// The gains of a problem's cells where each stands on its die of the list. All cells are free. All memory is taken here; `NoMemory`
    /// comes only where there is none.
    pub fn new(alloc: Global, problem: &Problem, dies: &[Die]) -> Result<Gains, NoMemory>
        requires { length dies.now ≡ length problem.now.cells }
        ensures of_problem { IfOk result (IsGainsOf problem.now) }
        ensures dies { IfOk result (λ g. g.dies ≡ dies.now) }
        ensures locked { IfOk result (λ g. g.locked ≡ none_moved problem.now) }
    {
        let members = links::cells_by_net(alloc, problem)?;
        let nets = links::nets_by_cell(alloc, problem)?;
        let mut state = start(alloc, problem, dies)?;
        state.begin(&members);
        Ok(Gains {
            members,
            nets,
            state,
        })
    }

    /// The dies that the cells stand on.
    pub fn dies(&self) -> &[Die]
        ensures { result.now ≡ self.now.dies }
    {
        &self.state.dies
    }

    /// The gain of a cell: how many nets fewer are cut after its move to its other die.
    pub fn gain(&self, cell: CellId) -> i64
        requires { cell.0 < length self.now.dies }
        ensures { (p : Netlist) → IsGainsOf p self.now → pos (cut p self.now.dies) ≡ (pos (cut p (flipped self.now.dies cell.0)) +ℤ result) }
    {
        gain_of(self.state.ranks.keys[cell.0 as usize])
    }

    /// Moves a cell to its other die, whether it is free or locked. It updates the gains of the cells of the cell's nets alone. All that it
    /// needs of the problem, which the gains are of, is kept here.
    pub fn flip(&mut self, _problem: &Problem, cell: CellId)
        requires { cell.0 < length self.old.dies }
        ensures dies { self.new.dies ≡ flipped self.old.dies cell.0 }
        ensures locked { self.new.locked ≡ self.old.locked }
        ensures of_problem { (p : Netlist) → IsGainsOf p self.old → IsGainsOf p self.new }
    {
        self.state.flip(&self.members, &self.nets, cell);
    }

    /// Locks a cell: it is no base cell until all cells are unlocked.
    pub fn lock(&mut self, cell: CellId)
        requires { cell.0 < length self.old.dies }
        ensures dies { self.new.dies ≡ self.old.dies }
        ensures locked { self.new.locked ≡ set self.old.locked cell.0 true }
        ensures of_problem { (p : Netlist) → IsGainsOf p self.old → IsGainsOf p self.new }
    {
        self.state.lock(cell);
    }

    /// Unlocks every cell: all are free.
    pub fn unlock_all(&mut self)
        ensures dies { self.new.dies ≡ self.old.dies }
        ensures locked { self.new.locked ≡ map (λ _. false) self.old.locked }
        ensures of_problem { (p : Netlist) → IsGainsOf p self.old → IsGainsOf p self.new }
    {
        self.state.unlock_all();
    }

    /// Begins again where each cell stands on its die of another list. All cells are free. What is known of the problem stays, so this is
    /// quicker than to make the gains anew.
    pub fn restart(&mut self, dies: &[Die])
        requires { length dies.now ≡ length self.old.dies }
        ensures dies { self.new.dies ≡ dies.now }
        ensures locked { self.new.locked ≡ map (λ _. false) self.old.locked }
        ensures of_problem { (p : Netlist) → IsGainsOf p self.old → IsGainsOf p self.new }
    {
        self.state.restart(&self.members, dies);
    }

    /// The base cell of the next move: of the free cells that fit their other die and have room there beside the area that is held, one of
    /// greatest gain, the least id among ties. None exactly where there is no such cell.
    pub fn best_movable(&self, problem: &Problem, caps: &Caps) -> Option<CellId>
        requires { IsGainsOf problem.now self.now }
        ensures { option_map (λ cell. cell.0) result ≡ first_least (is_movable problem.now caps.now self.now)
            (λ cell. cut problem.now (flipped self.now.dies cell)) (length problem.now.cells) }
    {
        let top = self.state.ranks.top.best(problem, caps);
        let bottom = self.state.ranks.bottom.best(problem, caps);
        Some(better(top, bottom)?.cell)
    }
}

// The gain that a key stands for.
fn gain_of(key: u32) -> i64
    ensures { pos key ≡ (pos even +ℤ result) }
{
    i64::from(key) - i64::from(EVEN)
}

// The better of two leaders, where there is any.
fn better(first: Option<Leader>, second: Option<Leader>) -> Option<Leader>
    ensures { IsBetter first second result }
{
    match (first, second) {
        (Some(one), Some(other)) => Some(winner(one, other)),
        (Some(one), None) => Some(one),
        (None, last) => last,
    }
}

// All cells where they stand, locked, with no cell counted in the distributions of the nets.
fn start(alloc: Global, problem: &Problem, dies: &[Die]) -> Result<State, NoMemory>
    requires { length dies.now ≡ length problem.now.cells }
    ensures state { IfOk result (IsStart problem.now dies.now) }
    ensures sound { IsSound problem.now }
{
    let cells = dies.len();
    let nets = problem.nets() as usize;
    let ranks = Ranks {
        keys: vec![in alloc; EVEN; cells]?,
        top: Order::new(alloc, problem, Die::Top)?,
        bottom: Order::new(alloc, problem, Die::Bottom)?,
        listed: vec![in alloc; 0; cells]?,
    };
    Ok(State {
        dies: Vec::from_slice(alloc, dies)?,
        locked: vec![in alloc; true; cells]?,
        sides: vec![in alloc; NO_SIDES; nets]?,
        ranks,
    })
}
