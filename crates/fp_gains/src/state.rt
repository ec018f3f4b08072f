//! What changes in gains: where cells stand, which are locked, the distributions of the nets, and the keys of the gains.

ghost use Rattle.std.specs.Prelude.{◌≡◌, ℕ, ◌+◌, ◌<◌, ◌≤◌, ◌^◌, ◌==◌, All, true, false, length, set, map, replicate};
ghost use Rattle.std.specs.List.{IsDistinct};
ghost use Rattle.fp_place.specs.Settled.{flipped};
ghost use Rattle.fp_gains.specs.Links.{AreMembers};
ghost use Rattle.fp_gains.specs.Kept.{IsRanked, AreCounted, IsKept, IsLaid, AreShown, Follow};
ghost use Rattle.fp_gains.specs.Changes.{CanTurn, AreTurned, Stands, Lies};

use crate::lists::Lists;
use crate::ranks::{EVEN, Ranks};
use crate::sides::{NO_SIDES, Sides};
use fp_base::{CellId, Die};
use fp_place::other;

/// Where the cells stand, which are locked, the distribution of each net, and the keys of the cells' gains.
#[derive(Drop)]
pub struct State {
    pub dies: Vec<Die>,
    pub locked: Vec<bool>,
    pub sides: Vec<Sides>,
    pub ranks: Ranks,
}

impl State {
    // Sets the distribution of a net, and the keys of its cells by it.
    fn set_sides(&mut self, members: &Lists, net: usize, after: Sides)
        requires net { net < length members.now }
        requires members { AreMembers members.now (length self.old.dies.items) }
        requires ranked { IsRanked members.now self.old }
        ensures sides { self.new.sides.items ≡ set self.old.sides.items net after }
        ensures ranked { IsRanked members.now self.new }
        ensures stands { Stands self.old self.new }
    {
        let before = self.sides[net];
        self.sides[net] = after;
        if !before.weighs_as(after) {
            let cells = members.list(net);
            self.ranks
                .reweigh(&self.dies, &self.locked, cells, before, after);
        }
    }

    // Moves a cell from this die to the other in the distribution of each of its nets.
    fn turn_nets(&mut self, members: &Lists, nets: &[u32], die: Die)
        requires within { All (λ net. net < length members.now) nets.now }
        requires once { IsDistinct (λ a b. a == b) nets.now }
        requires there { CanTurn nets.now die self.old.sides.items }
        requires members { AreMembers members.now (length self.old.dies.items) }
        requires ranked { IsRanked members.now self.old }
        ensures sides { AreTurned nets.now die self.old.sides.items self.new.sides.items }
        ensures ranked { IsRanked members.now self.new }
        ensures stands { Stands self.old self.new }
    {
        for net in nets {
            let net = *net as usize;
            let after = self.sides[net].moved(die);
            self.set_sides(members, net, after);
        }
    }

    /// Moves a cell to its other die. Its own gain turns its sign.
    pub fn flip(&mut self, members: &Lists, nets: &Lists, cell: CellId)
        requires cell { cell.0 < length self.old.dies.items }
        requires kept { IsKept members.now nets.now self.old }
        ensures kept { IsKept members.now nets.now self.new }
        ensures dies { self.new.dies.items ≡ flipped self.old.dies.items cell.0 }
        ensures locked { self.new.locked ≡ self.old.locked }
        ensures follow { Follow self.old.ranks self.new.ranks }
    {
        let place = cell.0 as usize;
        let die = self.dies[place];
        let key = 2 * EVEN - self.ranks.keys[place];
        self.turn_nets(members, nets.list(place), die);
        self.dies[place] = other(die);
        self.ranks.turn(&self.dies, &self.locked, cell, key);
    }

    /// Locks a cell.
    pub fn lock(&mut self, cell: CellId)
        requires cell { cell.0 < length self.old.dies.items }
        requires shown { AreShown self.old.dies.items self.old.locked.items self.old.ranks }
        ensures shown { AreShown self.new.dies.items self.new.locked.items self.new.ranks }
        ensures locked { self.new.locked.items ≡ set self.old.locked.items cell.0 true }
        ensures lies { Lies self.old self.new }
    {
        if self.locked[cell.0 as usize] {
            return;
        }
        self.locked[cell.0 as usize] = true;
        self.ranks.hide(&self.dies, &self.locked, cell);
    }

    // Locks every cell.
    fn lock_all(&mut self)
        requires few { length self.old.dies.items ≤ 2 ^ 18 }
        requires shown { AreShown self.old.dies.items self.old.locked.items self.old.ranks }
        ensures shown { AreShown self.new.dies.items self.new.locked.items self.new.ranks }
        ensures locked { self.new.locked.items ≡ map (λ _. true) self.old.locked.items }
        ensures lies { Lies self.old self.new }
    {
        for cell in 0..self.dies.len() as u32 {
            self.lock(CellId(cell));
        }
    }

    /// Unlocks every cell.
    pub fn unlock_all(&mut self)
        requires few { length self.old.dies.items ≤ 2 ^ 18 }
        requires shown { AreShown self.old.dies.items self.old.locked.items self.old.ranks }
        ensures shown { AreShown self.new.dies.items self.new.locked.items self.new.ranks }
        ensures locked { self.new.locked.items ≡ map (λ _. false) self.old.locked.items }
        ensures lies { Lies self.old self.new }
    {
        self.locked.fill(false);
        self.ranks.show_all(&self.dies, &self.locked);
    }

    // Puts the cells, which are all locked, on these dies, with no cell counted in the distributions.
    fn lay(&mut self, dies: &[Die])
        requires many { length dies.now ≡ length self.old.dies.items }
        requires shown { AreShown self.old.dies.items self.old.locked.items self.old.ranks }
        requires locked { self.old.locked.items ≡ replicate (length self.old.dies.items) true }
        ensures laid { IsLaid dies.now (length self.old.sides.items) self.new }
        ensures locked { self.new.locked ≡ self.old.locked }
        ensures follow { Follow self.old.ranks self.new.ranks }
    {
        self.dies.copy_from_slice(dies);
        self.sides.fill(NO_SIDES);
        self.ranks.keys.fill(EVEN);
    }

    /// Begins again where each cell stands on its die of another list, with all cells free.
    pub fn restart(&mut self, members: &Lists, dies: &[Die])
        requires many { length dies.now ≡ length self.old.dies.items }
        requires few { length self.old.dies.items ≤ 2 ^ 18 }
        requires members { AreMembers members.now (length self.old.dies.items) }
        requires ranked { IsRanked members.now self.old }
        ensures dies { self.new.dies.items ≡ dies.now }
        ensures locked { self.new.locked.items ≡ map (λ _. false) self.old.locked.items }
        ensures ranked { IsRanked members.now self.new }
        ensures counted { AreCounted members.now self.new.dies.items self.new.sides.items }
        ensures follow { Follow self.old.ranks self.new.ranks }
    {
        self.lock_all();
        self.lay(dies);
        self.begin(members);
    }

    /// Counts the distribution of each net, and unlocks every cell.
    pub fn begin(&mut self, members: &Lists)
        requires few { length self.old.dies.items ≤ 2 ^ 18 }
        requires members { AreMembers members.now (length self.old.dies.items) }
        requires ranked { IsRanked members.now self.old }
        ensures dies { self.new.dies.items ≡ self.old.dies.items }
        ensures locked { self.new.locked.items ≡ map (λ _. false) self.old.locked.items }
        ensures ranked { IsRanked members.now self.new }
        ensures counted { AreCounted members.now self.new.dies.items self.new.sides.items }
        ensures follow { Follow self.old.ranks self.new.ranks }
    {
        self.count(members);
        self.unlock_all();
    }

    // Counts the distribution of each net.
    fn count(&mut self, members: &Lists)
        requires members { AreMembers members.now (length self.old.dies.items) }
        requires ranked { IsRanked members.now self.old }
        ensures counted { AreCounted members.now self.new.dies.items self.new.sides.items }
        ensures ranked { IsRanked members.now self.new }
        ensures stands { Stands self.old self.new }
    {
        for net in 0..members.len() {
            let sides = Sides::of(&self.dies, members.list(net));
            self.set_sides(members, net, sides);
        }
    }
}
