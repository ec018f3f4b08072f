//! The gains of the cells as keys, in the orders of both dies.

ghost use Rattle.std.specs.Prelude.{◌≡◌, ℕ, ◌<◌, ◌≤◌, ◌^◌, ◌==◌, All, true, false, length, set, if◌then◌else◌};
ghost use Rattle.std.specs.List.{IsDistinct};
ghost use Rattle.fp_base.specs.declared.ids.Die.TheVariants.{Top, Bottom};
ghost use Rattle.fp_place.specs.Places.{die_at};
ghost use Rattle.fp_place.specs.Settled.{is_moved};
ghost use Rattle.fp_gains.specs.Kept.{free_key, is_free, IsHidden, IsHiddenNear, AreShownBut, AreShown, AreLong, AreListed, Follow};
ghost use Rattle.fp_gains.specs.Changes.{AreReweighed, AreInRange};

use crate::order::Order;
use crate::sides::Sides;
use fp_base::{CellId, Die};

/// A key for each cell, its gain counted from `EVEN`, and for each die an order that shows the keys of the free cells that stand on the
/// other die.
#[derive(Drop)]
pub struct Ranks {
    pub keys: Vec<u32>,
    pub top: Order,
    pub bottom: Order,
    /// What an order is given to show of all cells, kept for its memory.
    pub listed: Vec<u32>,
}

/// The key of gain 0. It is more than the nets of a cell, so each key is above 0.
pub const EVEN: u32 = (1 << 21) + 1;

impl Ranks {
    // Sets the key of a cell, and shows it in both orders.
    fn set(&mut self, dies: &[Die], locked: &[bool], cell: CellId, key: u32)
        requires cell { cell.0 < length dies.now }
        requires shown { AreShownBut cell.0 dies.now locked.now self.old }
        ensures keys { self.new.keys.items ≡ set self.old.keys.items cell.0 key }
        ensures shown { AreShown dies.now locked.now self.new }
        ensures follow { Follow self.old self.new }
    {
        self.keys[cell.0 as usize] = key;
        self.top
            .set(cell, free_key(dies, locked, key, Die::Top, cell));
        self.bottom
            .set(cell, free_key(dies, locked, key, Die::Bottom, cell));
    }

    /// Sets the key of a cell that has moved, and shows it. Where it is locked, no order shows it, before or after.
    pub fn turn(&mut self, dies: &[Die], locked: &[bool], cell: CellId, key: u32)
        requires cell { cell.0 < length dies.now }
        requires shown { AreShownBut cell.0 dies.now locked.now self.old }
        requires hidden { is_moved locked.now cell.0 ≡ true → IsHidden self.old cell.0 }
        ensures keys { self.new.keys.items ≡ set self.old.keys.items cell.0 key }
        ensures shown { AreShown dies.now locked.now self.new }
        ensures follow { Follow self.old self.new }
    {
        if locked[cell.0 as usize] {
            self.keys[cell.0 as usize] = key;
        } else {
            self.set(dies, locked, cell, key);
        }
    }

    /// Hides a cell that was locked. The order of the die that it stands on shows nothing of it already.
    pub fn hide(&mut self, dies: &[Die], locked: &[bool], cell: CellId)
        requires cell { cell.0 < length dies.now }
        requires locked { is_moved locked.now cell.0 ≡ true }
        requires shown { AreShownBut cell.0 dies.now locked.now self.old }
        requires near { IsHiddenNear self.old (die_at dies.now cell.0) cell.0 }
        ensures keys { self.new.keys ≡ self.old.keys }
        ensures shown { AreShown dies.now locked.now self.new }
        ensures follow { Follow self.old self.new }
    {
        match dies[cell.0 as usize] {
            Die::Top => self.bottom.set(cell, 0),
            Die::Bottom => self.top.set(cell, 0),
        }
    }

    /// Shows all cells, whatever the orders show of them.
    pub fn show_all(&mut self, dies: &[Die], locked: &[bool])
        requires few { length dies.now ≤ 2 ^ 18 }
        requires long { AreLong dies.now locked.now self.old }
        ensures keys { self.new.keys ≡ self.old.keys }
        ensures shown { AreShown dies.now locked.now self.new }
        ensures follow { Follow self.old self.new }
    {
        list_free(dies, locked, &self.keys, Die::Top, &mut self.listed);
        self.top.set_all(&self.listed);
        list_free(dies, locked, &self.keys, Die::Bottom, &mut self.listed);
        self.bottom.set_all(&self.listed);
    }

    // Sets the key of a cell that is free and stays where it is, and shows it in the order of the die that it would move to.
    fn set_far(&mut self, dies: &[Die], locked: &[bool], cell: CellId, key: u32)
        requires cell { cell.0 < length dies.now }
        requires free { is_moved locked.now cell.0 ≡ false }
        requires shown { AreShown dies.now locked.now self.old }
        ensures keys { self.new.keys.items ≡ set self.old.keys.items cell.0 key }
        ensures shown { AreShown dies.now locked.now self.new }
        ensures follow { Follow self.old self.new }
    {
        self.keys[cell.0 as usize] = key;
        match dies[cell.0 as usize] {
            Die::Top => self.bottom.set(cell, key),
            Die::Bottom => self.top.set(cell, key),
        }
    }

    // Sets the key of a cell that stays where it is, and shows it where that is needed.
    fn change(&mut self, dies: &[Die], locked: &[bool], cell: CellId, key: u32)
        requires cell { cell.0 < length dies.now }
        requires shown { AreShown dies.now locked.now self.old }
        ensures keys { self.new.keys.items ≡ set self.old.keys.items cell.0 key }
        ensures shown { AreShown dies.now locked.now self.new }
        ensures follow { Follow self.old self.new }
    {
        let place = cell.0 as usize;
        if locked[place] || self.keys[place] == key {
            self.keys[place] = key;
        } else {
            self.set_far(dies, locked, cell, key);
        }
    }

    /// Updates the keys of the cells of a net, whose distribution changes.
    pub fn reweigh(
        &mut self,
        dies: &[Die],
        locked: &[bool],
        cells: &[u32],
        before: Sides,
        after: Sides,
    )
        requires within { All (λ cell. cell < length dies.now) cells.now }
        requires once { IsDistinct (λ a b. a == b) cells.now }
        requires range { AreInRange self.old.keys.items }
        requires shown { AreShown dies.now locked.now self.old }
        ensures keys { AreReweighed dies.now cells.now before after self.old.keys.items self.new.keys.items }
        ensures shown { AreShown dies.now locked.now self.new }
        ensures follow { Follow self.old self.new }
    {
        for cell in cells {
            let die = dies[*cell as usize];
            let key = self.keys[*cell as usize] + after.share(die) - before.share(die);
            self.change(dies, locked, CellId(*cell), key);
        }
    }
}

// Lists the keys of the free cells that stand on a die's other die, 0 for others.
fn list_free(dies: &[Die], locked: &[bool], keys: &[u32], die: Die, listed: &mut Vec<u32>)
    requires few { length dies.now ≤ 2 ^ 18 }
    requires locks { length locked.now ≡ length dies.now }
    requires keys { length keys.now ≡ length dies.now }
    requires listed { length listed.old.items ≡ length dies.now }
    ensures { AreListed dies.now locked.now keys.now die listed.new.items }
{
    for cell in 0..keys.len() as u32 {
        let place = cell as usize;
        listed[place] = free_key(dies, locked, keys[place], die, CellId(cell));
    }
}

// The key of a free cell that stands on a die's other die, 0 for others.
fn free_key(dies: &[Die], locked: &[bool], key: u32, die: Die, cell: CellId) -> u32
    requires cell { cell.0 < length dies.now }
    requires locks { length locked.now ≡ length dies.now }
    ensures { result ≡ (if is_free dies.now locked.now die cell.0 then key else 0) }
{
    if locked[cell.0 as usize] || dies[cell.0 as usize] == die {
        0
    } else {
        key
    }
}
