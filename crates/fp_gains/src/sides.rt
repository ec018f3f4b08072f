//! The distribution of a net: how many of its cells stand on each die.

ghost use Rattle.std.specs.Prelude.{◌≡◌, ◌<◌, ◌≤◌, ◌^◌, ◌+◌, All, IsTrue, length};
ghost use Rattle.fp_base.specs.declared.ids.Die.TheVariants.{Top, Bottom};
ghost use Rattle.fp_gains.specs.Sides.{count_on, on_die, sides_of, moved, share_by, share};

use fp_base::Die;

/// The distribution of a net: how many of its cells stand on each die.
#[derive(Clone, Copy)]
pub struct Sides {
    pub top: u32,
    pub bottom: u32,
}

/// No cell on either die.
pub const NO_SIDES: Sides = Sides { top: 0, bottom: 0 };

impl Sides {
    /// The distribution of a net with these cells.
    pub fn of(dies: &[Die], cells: &[u32]) -> Sides
        requires within { All (λ cell. cell < length dies.now) cells.now }
        requires few { length cells.now ≤ 2 ^ 21 }
        ensures { result ≡ sides_of dies.now cells.now }
    {
        Sides {
            top: count_on(dies, Die::Top, cells),
            bottom: count_on(dies, Die::Bottom, cells),
        }
    }

    /// The distribution after one of the net's cells left a die for the other.
    pub fn moved(self, from: Die) -> Sides
        requires there { 0 < count_on self from }
        requires few { self.top + self.bottom ≤ 2 ^ 22 }
        ensures { result ≡ moved self from }
    {
        match from {
            Die::Top => Sides {
                top: self.top - 1,
                bottom: self.bottom + 1,
            },
            Die::Bottom => Sides {
                top: self.top + 1,
                bottom: self.bottom - 1,
            },
        }
    }

    /// One more than what the net adds to the gain of a cell that stands on the die, so from 0 to 2.
    pub fn share(self, die: Die) -> u32
        ensures share { result ≡ share die self }
        ensures small { result ≤ 2 }
    {
        match die {
            Die::Top => share_by(self.top, self.bottom),
            Die::Bottom => share_by(self.bottom, self.top),
        }
    }

    /// Whether the net adds as much to the gain of each of its cells as with the other distribution.
    pub fn weighs_as(self, other: Sides) -> bool
        ensures top { IsTrue result → share Top self ≡ share Top other }
        ensures bottom { IsTrue result → share Bottom self ≡ share Bottom other }
        ensures same { share Top self ≡ share Top other → share Bottom self ≡ share Bottom other → IsTrue result }
    {
        self.share(Die::Top) == other.share(Die::Top)
            && self.share(Die::Bottom) == other.share(Die::Bottom)
    }
}

// Of these cells, the number of those on a die.
fn count_on(dies: &[Die], die: Die, cells: &[u32]) -> u32
    requires within { All (λ cell. cell < length dies.now) cells.now }
    requires few { length cells.now ≤ 2 ^ 21 }
    ensures { result ≡ on_die dies.now die cells.now }
{
    cells
        .iter()
        .filter(|cell| dies[**cell as usize] == die)
        .count() as u32
}

// One more than what a net with so many cells here and there adds to the gain of a cell here: 1 where it is cut before the cell's move,
// and less 1 where it is cut after it.
fn share_by(here: u32, there: u32) -> u32
    ensures share { result ≡ share_by here there }
    ensures small { result ≤ 2 }
{
    let before = u32::from(0 < there);
    let after = u32::from(1 < here);
    before + 1 - after
}
