//! Cells and connections as they are kept, with what is asked of them most often beside them.

ghost use Rattle.std.specs.Prelude.{◌≡◌, ◌<◌, ◌≤◌, ◌^◌, ◌||◌, None, is_none, pos, ◌≤ℤ◌, IsSome, IsTrue, MatchOption};
ghost use Rattle.fp_base.specs.declared.ids.Die.TheVariants.{Top, Bottom};
ghost use Rattle.fp_netlist.specs.Netlist.{lib_for, pin_for};
ghost use Rattle.fp_netlist.specs.KeptNetlist.{point_of, size_kept, offset_kept, IsSizeOf, IsPinOf, IsKeptCell, IsConnOf};

use crate::problem::Conn;
use fp_base::{CellId, Die, LibId, NetId, Point};
use fp_tech::Dies;

/// A cell's library cell, with its width and height on each die.
#[derive(Clone, Copy)]
pub struct KeptCell {
    pub lib: LibId,
    pub top: (u32, u32),
    pub bottom: (u32, u32),
}

impl KeptCell {
    /// A cell of a library cell, or None where the technology of either die lacks it.
    pub fn of(dies: &Dies, lib: LibId) -> Option<KeptCell>
        ensures { MatchOption result
            (IsTrue (is_none (lib_for dies.now lib.0 Top) || is_none (lib_for dies.now lib.0 Bottom)))
            (λ kept. (kept.lib ≡ lib) × IsKeptCell dies.now kept) }
    {
        let top = size_on(dies, lib, Die::Top)?;
        let bottom = size_on(dies, lib, Die::Bottom)?;
        Some(KeptCell { lib, top, bottom })
    }

    /// Width and height on a die.
    pub fn size(&self, die: Die) -> (u32, u32)
        ensures { result ≡ size_kept self.now die }
    {
        match die {
            Die::Top => self.top,
            Die::Bottom => self.bottom,
        }
    }
}

/// A connection, with its pin's offset on each die.
#[derive(Clone, Copy)]
pub struct KeptConn {
    pub conn: Conn,
    pub top: (u32, u32),
    pub bottom: (u32, u32),
}

impl KeptConn {
    /// The connection of a pin of a cell of that library cell, or None where it lacks the pin on either die.
    pub fn of(dies: &Dies, lib: LibId, net: NetId, cell: CellId, pin: &[u8]) -> Option<KeptConn>
        requires top { IsSome (lib_for dies.now lib.0 Top) }
        requires bottom { IsSome (lib_for dies.now lib.0 Bottom) }
        ensures { MatchOption result
            (IsTrue (is_none (pin_for dies.now lib.0 pin.now Top) || is_none (pin_for dies.now lib.0 pin.now Bottom)))
            (IsConnOf dies.now lib.0 net cell pin.now) }
    {
        let (top_pin, top) = pin_on(dies, lib, pin, Die::Top, 0)?;
        let (bottom_pin, bottom) = pin_on(dies, lib, pin, Die::Bottom, top_pin)?;
        let conn = Conn {
            cell,
            net,
            top_pin,
            bottom_pin,
        };
        Some(KeptConn { conn, top, bottom })
    }

    /// The offset on a die.
    pub fn offset(&self, die: Die) -> (u32, u32)
        ensures { result ≡ offset_kept self.now die }
    {
        match die {
            Die::Top => self.top,
            Die::Bottom => self.bottom,
        }
    }
}

// Width and height of a library cell in the technology of a die.
fn size_on(dies: &Dies, lib: LibId, die: Die) -> Option<(u32, u32)>
    ensures { MatchOption result (lib_for dies.now lib.0 die ≡ None) (IsSizeOf (lib_for dies.now lib.0 die)) }
{
    let tech = dies.spec(die).tech;
    let book = dies.book();
    if book.has(tech, lib) {
        Some(book.size(tech, lib))
    } else {
        None
    }
}

// The number and the offset of a library cell's pin in the technology of a die. It is looked for at the number `guess`
// first: most library cells have the same pins in both technologies, in the same order.
fn pin_on(dies: &Dies, lib: LibId, name: &[u8], die: Die, guess: u32) -> Option<(u32, (u32, u32))>
    requires { IsSome (lib_for dies.now lib.0 die) }
    ensures { MatchOption result (pin_for dies.now lib.0 name.now die ≡ None)
        (λ found. IsPinOf dies.now lib.0 name.now die found.0 found.1) }
{
    let tech = dies.spec(die).tech;
    let book = dies.book();
    let (pin, at) = book.find_pin(tech, lib, guess, name)?;
    Some((pin, small(at)))
}

// An offset as the numbers that are kept.
fn small(at: Point) -> (u32, u32)
    requires x { (pos 0 ≤ℤ at.x) × (at.x ≤ℤ pos (2 ^ 30)) }
    requires y { (pos 0 ≤ℤ at.y) × (at.y ≤ℤ pos (2 ^ 30)) }
    ensures point { at ≡ point_of result }
    ensures x { result.0 ≤ 2 ^ 30 }
    ensures y { result.1 ≤ 2 ^ 30 }
{
    (at.x as u32, at.y as u32)
}

/// A kept offset as a point.
pub fn point(at: (u32, u32)) -> Point
    ensures point { result ≡ point_of at }
    ensures x { at.0 ≤ 2 ^ 30 → (pos 0 ≤ℤ result.x) × (result.x ≤ℤ pos (2 ^ 30)) }
    ensures y { at.1 ≤ 2 ^ 30 → (pos 0 ≤ℤ result.y) × (result.y ≤ℤ pos (2 ^ 30)) }
{
    Point {
        x: i64::from(at.0),
        y: i64::from(at.1),
    }
}
