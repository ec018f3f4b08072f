//! How often the lines of a file name a number, and the place that they tell.

ghost use Rattle.std.specs.Prelude.{◌≡◌, ◌<◌, IfOk, replicate, Option};
ghost use Rattle.fp_place.specs.Drawing.{centre_of};
ghost use Rattle.fp_place.specs.Seen.{seen_again, noted, all_noted, cell_number, corner_of, net_number, place_seen};

use crate::drawn::{DrawnCell, DrawnTerminal};
use fp_base::{NoMemory, Point};
use std::alloc::Global;

/// What the lines tell of a number: none names it, one does and tells a place, or several do.
#[derive(Clone, Copy, Debug)]
pub enum Seen {
    Never,
    Once(Point),
    Often,
}

impl Seen {
    // What is told after one more line.
    fn again(self, at: Point) -> Seen
        ensures { result ≡ seen_again self at }
    {
        match self {
            Seen::Never => Seen::Once(at),
            Seen::Once(_) | Seen::Often => Seen::Often,
        }
    }

    /// The place that one line tells.
    pub fn place(self) -> Option<Point>
        ensures { result ≡ place_seen self }
    {
        match self {
            Seen::Once(at) => Some(at),
            Seen::Never | Seen::Often => None,
        }
    }
}

// Notes a line of a number; one past the end counts nowhere.
fn note(seen: &mut Vec<Seen>, number: u32, at: Point)
    ensures { seen.new.items ≡ noted seen.old.items number at }
{
    let number = number as usize;
    if number < seen.len() {
        let again = seen[number].again(at);
        seen[number] = again;
    }
}

// A cell's lower left corner.
fn corner(line: &DrawnCell) -> Point
    ensures { result ≡ corner_of line.now }
{
    Point {
        x: line.x,
        y: line.y,
    }
}

/// The centre of a terminal.
pub fn centre(line: &DrawnTerminal) -> Point
    ensures { result ≡ centre_of line.now }
{
    Point {
        x: line.x,
        y: line.y,
    }
}

/// What the lines tell of each of so many cells.
pub fn seen_cells(alloc: Global, cells: u32, lines: &[DrawnCell]) -> Result<Vec<Seen>, NoMemory>
    ensures { IfOk result (λ seen. seen.items ≡ all_noted cell_number corner_of (replicate cells Seen.Never) lines.now) }
{
    let mut seen = vec![in alloc; Seen::Never; cells as usize]?;
    for line in lines {
        note(&mut seen, line.cell.0, corner(line));
    }
    Ok(seen)
}

/// What the lines tell of each of so many nets.
pub fn seen_terminals(
    alloc: Global,
    nets: u32,
    lines: &[DrawnTerminal],
) -> Result<Vec<Seen>, NoMemory>
    ensures { IfOk result (λ seen. seen.items ≡ all_noted net_number centre_of (replicate nets Seen.Never) lines.now) }
{
    let mut seen = vec![in alloc; Seen::Never; nets as usize]?;
    for line in lines {
        note(&mut seen, line.net.0, centre(line));
    }
    Ok(seen)
}
