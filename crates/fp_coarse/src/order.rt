//! The orders that cells are taken and laid in.

ghost use Rattle.std.specs.Prelude.{◌≡◌, ◌<◌, ◌^◌, ◌-ℤ◌, ◌≤ℤ◌, pos, All, map, length, IfOk};
ghost use Rattle.fp_netlist.specs.Points.{width};
ghost use Rattle.fp_place.specs.Places.{die_at, same_die};
ghost use Rattle.fp_score.specs.Pick.{widest_first};
ghost use Rattle.fp_coarse.specs.Orders.{numbers_of, entries_on, AreByTarget};

use fp_base::{CellId, Die, NoMemory, Point};
use fp_netlist::Problem;
use std::alloc::Global;

/// A cell and the segment that it took.
#[derive(Clone, Copy)]
pub struct Choice {
    pub cell: CellId,
    pub segment: u32,
}

/// The cells of a die, widest first, and in file order among equal widths.
pub fn widest_first(
    alloc: Global,
    problem: &Problem,
    dies: &[Die],
    die: Die,
) -> Result<Vec<CellId>, NoMemory>
    requires { length dies.now ≡ length problem.now.cells }
    ensures order { IfOk result (λ cells. numbers_of cells.items ≡ widest_first problem.now dies.now die) }
    ensures within { IfOk result (λ cells. All (λ cell. cell.0 < length problem.now.cells) cells.items) }
{
    let mut entries = entries_on(alloc, problem, dies, die)?;
    entries.sort_unstable();
    cells_of(alloc, entries.as_slice())
}

// The cells of a die in file order, each with the negative of its width before it.
fn entries_on(
    alloc: Global,
    problem: &Problem,
    dies: &[Die],
    die: Die,
) -> Result<Vec<(i64, u32)>, NoMemory>
    requires { length dies.now ≡ length problem.now.cells }
    ensures { IfOk result (λ entries. entries.items ≡ entries_on problem.now dies.now die) }
{
    let mut entries = Vec::new(alloc);
    for cell in 0..problem.cells() {
        if is_on(dies, CellId(cell), die) {
            entries.push((narrowness(problem, CellId(cell), die), cell))?;
        }
    }
    Ok(entries)
}

// The negative of a cell's width, which is least for the widest cell.
fn narrowness(problem: &Problem, cell: CellId, die: Die) -> i64
    requires { cell.0 < length problem.now.cells }
    ensures value { result ≡ pos 0 -ℤ pos (width problem.now cell.0 die) }
    ensures low { (pos 0 -ℤ pos (2 ^ 30)) ≤ℤ result }
    ensures high { result ≤ℤ pos 0 }
{
    -problem.width(cell, die)
}

// Whether a cell is on a die.
fn is_on(dies: &[Die], cell: CellId, die: Die) -> bool
    requires { cell.0 < length dies.now }
    ensures { result ≡ same_die (die_at dies.now cell.0) die }
{
    dies[cell.0 as usize] == die
}

// The cells alone.
fn cells_of(alloc: Global, entries: &[(i64, u32)]) -> Result<Vec<CellId>, NoMemory>
    ensures { IfOk result (λ cells. cells.items ≡ map (λ entry. record { 0 = entry.1 }) entries.now) }
{
    let cells = entries.iter().map(|entry| CellId(entry.1)).collect(alloc)?;
    Ok(cells)
}

/// Each choice as its target in x, its cell and its segment, in order of these.
pub fn by_target(
    alloc: Global,
    targets: &[Point],
    choices: &[Choice],
) -> Result<Vec<(i64, u32, u32)>, NoMemory>
    requires { All (λ choice. choice.cell.0 < length targets.now) choices.now }
    ensures { IfOk result (λ entries. AreByTarget targets.now choices.now entries.items) }
{
    let mut entries = Vec::with_capacity(alloc, choices.len())?;
    for choice in choices {
        let cell = choice.cell.0;
        let target = targets[cell as usize];
        entries.push((target.x, cell, choice.segment))?;
    }
    entries.sort_unstable();
    Ok(entries)
}
