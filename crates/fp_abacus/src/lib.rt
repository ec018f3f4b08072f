//! Places the cells of one row where they cost the least, by clusters.
//!
//! The way is that of Abacus (Spindler, Schlichtmann, Johannes, ISPD 2008): each cell is a cluster of its own where it would stand
//! alone, and neighbours that would overlap are joined, until each stands clear of the next. Positions are whole numbers here, and the
//! duals that show them to be the best are our own.
#![tactic(auto)]

ghost use Rattle.std.specs.Prelude.{◌≡◌, ◌+◌, ◌^◌, ◌≤◌, All, length};
ghost use Rattle.fp_rows.specs.Squares.{Feasible, IsBest, AreDuals, IsRow};

mod duals;
mod placing;
mod stack;

use fp_rows::RowCell;
pub use stack::Cluster;

/// Places the cells of a row where they cost the least, and gives duals that show it.
///
/// `lo` and `hi` are the row's ends, from 0 to 2^31, with room for the cells between them. `work` is scratch, of one entry for each
/// cell; what it holds before and after does not matter. Afterwards `xs` has the position of each cell, and `duals` has one dual
/// before the first cell and one behind each, none above 2^57. It takes time linear in the number of cells, takes no memory and
/// refuses nothing.
pub fn place_row(
    cells: &[RowCell],
    lo: i64,
    hi: i64,
    work: &mut [Cluster],
    xs: &mut [i64],
    duals: &mut [u64],
)
    requires row { IsRow cells.now lo hi }
    requires work { length work.old ≡ length cells.now }
    requires xs { length xs.old ≡ length cells.now }
    requires duals { length duals.old ≡ length cells.now + 1 }
    ensures feasible { Feasible cells.now lo hi xs.new }
    ensures best { IsBest cells.now lo hi xs.new }
    ensures duals { AreDuals cells.now lo hi xs.new duals.new }
    ensures small { All (λ dual. dual ≤ 2 ^ 57) duals.new }
{
    let width = stack::width_of_all(cells);
    let first = stack::clusters_of(cells, width, work);
    placing::place_clusters(cells, &work[first..], lo, hi - width, xs);
    duals::set_needs(cells, xs, duals);
    duals::raise_to_least(cells, xs, duals);
}

#[cfg(test)]
mod tests;
