//! Positions from clusters.

ghost use Rattle.std.specs.Prelude.{◌≡◌, ◌+◌, ◌^◌, ◌≤◌, ◌++◌, ◌+ℤ◌, ◌≤ℤ◌, pos, length, take};
ghost use Rattle.std.specs.List.{AllByRecursion};
ghost use Rattle.fp_rows.specs.Squares.{AreCells, IsCell, width_of};
ghost use Rattle.fp_rows.specs.Runs.{span, packed};
ghost use Rattle.fp_abacus.specs.Stacks.{AreClusters, places};

use crate::stack::Cluster;
use fp_rows::RowCell;

/// Sets touching cells from a position on, the first as the cell at `start`, and gives where they end.
fn pack(run: &[RowCell], position: i64, xs: &mut [i64], start: usize) -> i64
    requires cells { AllByRecursion IsCell run.now }
    requires from { pos 0 ≤ℤ position }
    requires to { (position +ℤ span width_of run.now) ≤ℤ pos (2 ^ 31) }
    requires room { start + length run.now ≤ length xs.old }
    ensures end { result ≡ position +ℤ span width_of run.now }
    ensures placed { take (start + length run.now) xs.new ≡ take start xs.old ++ packed width_of position run.now }
{
    let mut end = position;
    for (i, cell) in run.iter().enumerate() {
        xs[start + i] = end;
        end += cell.width;
    }
    end
}

/// Sets the positions of all cells, with each cluster's level between `lo` and `top`.
pub fn place_clusters(cells: &[RowCell], clusters: &[Cluster], lo: i64, top: i64, xs: &mut [i64])
    requires cells { AreCells cells.now }
    requires clusters { AreClusters (pos 0) cells.now clusters.now }
    requires start { pos 0 ≤ℤ lo }
    requires ordered { lo ≤ℤ top }
    requires finish { (top +ℤ span width_of cells.now) ≤ℤ pos (2 ^ 31) }
    requires xs { length xs.old ≡ length cells.now }
    ensures { xs.new ≡ places lo top (pos 0) cells.now clusters.now }
{
    let mut placed = 0;
    let mut before = 0;
    for cluster in clusters {
        let level = cluster.level.clamp(lo, top);
        let end = placed + cluster.cells;
        before = pack(&cells[placed..end], level + before, xs, placed) - level;
        placed = end;
    }
}
