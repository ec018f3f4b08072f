//! Clusters, and how the cells of a row make them.

ghost use Rattle.std.specs.Prelude.{◌≡◌, ◌+◌, ◌^◌, ◌<◌, ◌≤◌, ◌-ℤ◌, ◌+ℤ◌, ◌*ℤ◌, ◌≤ℤ◌, pos, length, drop};
ghost use Rattle.fp_rows.specs.Squares.{AreCells, IsCell, width_of};
ghost use Rattle.fp_rows.specs.Runs.{span};
ghost use Rattle.fp_abacus.specs.Stacks.{IsMoment, IsLevel, IsMade, AreClusters, AreClustersBehind};

use fp_rows::RowCell;

/// Scratch of [`place_row`](crate::place_row): a run of neighbouring cells that touch.
///
/// The level of a cell is its position less the widths of the cells before it. So the cells of a cluster have one level.
#[derive(Clone, Copy)]
pub struct Cluster {
    pub(crate) cells: usize,
    weight: i64,
    /// The sum of each weight times the level of the target.
    moment: i64,
    /// The least level from which the cells' cost rises, which is where they cost the least.
    pub(crate) level: i64,
}

/// The least level from which the cost of cells of this weight and moment rises.
fn least_level(weight: i64, moment: i64) -> i64
    requires { IsMoment weight moment }
    ensures { IsLevel weight moment result }
{
    -(weight - 2 * moment).div_euclid(2 * weight)
}

impl Cluster {
    /// Scratch that is no cluster yet.
    pub const EMPTY: Cluster = Cluster {
        cells: 0,
        weight: 0,
        moment: 0,
        level: 0,
    };

    fn new(cells: usize, weight: i64, moment: i64) -> Cluster
        requires { IsMoment weight moment }
        ensures { IsMade cells weight moment result }
    {
        Cluster {
            cells,
            weight,
            moment,
            level: least_level(weight, moment),
        }
    }

    /// A cell alone, with cells of the width `before` in front of it.
    fn of(cell: RowCell, before: i64) -> Cluster
        requires cell { IsCell cell }
        requires weight { cell.weight ≤ℤ pos (2 ^ 22) }
        requires from { pos 0 ≤ℤ before }
        requires to { before ≤ℤ pos (2 ^ 31) }
        ensures { IsMade 1 cell.weight (cell.weight *ℤ (cell.target -ℤ before)) result }
    {
        Cluster::new(1, cell.weight, cell.weight * (cell.target - before))
    }

    /// This cluster and the one behind it as one.
    fn joined(self, behind: Cluster) -> Cluster
        requires cells { self.cells + behind.cells < 2 ^ 64 }
        requires first { IsMoment self.weight self.moment }
        requires second { IsMoment behind.weight behind.moment }
        requires weight { (self.weight +ℤ behind.weight) ≤ℤ pos (2 ^ 22) }
        ensures { IsMade (self.cells + behind.cells) (self.weight +ℤ behind.weight)
            (self.moment +ℤ behind.moment) result }
    {
        Cluster::new(
            self.cells + behind.cells,
            self.weight + behind.weight,
            self.moment + behind.moment,
        )
    }
}

/// The widths of the cells, in all.
pub fn width_of_all(cells: &[RowCell]) -> i64
    requires cells { AreCells cells.now }
    requires small { span width_of cells.now ≤ℤ pos (2 ^ 31) }
    ensures { result ≡ span width_of cells.now }
{
    let mut width = 0;
    for cell in cells {
        width += cell.width;
    }
    width
}

/// Puts the cell at `i` in front of the clusters from `first` on, as one with those that it would overlap, and gives where the
/// clusters begin now.
fn add_cell(cells: &[RowCell], i: usize, before: i64, work: &mut [Cluster], first: usize) -> usize
    requires cells { AreCells cells.now }
    requires work { length work.old ≡ length cells.now }
    requires behind { i < first }
    requires within { first ≤ length cells.now }
    requires from { pos 0 ≤ℤ before }
    requires to { before ≤ℤ pos (2 ^ 31) }
    requires clusters { AreClustersBehind before (drop i cells.now) (drop first work.old) }
    ensures at_least { i ≤ result }
    ensures at_most { result ≤ length cells.now }
    ensures clusters { AreClusters before (drop i cells.now) (drop result work.new) }
{
    let mut next = first;
    let mut added = Cluster::of(cells[i], before);
    while next < work.len() && work[next].level < added.level {
        added = added.joined(work[next]);
        next += 1;
    }
    work[next - 1] = added;
    next - 1
}

/// Makes the clusters of all cells, whose widths sum to `width`, at the end of `work`, and gives where they begin.
pub fn clusters_of(cells: &[RowCell], width: i64, work: &mut [Cluster]) -> usize
    requires cells { AreCells cells.now }
    requires work { length work.old ≡ length cells.now }
    requires width { width ≡ span width_of cells.now }
    requires small { width ≤ℤ pos (2 ^ 31) }
    ensures within { result ≤ length cells.now }
    ensures clusters { AreClusters (pos 0) cells.now (drop result work.new) }
{
    let mut first = cells.len();
    let mut before = width;
    for i in (0..cells.len()).rev() {
        before -= cells[i].width;
        first = add_cell(cells, i, before, work, first);
    }
    first
}
