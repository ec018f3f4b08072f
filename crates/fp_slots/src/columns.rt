//! Where the slots of one y stand in x, and the stripes in y.

ghost use Rattle.std.specs.Prelude.{◌≡◌, ◌<◌, ◌≤◌, ◌+◌, ◌*◌, ◌↔◌, ℕ};
ghost use Rattle.fp_tech.specs.Slots.{across, up, slot_count, column_x, row_y, pitch_x, pitch_y};

use fp_base::SlotId;
use fp_tech::Grid;

/// The columns of a grid in x: so many, the first at `first` and each next one `step` further. Or its stripes in y alike, each of
/// which is a column of the grid turned over.
#[derive(Clone, Copy)]
pub(crate) struct Columns {
    pub(crate) count: u32,
    pub(crate) first: u64,
    pub(crate) step: u64,
}

impl Columns {
    /// The columns of a grid that has slots.
    pub(crate) fn of(grid: &Grid) -> Columns
        requires slots { 0 < slot_count grid.now }
        requires some_step { 0 < grid.now.stride * pitch_x grid.now.terminal }
        ensures count { result.count ≡ across grid.now }
        ensures some_step { 0 < result.step }
        ensures places { (k : ℕ) → k < across grid.now → result.first + k * result.step ≡ column_x grid.now k }
    {
        let count = grid.across();
        let first = grid.centre(SlotId(0)).x.unsigned_abs();
        Columns {
            count,
            first,
            step: step(grid),
        }
    }

    /// The stripes of a grid that has slots.
    pub(crate) fn stripes_of(grid: &Grid) -> Columns
        requires slots { 0 < slot_count grid.now }
        requires some_step { 0 < grid.now.stride * pitch_y grid.now.terminal }
        ensures count { result.count ≡ up grid.now }
        ensures some { 0 < result.count }
        ensures some_step { 0 < result.step }
        ensures places { (k : ℕ) → k < up grid.now → result.first + k * result.step ≡ row_y grid.now k }
    {
        let count = grid.slots() / grid.across();
        let first = grid.centre(SlotId(0)).y.unsigned_abs();
        Columns {
            count,
            first,
            step: rise(grid, count),
        }
    }

    /// How many columns stand before this x. As a column's number it is the first one at or past it.
    pub(crate) fn before(self, x: u64) -> u32
        requires { 0 < self.step }
        ensures most { result ≤ self.count }
        ensures exact { (k : ℕ) → k < self.count → (k < result) ↔ (self.first + k * self.step < x) }
    {
        let before = x.saturating_sub(self.first).div_ceil(self.step);
        before.min(u64::from(self.count)) as u32
    }
}

// How far each column stands from the one before, 1 where there is but one.
fn step(grid: &Grid) -> u64
    requires slots { 0 < slot_count grid.now }
    requires some_step { 0 < grid.now.stride * pitch_x grid.now.terminal }
    ensures some { 0 < result }
    ensures steps { (k : ℕ) → k < across grid.now → column_x grid.now 0 + k * result ≡ column_x grid.now k }
{
    if grid.across() < 2 {
        return 1;
    }
    let first = grid.centre(SlotId(0)).x;
    let second = grid.centre(SlotId(1)).x;
    second.abs_diff(first)
}

// How far each stripe stands above the one before, 1 where there is but one.
fn rise(grid: &Grid, count: u32) -> u64
    requires slots { 0 < slot_count grid.now }
    requires count { count ≡ up grid.now }
    requires some_step { 0 < grid.now.stride * pitch_y grid.now.terminal }
    ensures some { 0 < result }
    ensures steps { (k : ℕ) → k < up grid.now → row_y grid.now 0 + k * result ≡ row_y grid.now k }
{
    if count < 2 {
        return 1;
    }
    let first = grid.centre(SlotId(0)).y;
    let second = grid.centre(SlotId(grid.across())).y;
    second.abs_diff(first)
}
