//! The grid of slots, on which terminals stand.

ghost use Rattle.std.specs.Prelude.{◌≡◌, ℕ, ◌+◌, ◌*◌, ◌<◌, ◌≤◌, ◌^◌, ◌↔◌, IsTrue, pos};
ghost use Rattle.fp_tech.specs.Plan.{IsFrame, IsTermSpec};
ghost use Rattle.fp_tech.specs.Slots.{Slots, margin, axis_count, pitch_x, pitch_y, across, up, slot_count, stripe_of, slot_limit, centre_of, grid_with, IsGrid, IsLeast, CountsAreExact, KeepsEdges, AreApart};

use crate::dies::{Dies, Frame, TermSpec};
use fp_base::{Point, SlotId};
use std::alloc::AllocError;
use std::marker::Model;

/// The slots of a frame and a terminal: every place of a terminal on both axes, or every `stride`-th, where the
/// stride is the least that leaves at most 2^20 slots. They are numbered in rows of rising x, rows by rising y.
/// The rules that they keep are the contest's; the grid is our own.
#[derive(Debug)]
pub struct Grid {
    frame: Frame,
    terminal: TermSpec,
    stride: u32,
    across: u32,
    up: u32,
    first_x: u32,
    first_y: u32,
    step_x: u64,
    step_y: u64,
}

impl Model for Grid {
    ghost use Rattle.fp_tech.specs.Slots.{Slots};

    ghost Value = { Slots };

    ghost use Rattle.fp_tech.specs.KeptGrid.{slots_of, fields_of, IsKept, fields_again};

    ghost view = { slots_of };

    ghost invariant = { IsKept };

    ghost inverse = { fields_of };

    ghost inverse_ok = { fields_again };
}

impl Clone for Grid {
    ghost is_clone = { λ old new. new ≡ old };

    fn clone(&self) -> Result<Self, AllocError> {
        Ok(*self)
    }
}

impl Copy for Grid {}

impl Grid {
    /// The grid of dies: of their frame and terminal. Its slots keep the contest's rules of distance from the edges and
    /// from each other.
    pub fn of(dies: &Dies) -> Grid
        ensures grid { IsGrid dies.now.frame dies.now.terminal result }
        ensures counts { (stride : ℕ) → 1 ≤ stride → CountsAreExact (grid_with dies.now.frame dies.now.terminal stride) }
        ensures edges { (s : ℕ) → s < slot_count result → KeepsEdges dies.now.frame dies.now.terminal (centre_of result s) }
        ensures apart { (s t : ℕ) → s < t → t < slot_count result
            → AreApart dies.now.terminal (centre_of result s) (centre_of result t) }
    {
        grid_of(dies.frame(), dies.terminal())
    }

    /// The number of slots, at most 2^20.
    pub fn slots(&self) -> u32
        ensures count { result ≡ slot_count self.now }
        ensures few { result ≤ slot_limit }
    {
        self.across * self.up
    }

    /// The number of slots of one y, 1 where there is no slot.
    pub fn across(&self) -> u32
        ensures { result ≡ stripe_of self.now }
    {
        if self.slots() == 0 { 1 } else { self.across }
    }

    /// The centre of a slot, which is below `slots`.
    pub fn centre(&self, slot: SlotId) -> Point
        requires { slot.0 < slot_count self.now }
        ensures { result ≡ centre_of self.now slot.0 }
    {
        let x = place(self.first_x, self.step_x, slot.0 % self.across);
        let y = place(self.first_y, self.step_y, slot.0 / self.across);
        Point { x, y }
    }
}

fn place(first: u32, step: u64, steps: u32) -> i64
    requires { first + steps * step ≤ 2 ^ 30 }
    ensures { result ≡ pos (first + steps * step) }
{
    (u64::from(first) + u64::from(steps) * step) as i64
}

// The grid of a frame and a terminal.
fn grid_of(frame: Frame, terminal: TermSpec) -> Grid
    requires frame { IsFrame frame }
    requires terminal { IsTermSpec terminal }
    ensures grid { IsGrid frame terminal result }
    ensures counts { (stride : ℕ) → 1 ≤ stride → CountsAreExact (grid_with frame terminal stride) }
    ensures edges { (s : ℕ) → s < slot_count result → KeepsEdges frame terminal (centre_of result s) }
    ensures apart { (s t : ℕ) → s < t → t < slot_count result
        → AreApart terminal (centre_of result s) (centre_of result t) }
{
    let stride = least_stride(frame, terminal);
    let (across, up) = counts_at(frame, terminal, stride);
    Grid {
        frame,
        terminal,
        stride,
        across,
        up,
        first_x: frame.llx + edge_margin(terminal.size_x, terminal.spacing),
        first_y: frame.lly + edge_margin(terminal.size_y, terminal.spacing),
        step_x: u64::from(stride) * u64::from(terminal.size_x + terminal.spacing),
        step_y: u64::from(stride) * u64::from(terminal.size_y + terminal.spacing),
    }
}

// A stride at which the counts on both axes are at most 513, whatever the frame.
const WIDEST: u32 = 2_097_152;

// The least stride that leaves few enough slots, by bisection: the slots get fewer as the stride grows.
fn least_stride(frame: Frame, terminal: TermSpec) -> u32
    requires frame { IsFrame frame }
    requires terminal { IsTermSpec terminal }
    ensures some { 1 ≤ result }
    ensures small { result ≤ 2 ^ 21 }
    ensures few { slot_count (grid_with frame terminal result) ≤ slot_limit }
    ensures least { IsLeast frame terminal result }
{
    let mut low = 1;
    let mut high = WIDEST;
    while low < high {
        let middle = (low + high) / 2;
        if is_few(frame, terminal, middle) {
            high = middle;
        } else {
            low = middle + 1;
        }
    }
    high
}

fn is_few(frame: Frame, terminal: TermSpec, stride: u32) -> bool
    requires frame { IsFrame frame }
    requires terminal { IsTermSpec terminal }
    requires some { 1 ≤ stride }
    requires small { stride ≤ 2 ^ 21 }
    ensures { IsTrue result ↔ (slot_count (grid_with frame terminal stride) ≤ slot_limit) }
{
    let (across, up) = counts_at(frame, terminal, stride);
    u64::from(across) * u64::from(up) <= 1 << 20
}

// How many slots stand in a row, and how many rows.
#[tactic(auto, using(crate::specs::SlotsLaws::step_some), unfolding(crate::specs::Slots::across, crate::specs::Slots::up))]
fn counts_at(frame: Frame, terminal: TermSpec, stride: u32) -> (u32, u32)
    requires frame { IsFrame frame }
    requires terminal { IsTermSpec terminal }
    requires some { 1 ≤ stride }
    requires small { stride ≤ 2 ^ 21 }
    ensures across { result.0 ≡ across (grid_with frame terminal stride) }
    ensures up { result.1 ≡ up (grid_with frame terminal stride) }
{
    let edge_x = edge_margin(terminal.size_x, terminal.spacing);
    let edge_y = edge_margin(terminal.size_y, terminal.spacing);
    let step_x = u64::from(stride) * u64::from(terminal.size_x + terminal.spacing);
    let step_y = u64::from(stride) * u64::from(terminal.size_y + terminal.spacing);
    let across = count_along(frame.llx, frame.urx, edge_x, step_x);
    let up = count_along(frame.lly, frame.ury, edge_y, step_y);
    (across, up)
}

// How many centres stand between two edges.
fn count_along(low: u32, high: u32, edge: u32, step: u64) -> u32
    requires ends { low < high }
    requires high { high ≤ 2 ^ 30 }
    requires edge { edge ≤ 2 ^ 31 }
    requires step { 0 < step }
    ensures { result ≡ axis_count low high edge step }
{
    let taken = u64::from(low) + 2 * u64::from(edge);
    let end = u64::from(high);
    if taken <= end {
        ((end - taken) / step + 1) as u32
    } else {
        0
    }
}

fn edge_margin(size: u32, spacing: u32) -> u32
    requires size { size ≤ 2 ^ 30 }
    requires spacing { spacing ≤ 2 ^ 30 }
    ensures value { result ≡ margin size spacing }
    ensures small { result ≤ 2 ^ 31 }
{
    spacing + (size + 1) / 2
}

#[cfg(test)]
mod tests {
    use super::*;
    use std::process::Abort;

    fn expect_slot(
        rt: &impl Abort,
        frame: Frame,
        terminal: TermSpec,
        slots: u32,
        slot: u32,
        centre: Point,
    )
        requires frame { IsFrame frame }
        requires terminal { IsTermSpec terminal }
    {
        let grid = grid_of(frame, terminal);
        assert_eq!(rt; grid.slots(), slots);
        assert!(rt; slot < slots);
        assert_eq!(rt; grid.centre(SlotId(slot)), centre);
    }

    #[test]
    fn slots_of_small_frames(rt: HostRuntime) {
        let frame = Frame {
            llx: 0,
            lly: 0,
            urx: 20,
            ury: 20,
        };
        let terminal = TermSpec {
            size_x: 2,
            size_y: 2,
            spacing: 1,
            cost: 0,
        };
        expect_slot(&rt, frame, terminal, 36, 7, Point { x: 5, y: 5 });
        let wide = TermSpec {
            size_x: 10,
            size_y: 10,
            spacing: 4,
            cost: 0,
        };
        expect_slot(&rt, frame, wide, 1, 0, Point { x: 9, y: 9 });
        let tight = Frame {
            llx: 3,
            lly: 3,
            urx: 20,
            ury: 20,
        };
        assert_eq!(&rt; grid_of(tight, wide).slots(), 0);
    }

    #[test]
    fn stride_of_a_large_frame(rt: HostRuntime) {
        let frame = Frame {
            llx: 0,
            lly: 0,
            urx: 4096,
            ury: 4096,
        };
        let terminal = TermSpec {
            size_x: 1,
            size_y: 1,
            spacing: 1,
            cost: 0,
        };
        expect_slot(&rt, frame, terminal, 1_048_576, 0, Point { x: 2, y: 2 });
        expect_slot(
            &rt,
            frame,
            terminal,
            1_048_576,
            1_048_575,
            Point { x: 4094, y: 4094 },
        );
        assert_eq!(&rt; grid_of(frame, terminal).across(), 1024);
    }
}
