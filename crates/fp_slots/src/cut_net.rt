//! A net that is cut, by the bounding boxes of its pins.

ghost use Rattle.std.specs.Prelude.{◌≡◌, ◌<◌, ◌≤◌, ◌^◌, ◌≤ℤ◌, ℕ, pos};
ghost use Rattle.fp_score.specs.Reaches.{IsNear};
ghost use Rattle.fp_slots.specs.CutNets.{cut_net_of, length_with, fixed_length, best_x, turned, turned_reach, IsNearNet, IsWindow};

use fp_base::{NetId, Point};
use fp_score::{Reach, Reaches};
use std::ops::Range;

/// A cut net, and the bounding box of its pins on each die.
#[derive(Clone, Copy)]
pub(crate) struct CutNet {
    pub(crate) net: NetId,
    pub(crate) top: Reach,
    pub(crate) bottom: Reach,
}

impl CutNet {
    /// The net of these bounding boxes, where it has pins on both dies: then it is cut.
    pub(crate) fn of(net: NetId, reaches: Reaches) -> Option<CutNet>
        ensures { result ≡ cut_net_of net reaches }
    {
        match (reaches.top, reaches.bottom) {
            (Some(top), Some(bottom)) => Some(CutNet { net, top, bottom }),
            _ => None,
        }
    }

    /// The net's length with its terminal there: its half-perimeter wirelength on both dies with it, at most 2^33.
    pub(crate) fn length_with(self, centre: Point) -> u64
        requires net { IsNearNet self }
        requires centre { IsNear centre }
        ensures length { pos result ≡ length_with self centre }
        ensures most { result ≤ 2 ^ 33 }
    {
        let top = self.top.stretched(centre).half_perimeter();
        let bottom = self.bottom.stretched(centre).half_perimeter();
        top + bottom
    }

    /// An x at which a terminal makes the net no longer than at any other: the further one of the left ends of both dies' bounding boxes. It
    /// lies in both of them where they meet in x, and else between them.
    pub(crate) fn best_x(self) -> i64
        ensures { result ≡ best_x self }
    {
        self.top.left.max(self.bottom.left)
    }

    /// The net with x and y exchanged.
    pub(crate) fn turned(self) -> CutNet
        ensures { result ≡ turned self }
    {
        CutNet {
            net: self.net,
            top: turned(self.top),
            bottom: turned(self.bottom),
        }
    }

    /// What the net is long with its terminal at that y, without what the terminal's x adds on either die.
    pub(crate) fn fixed_length(self, y: i64) -> u64
        requires net { IsNearNet self }
        requires least { pos 0 ≤ℤ y }
        requires most { y ≤ℤ pos (2 ^ 31) }
        ensures { pos result ≡ fixed_length self y }
    {
        let top = Point {
            x: self.top.left,
            y,
        };
        let bottom = Point {
            x: self.bottom.left,
            y,
        };
        self.top.stretched(top).half_perimeter() + self.bottom.stretched(bottom).half_perimeter()
    }

    /// Where in x a terminal at that y may make the net shorter than the limit: where what it adds on each die alone, and on both while it
    /// stands on one side of both bounding boxes, is less than what the fixed length leaves. Nowhere, if that leaves nothing.
    pub(crate) fn window(self, y: i64, limit: u64) -> Range<u64>
        requires net { IsNearNet self }
        requires least { pos 0 ≤ℤ y }
        requires most { y ≤ℤ pos (2 ^ 31) }
        ensures { IsWindow self y limit result.start result.end }
    {
        let slack = limit.saturating_sub(self.fixed_length(y));
        if slack == 0 {
            return 0..0;
        }
        let left = self.top.left.max(self.bottom.left).unsigned_abs();
        let right = self.top.right.min(self.bottom.right).unsigned_abs();
        let lefts = self.top.left.unsigned_abs() + self.bottom.left.unsigned_abs();
        let rights = self.top.right.unsigned_abs() + self.bottom.right.unsigned_abs();
        let start = (left + 1).saturating_sub(slack);
        let end = right.saturating_add(slack);
        let start_of_both = (lefts + 2).saturating_sub(slack) / 2;
        let end_of_both = rights.saturating_add(slack).div_ceil(2);
        start.max(start_of_both)..end.min(end_of_both)
    }
}

// A bounding box with x and y exchanged.
fn turned(reach: Reach) -> Reach
    ensures { result ≡ turned_reach reach }
{
    Reach {
        left: reach.low,
        right: reach.high,
        low: reach.left,
        high: reach.right,
    }
}
