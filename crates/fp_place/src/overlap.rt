//! The first cell that overlaps another, where the cells are lined up on their segments in order of x.

ghost use Rattle.std.specs.Prelude.{◌≡◌, ℕ, ◌<◌, MatchBool, length};
ghost use Rattle.fp_netlist.specs.Netlist.{IsSound};
ghost use Rattle.fp_place.specs.Legal.{IsClear};
ghost use Rattle.fp_place.specs.LaneOrder.{AreRanked};
ghost use Rattle.fp_place.specs.LaneOverlaps.{OverlapsSome, IsFirst, IsLane, AreLanes, Meets, StandsApart, MeetsOn, IsApartOn, IsAmong, IsAmongLanes, IsCloseNext, IsFarNext, cell_at, earlier};

use crate::lanes::Lanes;
use crate::lined::Lined;
use crate::place::Place;
use fp_base::{CellId, Die, SegId, Side};
use fp_netlist::Problem;

/// The first cell that overlaps another, where all cells stand in order of x in the lanes of their segments.
pub fn first_overlap(problem: &Problem, places: &[Place], lined: &Lined) -> Option<CellId>
    requires places { length places.now ≡ length problem.now.cells }
    requires sound { IsSound problem.now }
    requires ranked { AreRanked problem.now places.now lined.now.top lined.now.bottom }
    ensures { IsFirst (OverlapsSome problem.now places.now) (λ cell. IsClear problem.now places.now cell.0)
        (λ cell. cell.0 < length problem.now.cells) result }
{
    let top = first_on(problem, places, &lined.top);
    let bottom = first_on(problem, places, &lined.bottom);
    earlier(top, bottom)
}

// The first cell of a die that overlaps another on its lane.
fn first_on<S: Side>(problem: &Problem, places: &[Place], lanes: &Lanes<S>) -> Option<CellId>
    requires places { length places.now ≡ length problem.now.cells }
    requires lanes { AreLanes problem.now places.now S.DIE lanes.now }
    ensures { IsFirst (MeetsOn problem.now places.now lanes.now) (IsApartOn problem.now places.now lanes.now)
        (IsAmongLanes lanes.now (length lanes.now)) result }
{
    let mut first = None;
    for segment in 0..lanes.len() as u32 {
        let lane = lanes.lane(SegId::new(segment));
        first = earlier(first, first_in(problem, places, S::DIE, lane));
    }
    first
}

// The first cell of a lane that overlaps another of it: its x lies before the end of a cell before it, or the next cell's x before its
// own end.
fn first_in(problem: &Problem, places: &[Place], die: Die, lane: &[CellId]) -> Option<CellId>
    requires places { length places.now ≡ length problem.now.cells }
    requires lane { IsLane problem.now places.now die lane.now }
    ensures { IsFirst (Meets problem.now places.now lane.now) (StandsApart problem.now places.now lane.now)
        (IsAmong lane.now (length lane.now)) result }
{
    let mut first = None;
    let mut reach = 0;
    for (rank, cell) in lane.iter().enumerate() {
        let place = places[cell.0 as usize];
        let end = place.x + problem.width(*cell, die);
        if place.x < reach || is_next_before(places, lane, rank + 1, end) {
            first = earlier(first, Some(*cell));
        }
        reach = reach.max(end);
    }
    first
}

// Whether a lane has a cell of this rank, and it starts before an end.
fn is_next_before(places: &[Place], lane: &[CellId], rank: usize, end: i64) -> bool
    requires { (k : ℕ) → k < length lane.now → (cell_at lane.now k).0 < length places.now }
    ensures { MatchBool result (IsCloseNext places.now lane.now rank end) (IsFarNext places.now lane.now rank end) }
{
    if rank < lane.len() {
        let place = places[lane[rank].0 as usize];
        place.x < end
    } else {
        false
    }
}

// The lesser of two cells, where there are any.
fn earlier(first: Option<CellId>, second: Option<CellId>) -> Option<CellId>
    ensures { result ≡ earlier first second }
{
    match (first, second) {
        (Some(one), Some(other)) => Some(if other.0 < one.0 { other } else { one }),
        (Some(one), None) => Some(one),
        (None, other) => other,
    }
}
