//! Condition 4: the first trial has the seed's cells where they are, in order of x, each with its own place as target.

ghost use Rattle.std.specs.Prelude.{◌≡◌, ◌↔◌, ◌<◌, ◌+ℤ◌, ℕ, All, IsTrue, length, map};
ghost use Rattle.fp_place.specs.Drawing.{IsCoordinate};
ghost use Rattle.fp_place.specs.Places.{place_at};
ghost use Rattle.fp_place.specs.Placed.{place_of, places_of, StandBetween, IsInOrder, IsPlacementOf};
ghost use Rattle.fp_place.specs.PlacedLaws.{LiesInRange};
ghost use Rattle.fp_score.specs.Score.{corner};
ghost use Rattle.fp_check.specs.Seeds.{StandAlike, StartsLike, IsDieInOrder};

use crate::views::Layout;
use fp_base::{CellId, Die, Point};
use fp_netlist::Problem;
use fp_place::{Placement, Spot};
use fp_tech::Segment;

/// Whether a layout has the cells of a seed's placement where they are, in order of x, each with its own place as target.
pub fn starts_like(problem: &Problem, seed: &Placement, layout: &Layout) -> bool
    requires seed { IsPlacementOf problem.now seed.now }
    requires placement { IsPlacementOf problem.now layout.now.placement }
    requires targets { length layout.now.targets.items ≡ length problem.now.cells }
    ensures { IsTrue result ↔ StartsLike problem.now seed.now layout.now.placement layout.now.targets.items }
{
    stand_alike(problem, seed, &layout.placement)
        && is_in_order(problem, &layout.placement)
        && aim_at_places(problem, &layout.placement, &layout.targets)
}

/// Whether each cell of two placements is on one segment, at one x.
fn stand_alike(problem: &Problem, seed: &Placement, placement: &Placement) -> bool
    requires seed { IsPlacementOf problem.now seed.now }
    requires placement { IsPlacementOf problem.now placement.now }
    ensures { IsTrue result ↔ ((cell : ℕ) → cell < length problem.now.cells → StandAlike seed.now placement.now cell) }
{
    for number in 0..problem.cells() {
        let cell = CellId(number);
        if !is_alike(seed.spot(cell), placement.spot(cell)) {
            return false;
        }
    }
    true
}

/// Whether two spots are on one segment, at one x.
fn is_alike(from: Spot, to: Spot) -> bool
    ensures { IsTrue result ↔ ((to.die ≡ from.die) × (to.segment ≡ from.segment) × (to.x ≡ from.x)) }
{
    to.die == from.die && to.segment == from.segment && to.x == from.x
}

/// Whether the cells of each segment stand in their order without overlap, within the segment.
fn is_in_order(problem: &Problem, placement: &Placement) -> bool
    requires { IsPlacementOf problem.now placement.now }
    ensures { IsTrue result ↔ IsInOrder problem.now placement.now }
{
    is_die_in_order(problem, placement, Die::Top)
        && is_die_in_order(problem, placement, Die::Bottom)
}

/// The same on one die.
fn is_die_in_order(problem: &Problem, placement: &Placement, die: Die) -> bool
    requires { IsPlacementOf problem.now placement.now }
    ensures { IsTrue result ↔ IsDieInOrder problem.now placement.now die }
{
    let segments = problem.dies().segments_of(die);
    let _cells = problem.cells();
    for number in 0..segments.len() {
        let lane = placement.lane(die, number as u32);
        if !stand_between(problem, placement, die, &segments[number], lane) {
            return false;
        }
    }
    true
}

/// Whether cells stand in their order without overlap, within a segment.
fn stand_between(
    problem: &Problem,
    placement: &Placement,
    die: Die,
    segment: &Segment,
    lane: &[CellId],
) -> bool
    requires placement { IsPlacementOf problem.now placement.now }
    requires within { All (λ cell. cell.0 < length problem.now.cells) lane.now }
    requires segment { LiesInRange segment.now }
    ensures { IsTrue result ↔ StandBetween problem.now die (places_of placement.now) segment.now.start (segment.now.start +ℤ segment.now.length) lane.now }
{
    let mut from = segment.start;
    for cell in lane {
        let x = x_of(problem, placement, *cell);
        if x < from {
            return false;
        }
        from = x + problem.width(*cell, die);
    }
    from <= segment.start + segment.length
}

/// The x of a cell.
fn x_of(problem: &Problem, placement: &Placement, cell: CellId) -> i64
    requires placement { IsPlacementOf problem.now placement.now }
    requires within { cell.0 < length problem.now.cells }
    ensures x { result ≡ (place_at (places_of placement.now) cell.0).x }
    ensures range { IsCoordinate result }
{
    placement.spot(cell).x
}

/// Whether each cell's target is its own place.
fn aim_at_places(problem: &Problem, placement: &Placement, targets: &[Point]) -> bool
    requires placement { IsPlacementOf problem.now placement.now }
    requires targets { length targets.now ≡ length problem.now.cells }
    ensures { IsTrue result ↔ (targets.now ≡ map corner (places_of placement.now)) }
{
    for number in 0..problem.cells() {
        let spot = placement.spot(CellId(number));
        if !is_corner(targets[number as usize], spot) {
            return false;
        }
    }
    true
}

/// Whether a point is where a spot is.
fn is_corner(point: Point, spot: Spot) -> bool
    ensures { IsTrue result ↔ (point ≡ corner (place_of spot)) }
{
    point.x == spot.x && point.y == spot.y
}
