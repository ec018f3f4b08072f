//! The nearest segment with room.

ghost use Rattle.std.specs.Prelude.{◌≡◌, ◌↔◌, ℕ, ◌+◌, ◌-◌, ◌<◌, ◌≤◌, ◌^◌, ◌≤ℤ◌, ◌<ℤ◌, ◌+ℤ◌, ◌-ℤ◌, pos, Bool, true, false, Option, Some, None, IsTrue, MatchOption, length, unsigned_abs};
ghost use Rattle.std.specs.Int.{int_min, int_max};
ghost use Rattle.fp_score.specs.Pick.{distance_to};
ghost use Rattle.fp_coarse.specs.Nearest.{IsLeastOrNone, IsNear, IsNearPoint, at, reach_to, IsSegment, AreSegments, IsHull, CanSearch, IsBestOf, is_beaten, is_passed, earlier, later, cost_at, cost_of, AreFree, is_behind, IsFirstBehind, IsNearestOf};
ghost use Rattle.fp_coarse.specs.Rooms.{has_free, AreRooms};

use crate::rooms::Rooms;
use fp_base::Point;
use fp_tech::Segment;

/// The least interval in x that all segments of a die lie in.
#[derive(Clone, Copy)]
pub struct Hull {
    pub low: i64,
    pub high: i64,
}

/// What a segment is searched for: a cell's width and target, and how far the target is at least from each segment with room in x.
#[derive(Clone, Copy)]
pub struct Aim {
    pub width: i64,
    pub target: Point,
    pub side: u64,
}

/// A segment, and how far its cell is moved to it.
#[derive(Clone, Copy)]
pub struct Found {
    pub segment: usize,
    pub cost: u64,
}

/// Segments of one row next to each other, from a number up or down: the nearest of those with room, and where they end.
#[derive(Clone, Copy)]
pub struct Stretch {
    pub nearest: usize,
    pub end: usize,
}

/// The hull of segments.
pub fn hull_of(segments: &[Segment]) -> Hull
    requires { AreSegments segments.now }
    ensures { IsHull segments.now result }
{
    let mut hull = Hull {
        low: 1 << 30,
        high: 0,
    };
    for segment in segments {
        hull = widened(hull, segment);
    }
    hull
}

// A hull, widened as far as it has a segment in it.
fn widened(hull: Hull, segment: &Segment) -> Hull
    requires { IsSegment segment.now }
    ensures low { result.low ≡ int_min hull.low segment.now.start }
    ensures high { result.high ≡ int_max hull.high (segment.now.start +ℤ segment.now.length) }
{
    Hull {
        low: hull.low.min(segment.start),
        high: hull.high.max(end_of(segment)),
    }
}

// How far a coordinate is from an interval.
fn distance(from: i64, to: i64, at: i64) -> u64
    requires from { IsNear from }
    requires to { IsNear to }
    requires at { IsNear at }
    ensures value { result ≡ distance_to from to at }
    ensures small { result ≤ 2 ^ 34 }
{
    at.abs_diff(from.max(at.min(to)))
}

// How far a target is from a segment's row in y.
fn rise(segment: &Segment, target: Point) -> u64
    requires segment { IsSegment segment.now }
    requires target { IsNearPoint target }
    ensures value { result ≡ unsigned_abs (segment.now.y -ℤ target.y) }
    ensures small { result ≤ 2 ^ 48 }
{
    segment.y.abs_diff(target.y)
}

// Where a segment ends in x.
fn end_of(segment: &Segment) -> i64
    requires { IsSegment segment.now }
    ensures value { result ≡ segment.now.start +ℤ segment.now.length }
    ensures least { pos 0 ≤ℤ result }
    ensures most { result ≤ℤ pos (2 ^ 31) }
{
    segment.start + segment.length
}

// The greatest x of a cell of a width that ends at most there.
fn last_x(end: i64, width: i64) -> i64
    requires least { pos 0 ≤ℤ end }
    requires most { end ≤ℤ pos (2 ^ 31) }
    requires some { pos 1 ≤ℤ width }
    requires small { width ≤ℤ pos (2 ^ 30) }
    ensures value { result ≡ end -ℤ width }
    ensures near { IsNear result }
{
    end - width
}

// How far a cell is moved to a segment.
fn cost_to(segment: &Segment, aim: Aim) -> u64
    requires segment { IsSegment segment.now }
    requires some { pos 1 ≤ℤ aim.width }
    requires small { aim.width ≤ℤ pos (2 ^ 30) }
    requires target { IsNearPoint aim.target }
    ensures { result ≡ unsigned_abs (segment.now.y -ℤ aim.target.y) + reach_to segment.now aim.width aim.target.x }
{
    let last = last_x(end_of(segment), aim.width);
    rise(segment, aim.target) + distance(segment.start, last, aim.target.x)
}

// A segment, and how far the cell is moved to it.
fn found_at(segments: &[Segment], aim: Aim, number: usize) -> Found
    requires segments { AreSegments segments.now }
    requires some { pos 1 ≤ℤ aim.width }
    requires small { aim.width ≤ℤ pos (2 ^ 30) }
    requires target { IsNearPoint aim.target }
    requires within { number < length segments.now }
    ensures segment { result.segment ≡ number }
    ensures cost { result.cost ≡ cost_of segments.now aim number }
{
    Found {
        segment: number,
        cost: cost_to(&segments[number], aim),
    }
}

// Whether nothing at this distance or farther is better than the best so far.
fn is_beaten(best: Option<Found>, bound: u64) -> bool
    ensures { result ≡ is_beaten best bound }
{
    match best {
        Some(best) => best.cost <= bound,
        None => false,
    }
}

// Whether nothing at this distance or farther is as good as the best so far.
fn is_passed(best: Option<Found>, bound: u64) -> bool
    ensures { result ≡ is_passed best bound }
{
    match best {
        Some(best) => best.cost < bound,
        None => false,
    }
}

// The best so far, or another that is better.
fn earlier(best: Option<Found>, other: Found) -> Found
    ensures { result ≡ earlier best other }
{
    match best {
        Some(best) if best.cost <= other.cost => best,
        _ => other,
    }
}

// The best so far, or another that is as good.
fn later(best: Option<Found>, other: Found) -> Found
    ensures { result ≡ later best other }
{
    match best {
        Some(best) if best.cost < other.cost => best,
        _ => other,
    }
}

// Whether a segment stands on a higher row than a place, or on its row and starts behind it.
fn is_behind(segment: &Segment, place: Point) -> bool
    ensures { result ≡ is_behind place segment.now }
{
    segment.y > place.y || (segment.y >= place.y && segment.start > place.x)
}

// The next number to look at: the guess, and from there on one twice as far each time, up to the middle.
fn probe(low: usize, high: usize, guess: usize) -> usize
    requires some { low < high }
    requires few { high ≤ 2 ^ 16 }
    requires near { guess ≤ 2 ^ 16 }
    ensures from { low ≤ result }
    ensures below { result < high }
{
    let middle = low + (high - low) / 2;
    if guess < low {
        middle.min(2 * low - guess - 1)
    } else if guess < high {
        guess
    } else {
        middle.max((2 * high).saturating_sub(guess + 1))
    }
}

// The first segment behind a place. It is looked for from a guess on, so that a near one is found soon.
fn first_behind(segments: &[Segment], place: Point, guess: usize) -> usize
    requires segments { AreSegments segments.now }
    requires near { guess ≤ length segments.now }
    ensures { IsFirstBehind segments.now place result }
{
    let mut low = 0;
    let mut high = segments.len();
    while low < high {
        let number = probe(low, high, guess);
        if is_behind(&segments[number], place) {
            high = number;
        } else {
            low = number + 1;
        }
    }
    low
}

// Whether the next segment is of the same row.
fn goes_on(segments: &[Segment], number: usize) -> bool
    requires { number < length segments.now }
    ensures { IsTrue result ↔ ((number + 1 < length segments.now) × ((at segments.now number).y ≡ (at segments.now (number + 1)).y)) }
{
    number + 1 < segments.len() && segments[number].y == segments[number + 1].y
}

// The stretch from a segment with room upwards. Where it starts at or before the target, so do all of the stretch, and the last with room
// is the nearest; else it is the nearest of the rest of its row.
fn stretch_up(segments: &[Segment], rooms: &Rooms, aim: Aim, number: usize) -> Stretch
    requires search { CanSearch segments.now rooms.now.free.items rooms.now.most.items aim }
    requires within { number < length segments.now }
    requires open { IsTrue (has_free rooms.now.free.items aim.width number) }
    ensures within { result.end ≤ length segments.now }
    ensures nearest { IsNearestOf segments.now rooms.now.free.items aim number result.end result.nearest }
{
    let Segment { y, start, .. } = segments[number];
    if !goes_on(segments, number) {
        Stretch {
            nearest: number,
            end: number + 1,
        }
    } else if start > aim.target.x {
        let end = first_behind(segments, Point { x: 1 << 30, y }, number);
        Stretch {
            nearest: number,
            end,
        }
    } else {
        let x = aim.target.x;
        let end = first_behind(segments, Point { x, y }, number);
        Stretch {
            nearest: rooms.last_open(aim.width, end) - 1,
            end,
        }
    }
}

// The stretch from a segment with room downwards. Where it starts behind the target, so do all of the stretch, and the first with room is
// the nearest; else it is the nearest of its row up to it.
fn stretch_down(segments: &[Segment], rooms: &Rooms, aim: Aim, number: usize) -> Stretch
    requires search { CanSearch segments.now rooms.now.free.items rooms.now.most.items aim }
    requires within { number < length segments.now }
    requires open { IsTrue (has_free rooms.now.free.items aim.width number) }
    ensures { IsNearestOf segments.now rooms.now.free.items aim result.end (number + 1) result.nearest }
{
    let Segment { y, start, .. } = segments[number];
    if number == 0 || !goes_on(segments, number - 1) {
        Stretch {
            nearest: number,
            end: number,
        }
    } else if start > aim.target.x {
        let x = aim.target.x;
        let end = first_behind(segments, Point { x, y }, number);
        Stretch {
            nearest: rooms.next_open(aim.width, end),
            end,
        }
    } else {
        let end = first_behind(segments, Point { x: -1, y }, number);
        Stretch {
            nearest: number,
            end,
        }
    }
}

// The best segment from a number on, where none of these is below the target.
fn above(segments: &[Segment], rooms: &Rooms, aim: Aim, from: usize) -> Option<Found>
    requires search { CanSearch segments.now rooms.now.free.items rooms.now.most.items aim }
    requires within { from ≤ length segments.now }
    requires above { (number : ℕ) → from ≤ number → number < length segments.now → aim.target.y ≤ℤ (at segments.now number).y }
    ensures { IsBestOf segments.now rooms.now.free.items aim from (length segments.now) result }
{
    let mut best = None;
    let mut number = rooms.next_open(aim.width, from);
    while number < segments.len() {
        if is_beaten(best, rise(&segments[number], aim.target) + aim.side) {
            return best;
        }
        let stretch = stretch_up(segments, rooms, aim, number);
        best = Some(earlier(best, found_at(segments, aim, stretch.nearest)));
        number = rooms.next_open(aim.width, stretch.end);
    }
    best
}

// The best segment of all, given the best from a number on, where all before it are below the target.
fn below(
    segments: &[Segment],
    rooms: &Rooms,
    aim: Aim,
    from: usize,
    above: Option<Found>,
) -> Option<Found>
    requires search { CanSearch segments.now rooms.now.free.items rooms.now.most.items aim }
    requires within { from ≤ length segments.now }
    requires below { (number : ℕ) → number < from → (at segments.now number).y ≤ℤ aim.target.y }
    requires best { IsBestOf segments.now rooms.now.free.items aim from (length segments.now) above }
    ensures { IsBestOf segments.now rooms.now.free.items aim 0 (length segments.now) result }
{
    let mut best = above;
    let mut low = rooms.last_open(aim.width, from);
    while low > 0 {
        let number = low - 1;
        if is_passed(best, rise(&segments[number], aim.target) + aim.side) {
            return best;
        }
        let stretch = stretch_down(segments, rooms, aim, number);
        best = Some(later(best, found_at(segments, aim, stretch.nearest)));
        low = rooms.last_open(aim.width, stretch.end);
    }
    best
}

// The first segment that is not below a height.
fn first_at(segments: &[Segment], y: i64) -> usize
    requires { AreSegments segments.now }
    ensures within { result ≤ length segments.now }
    ensures below { (number : ℕ) → number < result → (at segments.now number).y ≤ℤ y }
    ensures above { (number : ℕ) → result ≤ number → number < length segments.now → y ≤ℤ (at segments.now number).y }
{
    segments.partition_point(|segment| segment.y < y)
}

// The best segment of all. They are tried from the target's row upwards and then downwards, as far as one may be better.
fn search(segments: &[Segment], rooms: &Rooms, aim: Aim) -> Option<Found>
    requires { CanSearch segments.now rooms.now.free.items rooms.now.most.items aim }
    ensures { IsBestOf segments.now rooms.now.free.items aim 0 (length segments.now) result }
{
    let from = first_at(segments, aim.target.y);
    let best = above(segments, rooms, aim, from);
    below(segments, rooms, aim, from, best)
}

// What is searched for.
fn aim_at(hull: Hull, width: i64, target: Point) -> Aim
    requires low { IsNear hull.low }
    requires least { pos 0 ≤ℤ hull.high }
    requires most { hull.high ≤ℤ pos (2 ^ 31) }
    requires some { pos 1 ≤ℤ width }
    requires small { width ≤ℤ pos (2 ^ 30) }
    requires target { IsNearPoint target }
    ensures width { result.width ≡ width }
    ensures target { result.target ≡ target }
    ensures side { result.side ≡ distance_to hull.low (hull.high -ℤ width) target.x }
    ensures small { result.side ≤ 2 ^ 34 }
{
    let side = distance(hull.low, last_x(hull.high, width), target.x);
    Aim {
        width,
        target,
        side,
    }
}

/// Of the segments with room for a width the one to which it is moved least from its target, the first among ties, or None where none has
/// room.
pub fn nearest(
    segments: &[Segment],
    rooms: &Rooms,
    hull: Hull,
    width: i64,
    target: Point,
) -> Option<u32>
    requires segments { AreSegments segments.now }
    requires rooms { AreRooms rooms.now.free.items rooms.now.most.items }
    requires many { length rooms.now.free.items ≡ length segments.now }
    requires fewer { AreFree segments.now rooms.now.free.items }
    requires hull { IsHull segments.now hull }
    requires some { pos 1 ≤ℤ width }
    requires small { width ≤ℤ pos (2 ^ 30) }
    requires target { IsNearPoint target }
    ensures { IsLeastOrNone (has_free rooms.now.free.items width) (cost_at segments.now width target) 0 (length segments.now) result }
{
    let aim = aim_at(hull, width, target);
    match search(segments, rooms, aim) {
        Some(found) => Some(found.segment as u32),
        None => None,
    }
}
