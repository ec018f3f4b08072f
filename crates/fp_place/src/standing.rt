//! Where the cells of a drawing stand.

ghost use Rattle.std.specs.Prelude.{◌≡◌, ◌<◌, ◌+ℤ◌, ◌≤ℤ◌, ◌↔◌, ℕ, IsTrue, MatchResult, length};
ghost use Rattle.fp_tech.specs.Plan.{segments, IsPlan};
ghost use Rattle.fp_netlist.specs.Points.{width};
ghost use Rattle.fp_place.specs.Areas.{fits};
ghost use Rattle.fp_place.specs.Drawing.{IsCoordinate, places_in};
ghost use Rattle.fp_place.specs.Legal.{StandsIn, StandsOnce, StandsOnSegment, FitsItsDie};
ghost use Rattle.fp_place.specs.FirstFaults.{IsFaultOf, IsFirstFault, cell_subject};
ghost use Rattle.fp_place.specs.Standing.{place_once, starts_by, AreFound, AreInOrder, FindsLast, FindsSegment, AreInSegments, AreStanding};

use crate::drawn::Drawn;
use crate::fault::Fault;
use crate::judge::Subject;
use crate::place::Place;
use crate::seen::{Seen, seen_cells};
use fp_base::{CellId, Die};
use fp_netlist::Problem;
use fp_tech::Segment;
use std::alloc::Global;

/// The cells' places, and for each the number of its segment.
#[derive(Drop)]
pub struct Standing {
    pub places: Vec<Place>,
    pub numbers: Vec<u32>,
}

// A rule is broken by a cell.
fn broken_by(rule: u8, cell: u32) -> Fault
    ensures { result ≡ Fault.Breaks rule (cell_subject cell) }
{
    Fault::Breaks {
        rule,
        subject: Subject::Cell(CellId(cell)),
    }
}

// The place of a cell that stands once over both dies' lines.
fn place_once(top: Seen, bottom: Seen) -> Option<Place>
    ensures { result ≡ place_once top bottom }
{
    let (die, at) = match (top, bottom) {
        (Seen::Once(at), Seen::Never) => (Die::Top, at),
        (Seen::Never, Seen::Once(at)) => (Die::Bottom, at),
        _ => return None,
    };
    Some(Place {
        die,
        x: at.x,
        y: at.y,
    })
}

// Rule 1: the places of the cells, each of which stands exactly once.
fn find_places(alloc: Global, problem: &Problem, drawn: &Drawn) -> Result<Vec<Place>, Fault>
    ensures { MatchResult result (λ places. AreFound drawn.now (length problem.now.cells) places.items) (IsFaultOf (length problem.now.cells) (StandsOnce drawn.now) 1 cell_subject) }
{
    let top = seen_cells(alloc, problem.cells(), drawn.cells(Die::Top))?;
    let bottom = seen_cells(alloc, problem.cells(), drawn.cells(Die::Bottom))?;
    let mut places = Vec::with_capacity(alloc, problem.cells() as usize)?;
    for cell in 0..problem.cells() {
        match place_once(top[cell as usize], bottom[cell as usize]) {
            Some(place) => places.push(place)?,
            None => return Err(broken_by(1, cell)),
        }
    }
    Ok(places)
}

// Whether a segment starts at a place or before it: on a lower row, or on its row at its x or to the left of it.
fn starts_by(segment: &Segment, place: Place) -> bool
    ensures { result ≡ starts_by segment.now place }
{
    segment.y < place.y || (segment.y <= place.y && segment.start <= place.x)
}

// The number of the last of a die's segments that starts at a place or before it, or None where none does.
fn last_start(segments: &[Segment], place: Place) -> Option<usize>
    requires { AreInOrder segments.now }
    ensures { FindsLast segments.now place result }
{
    let started = segments.partition_point(|segment| starts_by(segment, place));
    if started > 0 { Some(started - 1) } else { None }
}

// Whether a width from x on lies within a segment.
fn lies_in(segment: Segment, x: i64, width: i64) -> bool
    requires start { IsCoordinate segment.start }
    requires length { IsCoordinate segment.length }
    requires width { IsCoordinate width }
    ensures { IsTrue result ↔ (segment.start ≤ℤ x) × ((x +ℤ width) ≤ℤ (segment.start +ℤ segment.length)) }
{
    segment.start <= x && x <= segment.start + (segment.length - width)
}

// Whether a height is that of a segment.
fn is_level(segment: Segment, y: i64) -> bool
    ensures { IsTrue result ↔ y ≡ segment.y }
{
    segment.y == y
}

// Whether a cell that stands at a place stands on a segment.
fn stands_in(problem: &Problem, cell: CellId, place: Place, segment: Segment) -> bool
    requires cell { cell.0 < length problem.now.cells }
    requires start { IsCoordinate segment.start }
    requires length { IsCoordinate segment.length }
    ensures { IsTrue result ↔ StandsIn segment (width problem.now cell.0 place.die) place }
{
    let width = problem.width(cell, place.die);
    lies_in(segment, place.x, width) && is_level(segment, place.y)
}

// The segments of the die of a place.
fn segments_at(problem: &Problem, place: Place) -> &[Segment]
    ensures segments { result.now ≡ segments problem.now.plan place.die }
    ensures plan { IsPlan problem.now.plan }
    ensures rise { AreInOrder result.now }
{
    problem.dies().segments_of(place.die)
}

// The number of the segment on which a cell stands at a place, or None exactly where it stands on none. Segments rise by
// rows and then by x and do not meet, so only the last that starts at the place or before it can hold the cell.
fn segment_under(problem: &Problem, cell: CellId, place: Place) -> Option<u32>
    requires { cell.0 < length problem.now.cells }
    ensures { FindsSegment problem.now.plan place (width problem.now cell.0 place.die) result }
{
    let segments = segments_at(problem, place);
    let number = last_start(segments, place)?;
    if stands_in(problem, cell, place, segments[number]) {
        Some(number as u32)
    } else {
        None
    }
}

// Rule 2: the numbers of the cells' segments.
fn find_segments(alloc: Global, problem: &Problem, places: &[Place]) -> Result<Vec<u32>, Fault>
    requires { length places.now ≡ length problem.now.cells }
    ensures { MatchResult result (λ numbers. AreInSegments problem.now places.now numbers.items) (IsFaultOf (length problem.now.cells) (StandsOnSegment problem.now places.now) 2 cell_subject) }
{
    let mut numbers = Vec::with_capacity(alloc, problem.cells() as usize)?;
    for cell in 0..problem.cells() {
        match segment_under(problem, CellId(cell), places[cell as usize]) {
            Some(number) => numbers.push(number)?,
            None => return Err(broken_by(2, cell)),
        }
    }
    Ok(numbers)
}

/// Whether a cell is at most as high as the rows of a die.
pub fn fits(problem: &Problem, cell: CellId, die: Die) -> bool
    requires { cell.0 < length problem.now.cells }
    ensures { result ≡ fits problem.now cell.0 die }
{
    problem.height(cell, die) <= i64::from(problem.dies().spec(die).height)
}

// Rule 3: no cell is higher than its die's rows.
fn check_heights(problem: &Problem, places: &[Place]) -> Result<(), Fault>
    requires { length places.now ≡ length problem.now.cells }
    ensures { MatchResult result (λ _. (cell : ℕ) → cell < length problem.now.cells → FitsItsDie problem.now places.now cell)
        (IsFaultOf (length problem.now.cells) (FitsItsDie problem.now places.now) 3 cell_subject) }
{
    for cell in 0..problem.cells() {
        let place = places[cell as usize];
        if !fits(problem, CellId(cell), place.die) {
            return Err(broken_by(3, cell));
        }
    }
    Ok(())
}

/// Rules 1 to 3: the cells' places and segments, or the first break.
pub fn stand(alloc: Global, problem: &Problem, drawn: &Drawn) -> Result<Standing, Fault>
    ensures { MatchResult result (λ standing. AreStanding problem.now drawn.now standing.places.items standing.numbers.items)
        (IsFirstFault problem.now drawn.now (places_in drawn.now (length problem.now.cells))) }
{
    let places = find_places(alloc, problem, drawn)?;
    let numbers = find_segments(alloc, problem, &places)?;
    check_heights(problem, &places)?;
    Ok(Standing { places, numbers })
}
