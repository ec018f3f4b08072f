//! The cells of a drawing, lined up on their segments.

ghost use Rattle.std.specs.Prelude.{◌≡◌, ℕ, ◌<◌, All, IfOk, OnOk, length};
ghost use Rattle.fp_place.specs.Lining.{IsOnSegment, LinesUp};
ghost use Rattle.fp_place.specs.LaneOrder.{AreByX, HoldInOrder, cells_alone, pushed, AreEmptyOn};
ghost use Rattle.fp_place.specs.Placed.{lanes_on};

use crate::lanes::Lanes;
use crate::overlap::first_overlap;
use crate::place::Place;
use fp_base::{Bottom, CellId, Die, NoMemory, SegId, Top};
use fp_netlist::Problem;
use fp_tech::Dies;
use std::alloc::Global;

/// The lanes of both dies.
#[derive(Drop)]
pub struct Lined {
    pub top: Lanes<Top>,
    pub bottom: Lanes<Bottom>,
}

impl Lined {
    // A lane without cells for each segment.
    fn empty(alloc: Global, dies: &Dies) -> Result<Lined, NoMemory>
        ensures { IfOk result (AreEmptyOn dies.now) }
    {
        let top = dies.segments_of(Die::Top).len();
        let bottom = dies.segments_of(Die::Bottom).len();
        Ok(Lined {
            top: Lanes::new(alloc, top as u32)?,
            bottom: Lanes::new(alloc, bottom as u32)?,
        })
    }

    // Adds a cell at the end of a segment's lane.
    fn push(&mut self, die: Die, segment: u32, cell: CellId) -> Result<(), NoMemory>
        requires { segment < length (lanes_on self.old.top self.old.bottom die) }
        ensures { OnOk result (self.new ≡ pushed self.old die segment cell) }
    {
        match die {
            Die::Top => self.top.push(SegId::new(segment), cell),
            Die::Bottom => self.bottom.push(SegId::new(segment), cell),
        }
    }
}

/// Lines up the cells, which stand at these places on the segments of these numbers; or the first cell that overlaps some other.
pub fn line_up(
    alloc: Global,
    problem: &Problem,
    places: &[Place],
    numbers: &[u32],
) -> Result<Result<Lined, CellId>, NoMemory>
    requires places { length places.now ≡ length problem.now.cells }
    requires numbers { length numbers.now ≡ length problem.now.cells }
    requires on_segments { (cell : ℕ) → cell < length problem.now.cells → IsOnSegment problem.now places.now numbers.now cell }
    ensures { IfOk result (LinesUp problem.now places.now numbers.now) }
{
    let cells = problem.cells();
    let order = by_x(alloc, cells, places)?;
    let lined = fill(alloc, problem, places, numbers, order.as_slice())?;
    match first_overlap(problem, places, &lined) {
        Some(cell) => Ok(Err(cell)),
        None => Ok(Ok(lined)),
    }
}

// So many cells in order of the x of their places.
fn by_x(alloc: Global, cells: u32, places: &[Place]) -> Result<Vec<CellId>, NoMemory>
    requires { length places.now ≡ cells }
    ensures { IfOk result (λ order. AreByX places.now order.items) }
{
    let mut order = Vec::with_capacity(alloc, cells as usize)?;
    for cell in 0..cells {
        let place = places[cell as usize];
        order.push((place.x, cell))?;
    }
    order.sort()?;
    cells_of(alloc, order.as_slice())
}

// The cells alone.
fn cells_of(alloc: Global, order: &[(i64, u32)]) -> Result<Vec<CellId>, NoMemory>
    ensures { IfOk result (λ cells. cells.items ≡ cells_alone order.now) }
{
    let cells = order.iter().map(|entry| CellId(entry.1)).collect(alloc)?;
    Ok(cells)
}

// The lanes of these cells, which are pushed in this order.
fn fill(
    alloc: Global,
    problem: &Problem,
    places: &[Place],
    numbers: &[u32],
    order: &[CellId],
) -> Result<Lined, NoMemory>
    requires places { length places.now ≡ length problem.now.cells }
    requires numbers { length numbers.now ≡ length problem.now.cells }
    requires on_segments { (cell : ℕ) → cell < length problem.now.cells → IsOnSegment problem.now places.now numbers.now cell }
    requires order { All (λ cell. cell.0 < length problem.now.cells) order.now }
    ensures { IfOk result (λ lined. HoldInOrder problem.now places.now numbers.now order.now lined.top lined.bottom) }
{
    let mut lined = Lined::empty(alloc, problem.dies())?;
    for cell in order {
        let index = cell.0 as usize;
        let place = places[index];
        lined.push(place.die, numbers[index], *cell)?;
    }
    Ok(lined)
}
