//! The segments of a die, as the first fit puts cells on them.

ghost use Rattle.std.specs.Prelude.{◌≡◌, ℕ, ◌≤◌, ◌<◌, ◌++◌, ◌∷◌, [], IfOk, IsTrue, ◌&&◌, false, length, get_or, set, slice_index, pos, ◌+ℤ◌};
ghost use Rattle.fp_tech.specs.Plan.{segments};
ghost use Rattle.fp_netlist.specs.Points.{width};
ghost use Rattle.fp_place.specs.Areas.{fits};
ghost use Rattle.fp_place.specs.Held.{has_room};
ghost use Rattle.fp_score.specs.FirstFit.{segment_at};
ghost use Rattle.fp_seed.specs.FilledSegments.{holds, room_in, IsReady, HoldsSeats};

use fp_base::{CellId, Die, NoMemory, SegId, Side};
use fp_netlist::Problem;
use fp_place::{Caps, Lanes};
use std::alloc::{AllocError, Global};

/// The number of library cells is at most this.
const LIBS: usize = 1 << 16;

/// The segments of a die: the length of each that is used, the first that may still have room for each library cell, a number that only
/// rises, and the cells on each segment in file order.
#[derive(Drop)]
pub struct FilledSegments<S: Side> {
    used: Vec<i64>,
    first: Vec<u32>,
    lanes: Lanes<S>,
}

impl<S: Side> FilledSegments<S> {
    /// The segments of the die, all of them free.
    pub fn new(alloc: Global, problem: &Problem) -> Result<FilledSegments<S>, NoMemory>
        ensures ready { IfOk result (λ s. IsReady problem.now S.DIE s.used.items s.first.items s.lanes) }
        ensures empty { IfOk result (λ s. HoldsSeats problem.now S.DIE [] s.used.items s.lanes) }
    {
        let segments = problem.dies().segments::<S>().len();
        let used = vec![in alloc; 0; segments]?;
        let first = zeros(alloc, LIBS)?;
        let lanes = Lanes::new(alloc, segments as u32)?;
        Ok(FilledSegments { used, first, lanes })
    }

    // Whether the free length of a segment holds the cell.
    fn holds(&self, problem: &Problem, cell: CellId, segment: u32) -> bool
        requires cell { cell.0 < length problem.now.cells }
        requires ready { IsReady problem.now S.DIE self.now.used.items self.now.first.items self.now.lanes }
        requires within { segment < length (segments problem.now.plan S.DIE) }
        ensures { result ≡ holds problem.now S.DIE self.now.used.items cell.0 segment }
    {
        let place = segment as usize;
        let segments = problem.dies().segments::<S>();
        self.used[place] + problem.width(cell, S::DIE) <= segments[place].length
    }

    // The first segment from a number on that holds the cell, or their count where none does.
    fn next_holding(&self, problem: &Problem, cell: CellId, from: u32) -> u32
        requires cell { cell.0 < length problem.now.cells }
        requires ready { IsReady problem.now S.DIE self.now.used.items self.now.first.items self.now.lanes }
        ensures within { result ≤ length (segments problem.now.plan S.DIE) }
        ensures passed { (segment : ℕ) → from ≤ segment → segment < result
            → holds problem.now S.DIE self.now.used.items cell.0 segment ≡ false }
        ensures found { result < length (segments problem.now.plan S.DIE)
            → IsTrue (holds problem.now S.DIE self.now.used.items cell.0 result) }
    {
        let count = problem.dies().segments::<S>().len() as u32;
        for segment in from..count {
            if self.holds(problem, cell, segment) {
                return segment;
            }
        }
        count
    }

    /// The first segment that has room for a cell, or None where the cell is too high for the die, the die's percent would not hold, or no
    /// segment has room.
    pub fn find(&mut self, problem: &Problem, caps: &Caps, cell: CellId) -> Option<u32>
        requires cell { cell.0 < length problem.now.cells }
        requires ready { IsReady problem.now S.DIE self.old.used.items self.old.first.items self.old.lanes }
        ensures room { result ≡ room_in problem.now caps.now self.old.used.items cell.0 S.DIE }
        ensures ready { IsReady problem.now S.DIE self.new.used.items self.new.first.items self.new.lanes }
        ensures used { self.new.used.items ≡ self.old.used.items }
        ensures lanes { self.new.lanes ≡ self.old.lanes }
    {
        if !takes(problem, caps, cell, S::DIE) {
            return None;
        }
        let lib = problem.lib_of(cell).0 as usize;
        let next = self.next_holding(problem, cell, self.first[lib]);
        self.first[lib] = next;
        ((next as usize) < self.used.len()).then_some(next)
    }

    /// Puts a cell at the end of a segment that holds it, and tells its x.
    pub fn take(&mut self, problem: &Problem, segment: u32, cell: CellId) -> Result<i64, NoMemory>
        requires cell { cell.0 < length problem.now.cells }
        requires ready { IsReady problem.now S.DIE self.old.used.items self.old.first.items self.old.lanes }
        requires within { segment < length (segments problem.now.plan S.DIE) }
        requires room { IsTrue (holds problem.now S.DIE self.old.used.items cell.0 segment) }
        ensures x { IfOk result (λ x. x ≡ (segment_at problem.now.plan S.DIE segment).start +ℤ get_or self.old.used.items segment (pos 0)) }
        ensures ready { IfOk result (λ _. IsReady problem.now S.DIE self.new.used.items self.new.first.items self.new.lanes) }
        ensures used { IfOk result (λ _. self.new.used.items ≡ set self.old.used.items segment
            (get_or self.old.used.items segment (pos 0) +ℤ pos (width problem.now cell.0 S.DIE))) }
        ensures lanes { IfOk result (λ _. self.new.lanes ≡ set self.old.lanes segment (get_or self.old.lanes segment [] ++ cell ∷ [])) }
    {
        let place = segment as usize;
        let before = self.used[place];
        let start = problem.dies().segments::<S>()[place].start;
        self.lanes.push(SegId::new(segment), cell)?;
        self.used[place] = before + problem.width(cell, S::DIE);
        Ok(start + before)
    }

    /// The cells on each segment, in file order.
    pub fn into_lanes(self) -> Lanes<S>
        ensures { result ≡ self.lanes }
    {
        self.lanes
    }
}

// Whether a die takes a cell: the cell is at most as high as its rows, and the die's percent still holds.
fn takes(problem: &Problem, caps: &Caps, cell: CellId, die: Die) -> bool
    requires { cell.0 < length problem.now.cells }
    ensures { result ≡ (fits problem.now cell.0 die && has_room problem.now caps.now cell.0 die) }
{
    let rows = problem.dies().spec(die).height;
    problem.height(cell, die) <= i64::from(rows) && caps.room(problem, cell, die)
}

// A list of so many zeros.
fn zeros(alloc: Global, count: usize) -> Result<Vec<u32>, AllocError>
    ensures many { IfOk result (λ v. length v.items ≡ count) }
    ensures all { IfOk result (λ v. (k : ℕ) → slice_index v.items k ≡ 0) }
{
    vec![in alloc; 0; count]
}
