//! The seats of the cells, which they get one after the other in file order.

ghost use Rattle.std.specs.Prelude.{◌≡◌, ◌<◌, ◌++◌, ◌∷◌, [], IfOk, Some, length};
ghost use Rattle.fp_netlist.specs.Netlist.{IsSound};
ghost use Rattle.fp_score.specs.FirstFit.{seat_on, first_room};
ghost use Rattle.fp_seed.specs.Seats.{IsSeating, IsTaken, Places, Fills};

use crate::filled_segments::FilledSegments;
use crate::seat::Seat;
use fp_base::{Bottom, CellId, Die, NoMemory, Top};
use fp_netlist::Problem;
use fp_place::{Caps, other};
use std::alloc::Global;

/// The seats of the first cells, with the area that each die's cells take and the segments of both dies.
#[derive(Drop)]
pub struct Seating {
    pub seats: Vec<Seat>,
    pub caps: Caps,
    pub top: FilledSegments<Top>,
    pub bottom: FilledSegments<Bottom>,
}

impl Seating {
    /// The seats of no cells, with all segments free.
    pub fn new(alloc: Global, problem: &Problem) -> Result<Seating, NoMemory>
        ensures seating { IfOk result (IsSeating problem.now) }
        ensures empty { IfOk result (λ s. s.seats.items ≡ []) }
    {
        let top = FilledSegments::new(alloc, problem)?;
        let bottom = FilledSegments::new(alloc, problem)?;
        Ok(Seating {
            seats: Vec::new(alloc),
            caps: Caps::empty(),
            top,
            bottom,
        })
    }

    // The first segment of a die that has room for the next cell, where the die takes it.
    fn find(&mut self, problem: &Problem, cell: CellId, die: Die) -> Option<u32>
        requires cell { cell.0 < length problem.now.cells }
        requires seating { IsSeating problem.now self.old }
        ensures room { result ≡ first_room problem.now self.old.seats.items cell.0 die }
        ensures seating { IsSeating problem.now self.new }
        ensures seats { self.new.seats.items ≡ self.old.seats.items }
    {
        match die {
            Die::Top => self.top.find(problem, &self.caps, cell),
            Die::Bottom => self.bottom.find(problem, &self.caps, cell),
        }
    }

    // Takes room for the next cell on a segment of a die, and tells its x.
    fn take(
        &mut self,
        problem: &Problem,
        cell: CellId,
        die: Die,
        segment: u32,
    ) -> Result<i64, NoMemory>
        requires cell { cell.0 < length problem.now.cells }
        requires next { cell.0 ≡ length self.old.seats.items }
        requires seating { IsSeating problem.now self.old }
        requires room { first_room problem.now self.old.seats.items cell.0 die ≡ Some segment }
        ensures { IfOk result (λ x. IsTaken problem.now self.old die segment x self.new) }
    {
        match die {
            Die::Top => self.top.take(problem, segment, cell),
            Die::Bottom => self.bottom.take(problem, segment, cell),
        }
    }

    // Seats the next cell on a segment that has room for it.
    fn put(
        &mut self,
        problem: &Problem,
        cell: CellId,
        die: Die,
        segment: u32,
    ) -> Result<(), NoMemory>
        requires cell { cell.0 < length problem.now.cells }
        requires next { cell.0 ≡ length self.old.seats.items }
        requires seating { IsSeating problem.now self.old }
        requires room { first_room problem.now self.old.seats.items cell.0 die ≡ Some segment }
        ensures seating { IfOk result (λ _. IsSeating problem.now self.new) }
        ensures seats { IfOk result (λ _. self.new.seats.items ≡ self.old.seats.items ++ seat_on problem.now self.old.seats.items die segment ∷ []) }
    {
        let x = self.take(problem, cell, die, segment)?;
        self.caps.add(problem, cell, die);
        self.seats.push(Seat { die, segment, x })?;
        Ok(())
    }

    /// Seats the next cell, or answers false where no segment has room for it.
    pub fn place(&mut self, problem: &Problem, cell: CellId, first: Die) -> Result<bool, NoMemory>
        requires cell { cell.0 < length problem.now.cells }
        requires next { cell.0 ≡ length self.old.seats.items }
        requires seating { IsSeating problem.now self.old }
        ensures { IfOk result (λ placed. Places problem.now first self.old.seats.items placed self.new) }
    {
        if let Some(segment) = self.find(problem, cell, first) {
            self.put(problem, cell, first, segment)?;
            return Ok(true);
        }
        let second = other(first);
        if let Some(segment) = self.find(problem, cell, second) {
            self.put(problem, cell, second, segment)?;
            return Ok(true);
        }
        Ok(false)
    }

    /// Seats all cells, or answers the first for which no segment has room.
    pub fn fill(&mut self, problem: &Problem, first: Die) -> Result<Option<CellId>, NoMemory>
        requires seating { IsSeating problem.now self.old }
        requires empty { self.old.seats.items ≡ [] }
        ensures fills { IfOk result (λ stuck. Fills problem.now first stuck self.new) }
        ensures sound { IsSound problem.now }
    {
        for number in 0..problem.cells() {
            let cell = CellId(number);
            if !self.place(problem, cell, first)? {
                return Ok(Some(cell));
            }
        }
        Ok(None)
    }
}
