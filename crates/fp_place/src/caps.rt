//! The area that the cells of each die take, against the die's percent.

ghost use Rattle.std.specs.Prelude.{◌≡◌, ◌<◌, ◌≤◌, ◌*◌, ◌^◌, IsTrue, length};
ghost use Rattle.fp_tech.specs.Plan.{spec_of};
ghost use Rattle.fp_netlist.specs.Points.{area};
ghost use Rattle.fp_place.specs.Areas.{frame_area};
ghost use Rattle.fp_place.specs.Held.{none_held, held_on, with_area, without_area, has_room};

use fp_base::{CellId, Die};
use fp_netlist::Problem;
use std::marker::Model;

/// The area that each die's cells take. A die's percent holds where 100 times that area is at most the percent times the area of the
/// frame, in whole numbers of 128 bits: our own reading of the contest's utilisation, which no quotient rounds. Each area is at most 2^60.
#[derive(Debug, Drop)]
pub struct Caps {
    top: u128,
    bottom: u128,
}

impl Model for Caps {
    ghost use Rattle.fp_place.specs.Held.{Held};
    ghost use Rattle.fp_place.specs.KeptCaps.{held_kept, fields_of, AreSmall};

    ghost Value = { Held };

    ghost view = { held_kept };

    ghost invariant = { AreSmall };

    ghost inverse = { fields_of };
}

impl Caps {
    /// Both dies without cells.
    pub fn empty() -> Caps
        ensures { result ≡ none_held }
    {
        Caps { top: 0, bottom: 0 }
    }

    // The area that a die's cells take.
    fn held(&self, die: Die) -> u128
        ensures held { result ≡ held_on self.now die }
        ensures small { result ≤ 2 ^ 60 }
    {
        match die {
            Die::Top => self.top,
            Die::Bottom => self.bottom,
        }
    }

    /// Whether the die's percent still holds with the cell added.
    pub fn room(&self, problem: &Problem, cell: CellId, die: Die) -> bool
        requires { cell.0 < length problem.now.cells }
        ensures { result ≡ has_room problem.now self.now cell.0 die }
    {
        let taken = self.held(die) + u128::from(problem.area(cell, die));
        100 * taken <= limit(problem, die)
    }

    /// Adds a cell for which there is room.
    pub fn add(&mut self, problem: &Problem, cell: CellId, die: Die)
        requires cell { cell.0 < length problem.now.cells }
        requires room { IsTrue (has_room problem.now self.old cell.0 die) }
        ensures { self.new ≡ with_area self.old die (area problem.now cell.0 die) }
    {
        let area = u128::from(problem.area(cell, die));
        prove!(100 * (self.held(die) + area) <= limit(problem, die));
        match die {
            Die::Top => self.top += area,
            Die::Bottom => self.bottom += area,
        }
    }

    /// Takes a cell away whose area is held.
    pub fn take(&mut self, problem: &Problem, cell: CellId, die: Die)
        requires cell { cell.0 < length problem.now.cells }
        requires held { area problem.now cell.0 die ≤ held_on self.old die }
        ensures { self.new ≡ without_area self.old die (area problem.now cell.0 die) }
    {
        let area = u128::from(problem.area(cell, die));
        match die {
            Die::Top => self.top -= area,
            Die::Bottom => self.bottom -= area,
        }
    }
}

// The area of a die.
fn frame_area(problem: &Problem) -> u128
    ensures area { result ≡ frame_area problem.now.plan }
    ensures small { result ≤ 2 ^ 60 }
{
    let frame = problem.dies().frame();
    u128::from(frame.urx - frame.llx) * u128::from(frame.ury - frame.lly)
}

// 100 times the area that the cells of a die may take.
pub(crate) fn limit(problem: &Problem, die: Die) -> u128
    ensures limit { result ≡ (spec_of problem.now.plan die).percent * frame_area problem.now.plan }
    ensures small { result ≤ 100 * 2 ^ 60 }
{
    u128::from(problem.dies().spec(die).percent) * frame_area(problem)
}
