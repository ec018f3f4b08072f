//! The cells of a drawing, clear of each other and within each die's percent.

ghost use Rattle.std.specs.Prelude.{◌≡◌, Ok, MatchResult, length};
ghost use Rattle.fp_place.specs.Legal.{IsClear};
ghost use Rattle.fp_place.specs.Lining.{LinesUp};
ghost use Rattle.fp_place.specs.FirstFaults.{IsFaultOf, cell_subject};
ghost use Rattle.fp_place.specs.LinedUp.{AreOnSegments, AreClear, IsFaultAfter};

use crate::fault::Fault;
use crate::judge::Subject;
use crate::lined::{Lined, line_up};
use crate::percents::check_percent;
use crate::place::Place;
use fp_base::Die;
use fp_netlist::Problem;
use std::alloc::Global;

// Rule 4: the lanes of the cells, none of which overlaps another.
fn check_clear(
    alloc: Global,
    problem: &Problem,
    places: &[Place],
    numbers: &[u32],
) -> Result<Lined, Fault>
    requires places { length places.now ≡ length problem.now.cells }
    requires numbers { length numbers.now ≡ length problem.now.cells }
    requires on_segments { AreOnSegments problem.now places.now numbers.now }
    ensures { MatchResult result (λ lined. LinesUp problem.now places.now numbers.now (Ok lined)) (IsFaultOf (length problem.now.cells) (IsClear problem.now places.now) 4 cell_subject) }
{
    match line_up(alloc, problem, places, numbers)? {
        Ok(lined) => Ok(lined),
        Err(cell) => Err(Fault::Breaks {
            rule: 4,
            subject: Subject::Cell(cell),
        }),
    }
}

/// Rules 4 to 6: the lanes of the cells, or the first break, where the rules before hold.
pub fn settle(
    alloc: Global,
    problem: &Problem,
    places: &[Place],
    numbers: &[u32],
) -> Result<Lined, Fault>
    requires places { length places.now ≡ length problem.now.cells }
    requires numbers { length numbers.now ≡ length problem.now.cells }
    requires on_segments { AreOnSegments problem.now places.now numbers.now }
    ensures { MatchResult result (λ lined. AreClear problem.now places.now numbers.now lined.top lined.bottom) (IsFaultAfter problem.now places.now) }
{
    let lined = check_clear(alloc, problem, places, numbers)?;
    check_percent(problem, places, Die::Top)?;
    check_percent(problem, places, Die::Bottom)?;
    Ok(lined)
}
