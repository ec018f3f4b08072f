//! Whether the cells of each die keep its percent.

ghost use Rattle.std.specs.Prelude.{◌≡◌, ◌≤◌, ◌<◌, ◌*◌, ◌+◌, ◌^◌, MatchResult, if◌then◌else◌, length};
ghost use Rattle.fp_netlist.specs.Points.{area};
ghost use Rattle.fp_place.specs.Areas.{area_on};
ghost use Rattle.fp_place.specs.Places.{same_die, dies_of};
ghost use Rattle.fp_place.specs.Legal.{KeepsPercent};
ghost use Rattle.fp_place.specs.FirstFaults.{IsFaultOf, percent_rule, side_subject};

use crate::caps::limit;
use crate::fault::Fault;
use crate::judge::Subject;
use crate::place::Place;
use fp_base::{CellId, Die};
use fp_netlist::Problem;

// The area that a cell takes on a die, if it stands there.
fn area_taken(problem: &Problem, cell: CellId, place: Place, die: Die) -> u64
    requires { cell.0 < length problem.now.cells }
    ensures area { result ≡ (if same_die place.die die then area problem.now cell.0 die else 0) }
    ensures small { result ≤ 2 ^ 60 }
{
    if place.die == die {
        problem.area(cell, die)
    } else {
        0
    }
}

// The area that a die's cells take.
fn area_on(problem: &Problem, places: &[Place], die: Die) -> u128
    requires { length places.now ≡ length problem.now.cells }
    ensures area { result ≡ area_on problem.now die (dies_of places.now) }
    ensures small { result ≤ 2 ^ 78 }
{
    let mut taken = 0u128;
    for cell in 0..problem.cells() {
        taken += u128::from(area_taken(problem, CellId(cell), places[cell as usize], die));
    }
    taken
}

// The number of a die's percent among the rules.
fn percent_rule(die: Die) -> u8
    ensures { result ≡ percent_rule die }
{
    match die {
        Die::Top => 5,
        Die::Bottom => 6,
    }
}

/// Rules 5 and 6: 100 times the area that a die's cells take is at most its percent of the die's area.
pub fn check_percent(problem: &Problem, places: &[Place], die: Die) -> Result<(), Fault>
    requires { length places.now ≡ length problem.now.cells }
    ensures { MatchResult result (λ _. KeepsPercent problem.now places.now die) (IsFaultOf 1 (λ _. KeepsPercent problem.now places.now die) (percent_rule die) (side_subject die)) }
{
    if 100 * area_on(problem, places, die) <= limit(problem, die) {
        Ok(())
    } else {
        Err(Fault::Breaks {
            rule: percent_rule(die),
            subject: Subject::Side(die),
        })
    }
}
