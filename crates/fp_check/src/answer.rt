//! Condition 16: the drawing is that of the answer.

ghost use Rattle.std.specs.Prelude.{◌≡◌, ◌↔◌, IfOk, IsTrue};
ghost use Rattle.fp_place.specs.Legal.{IsLegal};
ghost use Rattle.fp_place.specs.OnSlots.{AreOnCuts};
ghost use Rattle.fp_place.specs.Placed.{place_of, places_of, IsPlacementOf};
ghost use Rattle.fp_place.specs.Places.{dies_of};
ghost use Rattle.fp_check.specs.Conditions.{Draws};

use fp_base::{CellId, NetId, NoMemory, Point};
use fp_netlist::Problem;
use fp_place::{Drawn, Judged, Placement, Spot, verdict};
use std::alloc::Global;

/// Whether a drawing has each cell of a placement exactly once, at its place, and exactly its terminals, each once. Each drawing of the
/// placement is legal, and exactly the placement's cut nets have a terminal.
pub fn draws(
    alloc: Global,
    problem: &Problem,
    drawn: &Drawn,
    placement: &Placement,
) -> Result<bool, NoMemory>
    requires of_problem { IsPlacementOf problem.now placement.now }
    requires legal { Draws problem.now drawn.now placement.now → IsLegal problem.now drawn.now }
    requires on_cuts { AreOnCuts problem.now (dies_of (places_of placement.now)) placement.now.terminals }
    ensures { IfOk result (λ b. IsTrue b ↔ Draws problem.now drawn.now placement.now) }
{
    match verdict(alloc, problem, drawn)? {
        Judged::Legal(other) => {
            let same = are_alike(problem, &other, placement);
            drop(other);
            Ok(same)
        }
        Judged::Breaks { .. } => Ok(false),
    }
}

/// Whether two placements have each cell at one place, and the same terminals.
fn are_alike(problem: &Problem, first: &Placement, second: &Placement) -> bool
    requires first { IsPlacementOf problem.now first.now }
    requires second { IsPlacementOf problem.now second.now }
    ensures { IsTrue result ↔ ((places_of first.now ≡ places_of second.now) × (first.now.terminals ≡ second.now.terminals)) }
{
    stand_alike(problem, first, second) && have_same_terminals(problem, first, second)
}

/// Whether each cell of two placements is at one place.
fn stand_alike(problem: &Problem, first: &Placement, second: &Placement) -> bool
    requires first { IsPlacementOf problem.now first.now }
    requires second { IsPlacementOf problem.now second.now }
    ensures { IsTrue result ↔ (places_of first.now ≡ places_of second.now) }
{
    for number in 0..problem.cells() {
        let cell = CellId(number);
        if !is_at_one_place(first.spot(cell), second.spot(cell)) {
            return false;
        }
    }
    true
}

/// Whether two spots are at one place.
fn is_at_one_place(first: Spot, second: Spot) -> bool
    ensures { IsTrue result ↔ (place_of first ≡ place_of second) }
{
    first.die == second.die && first.x == second.x && first.y == second.y
}

/// Whether each net of two placements has one terminal, or none in both.
fn have_same_terminals(problem: &Problem, first: &Placement, second: &Placement) -> bool
    requires first { IsPlacementOf problem.now first.now }
    requires second { IsPlacementOf problem.now second.now }
    ensures { IsTrue result ↔ (first.now.terminals ≡ second.now.terminals) }
{
    for number in 0..problem.nets() {
        let net = NetId(number);
        if !is_one_terminal(first.terminal(net), second.terminal(net)) {
            return false;
        }
    }
    true
}

/// Whether two terminals are one, or there is none in both.
fn is_one_terminal(first: Option<Point>, second: Option<Point>) -> bool
    ensures { IsTrue result ↔ (first ≡ second) }
{
    first == second
}
