//! The first trial: the seed's cells where they stand, with the best terminals.

ghost use Rattle.std.specs.Prelude.{◌≡◌, ◌≤◌, OnOk};
ghost use Rattle.fp_tech.specs.Slots.{slot_count, IsGrid};
ghost use Rattle.fp_place.specs.Cut.{cut};
ghost use Rattle.fp_place.specs.OnSlots.{AreOnCuts};
ghost use Rattle.fp_place.specs.Places.{dies_of};
ghost use Rattle.fp_place.specs.Placed.{places_of, DoAgree, IsPlacementOf, IsInOrder};
ghost use Rattle.fp_place.specs.Settled.{KeepRules};
ghost use Rattle.fp_cert.specs.declared.shown.Ending.TheVariants.{Start};
ghost use Rattle.fp_cert.specs.OfProblem.{IsPlacedTrialOf};
ghost use Rattle.fp_cert.specs.Shown.{trial_without};
ghost use Rattle.fp_cert.specs.Trials.{IsStart};
ghost use Rattle.fp_flow.specs.Bases.{IsBase};
ghost use Rattle.fp_flow.specs.Firsts.{IsSeedPlaced};

use crate::still::show_still;
use crate::terminals::place_terminals;
use fp_base::NoMemory;
use fp_cert::{Ending, Trial};
use fp_match::Matcher;
use fp_netlist::Problem;
use fp_place::Placement;
use fp_score::score;
use fp_tech::Grid;
use std::alloc::Global;

/// Makes the first trial of a placement that is the seed's, in a trial without lists; the placement's terminals become the best ones.
pub fn fill_first(
    alloc: Global,
    problem: &Problem,
    grid: &Grid,
    matcher: &mut Matcher,
    placement: &mut Placement,
    trial: &mut Trial,
) -> Result<(), NoMemory>
    requires of_problem { IsPlacementOf problem.now placement.old }
    requires agree { DoAgree placement.old }
    requires in_order { IsInOrder problem.now placement.old }
    requires on_cuts { AreOnCuts problem.now (dies_of (places_of placement.old)) placement.old.terminals }
    requires grid { IsGrid problem.now.plan.frame problem.now.plan.terminal grid.now }
    requires slots { cut problem.now (dies_of (places_of placement.old)) ≤ slot_count grid.now }
    requires rows { cut problem.now (dies_of (places_of placement.old)) ≤ matcher.old.row_room }
    requires columns { slot_count grid.now ≤ matcher.old.column_room }
    requires rules { KeepRules problem.now (dies_of (places_of placement.old)) }
    requires seed { IsSeedPlaced problem.now grid.now placement.old }
    requires empty { trial.old ≡ trial_without Start 0 }
    ensures start { OnOk result (IsStart problem.now grid.now trial.new) }
    ensures in_range { OnOk result (IsPlacedTrialOf problem.now (slot_count grid.now) trial.new) }
    ensures base { OnOk result (IsBase problem.now grid.now trial.new placement.new) }
    ensures spots { OnOk result (placement.new.spots ≡ placement.old.spots) }
    ensures row_room { OnOk result (matcher.new.row_room ≡ matcher.old.row_room) }
    ensures column_room { OnOk result (matcher.new.column_room ≡ matcher.old.column_room) }
{
    let _cells = problem.cells();
    show_still(alloc, problem, placement, trial)?;
    place_terminals(alloc, problem, grid, matcher, placement, trial)?;
    trial.end(Ending::Start, score(problem, placement));
    Ok(())
}
