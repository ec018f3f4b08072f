//! The terminals of a trial: the best slots for its cut nets.

ghost use Rattle.std.specs.Prelude.{◌≡◌, ℕ, ◌<◌, ◌≤◌, ◌++◌, [], None, false, length, IfOk, OnOk, slice_index};
ghost use Rattle.fp_tech.specs.Slots.{slot_count, IsGrid};
ghost use Rattle.fp_place.specs.Cut.{is_cut, cut};
ghost use Rattle.fp_place.specs.Places.{dies_of};
ghost use Rattle.fp_place.specs.Placed.{places_of, IsPlacementOf};
ghost use Rattle.fp_match.specs.Prices.{IsChoice};
ghost use Rattle.fp_score.specs.Score.{terminal_at};
ghost use Rattle.fp_slots.specs.Table.{net_of};
ghost use Rattle.fp_flow.specs.Slotted.{with_slots, slotted_lines, IsSlotted};

use fp_base::{NoMemory, SlotId};
use fp_cert::{CutShown, Trial};
use fp_match::{Costs, Matcher};
use fp_netlist::Problem;
use fp_place::Placement;
use fp_slots::SlotCosts;
use fp_tech::Grid;
use std::alloc::Global;

/// Gives each cut net of a placement the slot that makes them shortest together, and lists them in a trial.
pub fn place_terminals(
    alloc: Global,
    problem: &Problem,
    grid: &Grid,
    matcher: &mut Matcher,
    placement: &mut Placement,
    trial: &mut Trial,
) -> Result<(), NoMemory>
    requires of_problem { IsPlacementOf problem.now placement.old }
    requires grid { IsGrid problem.now.plan.frame problem.now.plan.terminal grid.now }
    requires slots { cut problem.now (dies_of (places_of placement.old)) ≤ slot_count grid.now }
    requires rows { cut problem.now (dies_of (places_of placement.old)) ≤ matcher.old.row_room }
    requires columns { slot_count grid.now ≤ matcher.old.column_room }
    requires alone { (net : ℕ) → net < length problem.now.nets → is_cut problem.now (dies_of (places_of placement.old)) net ≡ false
        → terminal_at placement.old.terminals net ≡ None }
    requires no_cuts { trial.old.cuts ≡ [] }
    ensures slotted { OnOk result (IsSlotted problem.now grid.now placement.old placement.new trial.old trial.new) }
    ensures row_room { OnOk result (matcher.new.row_room ≡ matcher.old.row_room) }
    ensures column_room { OnOk result (matcher.new.column_room ≡ matcher.old.column_room) }
{
    let costs = SlotCosts::new(alloc, problem, placement, grid)?;
    matcher.solve(&costs);
    set_terminals(grid, &costs, matcher, placement);
    let listed = list_cuts(&costs, matcher, trial);
    drop(costs);
    listed
}

/// Sets the terminal of each row's net to its slot.
fn set_terminals(grid: &Grid, costs: &SlotCosts, matcher: &Matcher, placement: &mut Placement)
    requires choice { IsChoice (length costs.now.rows) (slot_count grid.now) matcher.now.chosen }
    requires nets { (row : ℕ) → row < length costs.now.rows → net_of costs.now row < length placement.old.terminals }
    ensures { placement.new ≡ record placement.old { terminals = with_slots grid.now costs.now matcher.now.chosen (length costs.now.rows) placement.old.terminals } }
{
    for row in 0..costs.rows() {
        let slot = SlotId(matcher.column_of(row));
        placement.set_terminal(costs.net_of(row), Some(grid.centre(slot)));
    }
}

/// Lists each row's net with its slot and the slot's price.
fn list_cuts(costs: &SlotCosts, matcher: &Matcher, trial: &mut Trial) -> Result<(), NoMemory>
    requires choice { IsChoice (length costs.now.rows) (length matcher.now.prices) matcher.now.chosen }
    ensures { OnOk result (trial.new ≡ record trial.old { cuts = trial.old.cuts ++ slotted_lines costs.now matcher.now (length costs.now.rows) }) }
{
    let rows = costs.rows();
    for row in 0..rows {
        let slot = matcher.column_of(row);
        trial.push_cut(CutShown {
            net: costs.net_of(row),
            slot: SlotId(slot),
            price: matcher.price(slot),
        })?;
    }
    Ok(())
}
