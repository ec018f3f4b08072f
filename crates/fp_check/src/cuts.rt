//! Conditions 12 and 13: the lines of cut nets are exactly the cut nets, in file order, with slots of their own, and the prices show that no
//! other slots are better.

ghost use Rattle.std.specs.Prelude.{◌≡◌, ◌↔◌, ◌<◌, ◌≤◌, ◌^◌, All, IfOk, IsTrue, length, map, nat_eq, true};
ghost use Rattle.std.specs.List.{IsDistinct};
ghost use Rattle.fp_tech.specs.Slots.{slot_count, IsGrid};
ghost use Rattle.fp_cert.specs.Certified.{ArePricesShown};
ghost use Rattle.fp_cert.specs.Endings.{has_rows};
ghost use Rattle.fp_cert.specs.OfProblem.{most_shown, IsCutOf, IsRunOf};
ghost use Rattle.fp_check.specs.Conditions.{OfPlaced, AreCutsListed};
ghost use Rattle.fp_check.specs.CutLines.{slots_of, nets_in, prices_by, with_prices, AreBest};
ghost use Rattle.fp_check.specs.Views.{AreViews, IsLayoutOf, IsViewOf};

use crate::views::{Layout, View};
use fp_base::NoMemory;
use fp_cert::{CutShown, Run, Trial};
use fp_match::{Choice, ChoiceFault, Costs, prices_shown};
use fp_netlist::Problem;
use fp_slots::SlotCosts;
use fp_tech::Grid;
use std::alloc::Global;

/// Whether each trial that placed its cells lists exactly its cut nets, in file order, with slots of their own.
pub fn list_cuts(
    alloc: Global,
    problem: &Problem,
    grid: &Grid,
    run: &Run,
    views: &[View],
) -> Result<bool, NoMemory>
    requires grid { IsGrid problem.now.plan.frame problem.now.plan.terminal grid.now }
    requires of_problem { IsRunOf problem.now (slot_count grid.now) run.now }
    requires views { AreViews problem.now grid.now run.now views.now }
    ensures { IfOk result (λ b. IsTrue b ↔ OfPlaced run.now (AreCutsListed problem.now)) }
{
    let trials = run.trials();
    for number in 0..trials.len() {
        if !lists_cuts(alloc, problem, grid, &trials[number], &views[number])? {
            return Ok(false);
        }
    }
    Ok(true)
}

/// Whether a trial lists exactly its cut nets, in file order, with slots of their own, where it placed its cells.
fn lists_cuts(
    alloc: Global,
    problem: &Problem,
    grid: &Grid,
    trial: &Trial,
    view: &View,
) -> Result<bool, NoMemory>
    requires grid { IsGrid problem.now.plan.frame problem.now.plan.terminal grid.now }
    requires cuts { All (IsCutOf problem.now (slot_count grid.now)) trial.now.cuts }
    requires view { IsViewOf problem.now grid.now trial.now view.now }
    ensures { IfOk result (λ b. IsTrue b ↔ (has_rows trial.now.ending ≡ true → AreCutsListed problem.now trial.now)) }
{
    match &view.layout {
        Some(layout) => lists_cuts_of(alloc, problem, grid, trial, layout),
        None => Ok(true),
    }
}

/// Whether a trial lists exactly the cut nets of its layout, in file order, with slots of their own.
fn lists_cuts_of(
    alloc: Global,
    problem: &Problem,
    grid: &Grid,
    trial: &Trial,
    layout: &Layout,
) -> Result<bool, NoMemory>
    requires grid { IsGrid problem.now.plan.frame problem.now.plan.terminal grid.now }
    requires cuts { All (IsCutOf problem.now (slot_count grid.now)) trial.now.cuts }
    requires layout { IsLayoutOf problem.now grid.now trial.now layout.now }
    ensures { IfOk result (λ b. IsTrue b ↔ AreCutsListed problem.now trial.now) }
{
    let costs = SlotCosts::new(alloc, problem, &layout.placement, grid)?;
    let listed = lists_rows(&costs, trial.cuts());
    drop(costs);
    if !listed {
        return Ok(false);
    }
    have_own_slots(alloc, grid, trial.cuts())
}

/// Whether lines are those of a table's nets, one for each row in order.
fn lists_rows(costs: &SlotCosts, cuts: &[CutShown]) -> bool
    ensures { IsTrue result ↔ (map (λ cut. cut.net.0) cuts.now ≡ nets_in costs.now) }
{
    if cuts.len() != costs.rows() as usize {
        return false;
    }
    for row in 0..costs.rows() {
        if cuts[row as usize].net.0 != costs.net_of(row).0 {
            return false;
        }
    }
    true
}

/// Whether no two lines have one slot.
fn have_own_slots(alloc: Global, grid: &Grid, cuts: &[CutShown]) -> Result<bool, NoMemory>
    requires { All (λ cut. cut.slot.0 < slot_count grid.now) cuts.now }
    ensures { IfOk result (λ b. IsTrue b ↔ IsDistinct nat_eq (slots_of cuts.now)) }
{
    let slots = slots_of(alloc, cuts)?;
    are_distinct(alloc, grid.slots(), &slots)
}

/// The slots of lines.
fn slots_of(alloc: Global, cuts: &[CutShown]) -> Result<Vec<u32>, NoMemory>
    ensures { IfOk result (λ slots. slots.items ≡ slots_of cuts.now) }
{
    let mut slots = Vec::new(alloc);
    for cut in cuts {
        slots.push(cut.slot.0)?;
    }
    Ok(slots)
}

/// Whether no two of these slots are one.
fn are_distinct(alloc: Global, count: u32, slots: &[u32]) -> Result<bool, NoMemory>
    requires { All (λ s. s < count) slots.now }
    ensures { IfOk result (λ b. IsTrue b ↔ IsDistinct nat_eq slots.now) }
{
    match Choice::new(alloc, count, slots) {
        Ok(choice) => {
            drop(choice);
            Ok(true)
        }
        Err(ChoiceFault::Same { .. }) => Ok(false),
        Err(ChoiceFault::Memory) => Err(NoMemory),
    }
}

/// Whether the prices of each trial that placed its cells show that its cut nets have the best slots.
pub fn have_prices(
    alloc: Global,
    problem: &Problem,
    grid: &Grid,
    run: &Run,
    views: &[View],
) -> Result<bool, NoMemory>
    requires grid { IsGrid problem.now.plan.frame problem.now.plan.terminal grid.now }
    requires of_problem { IsRunOf problem.now (slot_count grid.now) run.now }
    requires views { AreViews problem.now grid.now run.now views.now }
    requires listed { OfPlaced run.now (AreCutsListed problem.now) }
    ensures { IfOk result (λ b. IsTrue b ↔ OfPlaced run.now (ArePricesShown problem.now grid.now)) }
{
    let trials = run.trials();
    for number in 0..trials.len() {
        if !has_prices(alloc, problem, grid, &trials[number], &views[number])? {
            return Ok(false);
        }
    }
    Ok(true)
}

/// Whether a trial's prices show that its cut nets have the best slots, where it placed its cells.
fn has_prices(
    alloc: Global,
    problem: &Problem,
    grid: &Grid,
    trial: &Trial,
    view: &View,
) -> Result<bool, NoMemory>
    requires grid { IsGrid problem.now.plan.frame problem.now.plan.terminal grid.now }
    requires cuts { All (IsCutOf problem.now (slot_count grid.now)) trial.now.cuts }
    requires view { IsViewOf problem.now grid.now trial.now view.now }
    requires listed { has_rows trial.now.ending ≡ true → AreCutsListed problem.now trial.now }
    ensures { IfOk result (λ b. IsTrue b ↔ (has_rows trial.now.ending ≡ true → ArePricesShown problem.now grid.now trial.now)) }
{
    match &view.layout {
        Some(layout) => has_prices_of(alloc, problem, grid, trial, layout),
        None => Ok(true),
    }
}

/// Whether a trial's prices show that the cut nets of its layout have the best slots.
fn has_prices_of(
    alloc: Global,
    problem: &Problem,
    grid: &Grid,
    trial: &Trial,
    layout: &Layout,
) -> Result<bool, NoMemory>
    requires grid { IsGrid problem.now.plan.frame problem.now.plan.terminal grid.now }
    requires cuts { All (IsCutOf problem.now (slot_count grid.now)) trial.now.cuts }
    requires layout { IsLayoutOf problem.now grid.now trial.now layout.now }
    requires listed { AreCutsListed problem.now trial.now }
    ensures { IfOk result (λ b. IsTrue b ↔ ArePricesShown problem.now grid.now trial.now) }
{
    let costs = SlotCosts::new(alloc, problem, &layout.placement, grid)?;
    let shown = are_best(alloc, &costs, trial.cuts());
    drop(costs);
    shown
}

/// Whether the prices of lines, one for each row of a table, show that the lines' slots are the best. No two lines have one slot, so their
/// slots are a choice, and nothing but memory can be wanting.
fn are_best(alloc: Global, costs: &SlotCosts, cuts: &[CutShown]) -> Result<bool, NoMemory>
    requires many { length cuts.now ≡ length costs.now.rows }
    requires slots { All (λ cut. cut.slot.0 < slot_count costs.now.grid) cuts.now }
    requires prices { All (λ cut. cut.price ≤ most_shown) cuts.now }
    requires distinct { IsDistinct nat_eq (slots_of cuts.now) }
    ensures { IfOk result (λ b. IsTrue b ↔ AreBest costs.now cuts.now) }
{
    let slots = slots_of(alloc, cuts)?;
    match Choice::new(alloc, costs.columns(), &slots) {
        Ok(choice) => {
            let shown = show_best(alloc, costs, &choice, cuts);
            drop(choice);
            shown
        }
        Err(_) => Err(NoMemory),
    }
}

/// Whether the prices of lines show that a choice, which is that of the lines' slots, costs least.
fn show_best(
    alloc: Global,
    costs: &SlotCosts,
    choice: &Choice,
    cuts: &[CutShown],
) -> Result<bool, NoMemory>
    requires many { length cuts.now ≡ length costs.now.rows }
    requires slots { All (λ cut. cut.slot.0 < slot_count costs.now.grid) cuts.now }
    requires prices { All (λ cut. cut.price ≤ most_shown) cuts.now }
    requires choice { choice.now ≡ record { columns = slot_count costs.now.grid; chosen = slots_of cuts.now } }
    ensures { IfOk result (λ b. IsTrue b ↔ AreBest costs.now cuts.now) }
{
    let prices = prices_of(alloc, costs.columns(), cuts)?;
    Ok(prices_shown(costs, choice, &prices))
}

/// The price of each slot: that of its first line, and 0 where it has none.
fn prices_of(alloc: Global, slots: u32, cuts: &[CutShown]) -> Result<Vec<u64>, NoMemory>
    requires slots { All (λ cut. cut.slot.0 < slots) cuts.now }
    requires prices { All (λ cut. cut.price ≤ most_shown) cuts.now }
    ensures prices { IfOk result (λ prices. prices.items ≡ prices_by slots cuts.now) }
    ensures capped { IfOk result (λ prices. All (λ p. p ≤ 2 ^ 60) prices.items) }
{
    let mut prices = vec![in alloc; 0; slots as usize]?;
    set_prices(cuts, &mut prices);
    Ok(prices)
}

/// Sets the price of each line's slot, the last line's first, so that a slot has that of its first line.
fn set_prices(cuts: &[CutShown], prices: &mut Vec<u64>)
    requires { All (λ cut. cut.slot.0 < length prices.old.items) cuts.now }
    ensures { prices.new.items ≡ with_prices cuts.now prices.old.items }
{
    for line in (0..cuts.len()).rev() {
        let cut = cuts[line];
        prices[cut.slot.0 as usize] = cut.price;
    }
}
