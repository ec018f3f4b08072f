//! Conditions 5 to 7: the dies of each trial behind the first keep the rules, cut no more nets than its base's, and are settled from them.

ghost use Rattle.std.specs.Prelude.{◌≡◌, ◌↔◌, ◌≤◌, IfOk, IsTrue, Some, length, slice_get};
ghost use Rattle.fp_tech.specs.Slots.{Slots};
ghost use Rattle.fp_place.specs.Cut.{cut};
ghost use Rattle.fp_place.specs.Settled.{KeepRules, settled};
ghost use Rattle.fp_cert.specs.Standing.{dies_shown};
ghost use Rattle.fp_check.specs.Conditions.{OfNext};
ghost use Rattle.fp_check.specs.Views.{AreViews};

use crate::views::View;
use fp_base::{Die, NoMemory};
use fp_cert::Run;
use fp_netlist::Problem;
use fp_part::settle;
use fp_place::{cut, keeps_rules};
use std::alloc::Global;

/// Whether the dies of each trial behind the first keep the rules.
pub fn keep_rules(problem: &Problem, run: &Run, views: &[View]) -> bool
    requires { (grid : Slots) × AreViews problem.now grid run.now views.now }
    ensures { IsTrue result ↔ OfNext run.now (λ base trial. KeepRules problem.now (dies_shown problem.now trial)) }
{
    for number in 1..run.trials().len() {
        if !keeps_rules(problem, &views[number].dies) {
            return false;
        }
    }
    true
}

/// Whether the dies of each trial behind the first cut no more nets than its base's.
pub fn cut_no_more(problem: &Problem, run: &Run, views: &[View]) -> bool
    requires { (grid : Slots) × AreViews problem.now grid run.now views.now }
    ensures { IsTrue result ↔ OfNext run.now (λ base trial. cut problem.now (dies_shown problem.now trial) ≤ cut problem.now (dies_shown problem.now base)) }
{
    for number in 1..run.trials().len() {
        if cut(problem, &views[number].dies) > cut(problem, &views[number - 1].dies) {
            return false;
        }
    }
    true
}

/// Whether the dies of each trial behind the first are settled from its base's. Settled dies stay as they are, so those of all of them are
/// settled from the first trial's.
pub fn are_settled(
    alloc: Global,
    problem: &Problem,
    run: &Run,
    views: &[View],
) -> Result<bool, NoMemory>
    requires views { (grid : Slots) × AreViews problem.now grid run.now views.now }
    requires some { 1 ≤ length views.now }
    requires rules { (first : View) → slice_get views.now 0 ≡ Some first → KeepRules problem.now first.dies.items }
    ensures { IfOk result (λ b. IsTrue b ↔ OfNext run.now (λ base trial. dies_shown problem.now trial ≡ settled problem.now (dies_shown problem.now base))) }
{
    let settled = settle(alloc, problem, &views[0].dies)?;
    for number in 1..run.trials().len() {
        if !are_same(&views[number].dies, &settled) {
            return Ok(false);
        }
    }
    Ok(true)
}

/// Whether two lists of dies are one.
fn are_same(dies: &[Die], others: &[Die]) -> bool
    ensures { IsTrue result ↔ (dies.now ≡ others.now) }
{
    dies == others
}
