//! Conditions 14 and 15: each score is that of its trial's cells and terminals, and each trial is better exactly where its score is below its
//! base's.

ghost use Rattle.std.specs.Prelude.{◌≡◌, ◌↔◌, IsTrue, true};
ghost use Rattle.fp_tech.specs.Slots.{Slots};
ghost use Rattle.fp_cert.specs.Endings.{has_rows};
ghost use Rattle.fp_cert.specs.Trials.{compared};
ghost use Rattle.fp_check.specs.Conditions.{OfPlaced, OfNextPlaced, AreCutsListed, IsScoreOf};
ghost use Rattle.fp_check.specs.Views.{AreViews, IsViewOf};

use crate::views::View;
use fp_cert::{Ending, Run, Trial};
use fp_netlist::Problem;
use fp_score::score;

/// Whether each score is that of its trial's cells and terminals. Each trial lists its cut nets, so that exactly they have a terminal.
pub fn are_scores(problem: &Problem, run: &Run, views: &[View]) -> bool
    requires views { (grid : Slots) × AreViews problem.now grid run.now views.now }
    requires listed { OfPlaced run.now (AreCutsListed problem.now) }
    ensures { (grid : Slots) → AreViews problem.now grid run.now views.now → IsTrue result ↔ OfPlaced run.now (IsScoreOf problem.now grid) }
{
    let trials = run.trials();
    for number in 0..trials.len() {
        if !is_score(problem, &trials[number], &views[number]) {
            return false;
        }
    }
    true
}

/// Whether a trial's score is that of its cells and terminals, where it placed its cells.
fn is_score(problem: &Problem, trial: &Trial, view: &View) -> bool
    requires view { (grid : Slots) × IsViewOf problem.now grid trial.now view.now }
    requires listed { has_rows trial.now.ending ≡ true → AreCutsListed problem.now trial.now }
    ensures { (grid : Slots) → IsViewOf problem.now grid trial.now view.now → IsTrue result ↔ (has_rows trial.now.ending ≡ true → IsScoreOf problem.now grid trial.now) }
{
    match &view.layout {
        Some(layout) => score(problem, &layout.placement) == trial.score(),
        None => true,
    }
}

/// Whether each trial behind the first that placed its cells is better exactly where its score is strictly below its base's.
pub fn are_better_rightly(run: &Run) -> bool
    ensures { IsTrue result ↔ OfNextPlaced run.now (λ base trial. trial.ending ≡ compared trial.score base.score) }
{
    let trials = run.trials();
    for number in 1..trials.len() {
        if !ends_rightly(&trials[number - 1], &trials[number]) {
            return false;
        }
    }
    true
}

/// Whether a trial is better exactly where its score is strictly below its base's, where it placed its cells.
fn ends_rightly(base: &Trial, trial: &Trial) -> bool
    ensures { IsTrue result ↔ (has_rows trial.now.ending ≡ true → trial.now.ending ≡ compared trial.now.score base.now.score) }
{
    match trial.ending() {
        Ending::Start => false,
        Ending::Better => trial.score() < base.score(),
        Ending::NotBetter => base.score() <= trial.score(),
        Ending::NoRow(_) => true,
    }
}
