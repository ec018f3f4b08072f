//! Condition 2: the trials go on as long as each is better, up to the limit, and the first of them alone is the start.

ghost use Rattle.std.specs.Prelude.{◌≡◌, ◌≢◌, ◌↔◌, ◌+◌, ◌<◌, ◌≤◌, ◌^◌, ℕ, IsTrue, length, slice_get, Some};
ghost use Rattle.fp_cert.specs.declared.shown.Ending.TheVariants as endings;
ghost use Rattle.fp_cert.specs.Shown.{ShownTrial};
ghost use Rattle.fp_cert.specs.Trials.{is_better, last_better};
ghost use Rattle.fp_check.specs.Conditions.{GoesOnFromStart};

use fp_cert::{Ending, Run, Trial};

/// Whether the trials of a run go on as they should.
pub fn goes_on(run: &Run) -> bool
    requires { run.now.limit ≤ 8 }
    ensures { IsTrue result ↔ GoesOnFromStart run.now }
{
    let trials = run.trials();
    let limit = run.limit() as usize;
    2 <= trials.len()
        && trials.len() <= limit + 1
        && starts_first(trials)
        && are_better_between(trials)
        && stops_rightly(trials, limit)
        && last_better(trials) == run.answer()
}

/// Whether the first trial is the start, and no other one.
fn starts_first(trials: &[Trial]) -> bool
    ensures { IsTrue result ↔ ((number : ℕ) (trial : ShownTrial) → slice_get trials.now number ≡ Some trial → (trial.ending ≡ endings.Start) ↔ (number ≡ 0)) }
{
    for number in 0..trials.len() {
        if is_start(trials[number].ending()) != (number == 0) {
            return false;
        }
    }
    true
}

/// Whether each trial but the first and the last is better than its base.
fn are_better_between(trials: &[Trial]) -> bool
    requires { 2 ≤ length trials.now }
    ensures { IsTrue result ↔ ((number : ℕ) (trial : ShownTrial) → 1 ≤ number → number + 1 < length trials.now
        → slice_get trials.now number ≡ Some trial → trial.ending ≡ endings.Better) }
{
    for number in 1..trials.len() - 1 {
        if !is_better(trials[number].ending()) {
            return false;
        }
    }
    true
}

/// Whether the last trial is not better, or is that of the limit.
fn stops_rightly(trials: &[Trial], limit: usize) -> bool
    requires some { 2 ≤ length trials.now }
    requires few { length trials.now ≤ limit + 1 }
    ensures { IsTrue result ↔ ((number : ℕ) (trial : ShownTrial) → number + 1 ≡ length trials.now → number < limit
        → slice_get trials.now number ≡ Some trial → trial.ending ≢ endings.Better) }
{
    let last = trials.len() - 1;
    last == limit || !is_better(trials[last].ending())
}

/// The number of the last trial that is better than its base, or 0.
fn last_better(trials: &[Trial]) -> u32
    requires { length trials.now ≤ 2 ^ 16 }
    ensures { result ≡ last_better 0 0 trials.now }
{
    let mut last = 0;
    for number in 0..trials.len() {
        if is_better(trials[number].ending()) {
            last = number as u32;
        }
    }
    last
}

fn is_start(ending: Ending) -> bool
    ensures { IsTrue result ↔ (ending ≡ endings.Start) }
{
    ending == Ending::Start
}

fn is_better(ending: Ending) -> bool
    ensures is { result ≡ is_better ending }
    ensures better { IsTrue result ↔ (ending ≡ endings.Better) }
{
    ending == Ending::Better
}
