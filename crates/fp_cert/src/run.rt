//! A run of trials.

ghost use Rattle.std.specs.Prelude.{◌≡◌, ◌≤◌, ◌^◌, MatchResult};
ghost use Rattle.fp_cert.specs.Shown.{run_without, with_trial};

use crate::trial::Trial;
use fp_base::NoMemory;
use std::alloc::Global;
use std::marker::Model;

/// A run: how many trials may be made behind the first one, the cost of each terminal, the trials, and the number of the trial that is
/// the answer.
#[derive(Drop)]
pub struct Run {
    limit: u32,
    cost: u32,
    trials: Vec<Trial>,
    answer: u32,
}

impl Model for Run {
    ghost use Rattle.std.specs.Prelude.{◌≤◌, ◌^◌};
    ghost use Rattle.fp_cert.specs.Shown.{ShownRun};

    ghost Value = { ShownRun };

    ghost view = { λ r. record { limit = r.limit; cost = r.cost; trials = r.trials.items; answer = r.answer } };

    ghost invariant = { λ r. r.cost ≤ 2 ^ 30 };
}

impl Run {
    /// A run without trials, with the answer 0. The cost is at most 2^30. It takes no memory.
    pub fn new(alloc: Global, limit: u32, cost: u32) -> Run
        requires { cost ≤ 2 ^ 30 }
        ensures { result ≡ run_without limit cost }
    {
        Run {
            limit,
            cost,
            trials: Vec::new(alloc),
            answer: 0,
        }
    }

    /// How many trials may be made behind the first one.
    pub fn limit(&self) -> u32
        ensures { result ≡ self.now.limit }
    {
        self.limit
    }

    /// The cost of each terminal, at most 2^30.
    pub fn cost(&self) -> u32
        ensures cost { result ≡ self.now.cost }
        ensures small { result ≤ 2 ^ 30 }
    {
        self.cost
    }

    /// The trials, by their numbers from 0.
    pub fn trials(&self) -> &[Trial]
        ensures { result.now ≡ self.now.trials }
    {
        self.trials.as_slice()
    }

    /// The number of the trial that is the answer.
    pub fn answer(&self) -> u32
        ensures { result ≡ self.now.answer }
    {
        self.answer
    }

    /// Adds a trial behind the others. Without memory nothing changes, and the trial is dropped.
    pub fn push_trial(&mut self, trial: Trial) -> Result<(), NoMemory>
        ensures { MatchResult result (λ _. self.new ≡ with_trial self.old trial) (λ _. self.new ≡ self.old) }
    {
        self.trials.push(trial)?;
        Ok(())
    }

    /// Changes the answer alone.
    pub fn set_answer(&mut self, answer: u32)
        ensures { self.new ≡ record self.old { answer = answer } }
    {
        self.answer = answer;
    }
}
