//! The calls of a thing in memory: how many there were, how many failed, and which are to fail.

ghost use Rattle.std.specs.Prelude.{◌≡◌, IfOk};
ghost use Rattle.fp_base.specs.Faults.{one_more};
ghost use Rattle.fp_base.specs.Memory.{is_due, counted, failed};

use crate::folder::NoMemory;
use std::alloc::Global;
use std::marker::Model;

/// Counts calls from 0, and faults. Both counts stand still at 2^64 - 1.
#[derive(Drop)]
pub struct CallCount {
    so_far: u64,
    faults: u64,
    fails: Vec<u64>,
}

impl Model for CallCount {
    ghost use Rattle.fp_base.specs.Memory.{Calls, calls_code};

    ghost Value = { Calls };

    ghost coded = { calls_code };

    ghost view = { λ c. record { so_far = c.so_far; faults = c.faults; fails = c.fails.items } };
}

impl CallCount {
    /// No call so far; those with these numbers are to fail.
    pub fn new(alloc: Global, fails: &[u64]) -> Result<CallCount, NoMemory>
        ensures { IfOk result (λ c. c ≡ record { so_far = 0; faults = 0; fails = fails.now }) }
    {
        let fails = Vec::from_slice(alloc, fails)?;
        Ok(CallCount {
            so_far: 0,
            faults: 0,
            fails,
        })
    }

    pub fn so_far(&self) -> u64
        ensures { result ≡ self.now.so_far }
    {
        self.so_far
    }

    /// Whether the next call is to fail.
    pub fn is_due(&self) -> bool
        ensures { result ≡ is_due self.now }
    {
        self.fails.contains(&self.so_far)
    }

    /// A call that did not fail.
    pub fn count(&mut self)
        ensures { self.new ≡ counted self.old }
    {
        self.so_far = risen(self.so_far);
    }

    /// A call that failed.
    pub fn fail(&mut self)
        ensures { self.new ≡ failed self.old }
    {
        self.count();
        self.faults = risen(self.faults);
    }
}

/// One more, as far as 2^64 - 1.
pub fn risen(count: u64) -> u64
    ensures { result ≡ one_more count }
{
    if count < u64::MAX { count + 1 } else { count }
}
