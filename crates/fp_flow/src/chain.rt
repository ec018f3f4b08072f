//! The trials of a run, one after the other as long as each is better than the one before it.

ghost use Rattle.std.specs.Prelude.{◌≡◌, ◌≤◌, IfOk, OnOk, slice_get};
ghost use Rattle.fp_tech.specs.Slots.{slot_count, IsGrid};
ghost use Rattle.fp_place.specs.Cut.{cut};
ghost use Rattle.fp_flow.specs.Buffers.{HaveRoom};
ghost use Rattle.fp_flow.specs.Chains.{IsAdded, IsGoing, IsWhole};

use crate::buffers::Buffers;
use crate::step::{Made, step};
use fp_base::{Die, NoMemory};
use fp_cert::Run;
use fp_netlist::Problem;
use fp_place::Placement;
use fp_tech::Grid;
use std::alloc::Global;

/// Adds trials to a run that has its first one, at most as many as its limit, as long as each is better than the one before it. The
/// answer is the last that is better, or the first.
pub fn go_on(
    alloc: Global,
    problem: &Problem,
    grid: &Grid,
    dies: &[Die],
    limit: u32,
    buffers: &mut Buffers,
    run: &mut Run,
    answer: &mut Placement,
) -> Result<(), NoMemory>
    requires grid { IsGrid problem.now.plan.frame problem.now.plan.terminal grid.now }
    requires slots { cut problem.now dies.now ≤ slot_count grid.now }
    requires room { HaveRoom problem.now grid.now dies.now buffers.old }
    requires some { 1 ≤ limit }
    requires going { IsGoing problem.now grid.now dies.now limit run.old answer.old }
    requires first { run.old.answer ≡ 0 }
    ensures whole { OnOk result (IsWhole problem.now grid.now limit run.new answer.new) }
    ensures first { OnOk result (slice_get run.new.trials 0 ≡ slice_get run.old.trials 0) }
{
    for number in 0..limit {
        let base = &run.trials()[number as usize];
        let made = step(alloc, problem, grid, dies, answer, base, buffers)?;
        if !add(made, number + 1, run, answer)? {
            return Ok(());
        }
    }
    Ok(())
}

/// Adds a trial to a run, which is the answer where it is better; tells whether it is.
fn add(made: Made, number: u32, run: &mut Run, answer: &mut Placement) -> Result<bool, NoMemory>
    ensures { IfOk result (λ goes. IsAdded number made.trial made.better goes run.old run.new answer.old answer.new) }
{
    let Made { trial, better } = made;
    run.push_trial(trial)?;
    match better {
        Some(placement) => {
            *answer = placement;
            run.set_answer(number);
            Ok(true)
        }
        None => Ok(false),
    }
}
