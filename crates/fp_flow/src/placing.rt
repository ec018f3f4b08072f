//! The placer: the seed, and trials after it.

ghost use Rattle.std.specs.Prelude.{◌≡◌, ◌≤◌, Ok, IfOk};
ghost use Rattle.fp_tech.specs.Slots.{Slots, slot_count, IsGrid};
ghost use Rattle.fp_place.specs.Cut.{cut};
ghost use Rattle.fp_place.specs.OnSlots.{AreOnCuts};
ghost use Rattle.fp_place.specs.Places.{dies_of};
ghost use Rattle.fp_place.specs.Placed.{places_of, DoAgree, IsInOrder, IsPlacementOf};
ghost use Rattle.fp_place.specs.Settled.{KeepRules};
ghost use Rattle.fp_seed.specs.Seeded.{SeedGives};
ghost use Rattle.fp_flow.specs.Chains.{CanStart, IsBegun, IsRunFrom};
ghost use Rattle.fp_flow.specs.Outcomes.{FlowGives};

use crate::buffers::Buffers;
use crate::chain::go_on;
use crate::first::fill_first;
use fp_base::{Die, NoMemory};
use fp_cert::{Ending, Run, Trial};
use fp_match::Matcher;
use fp_netlist::Problem;
use fp_part::{dies_of, settle};
use fp_place::Placement;
use fp_score::{Stop, score};
use fp_seed::{SeedFault, Seeded, seed};
use fp_tech::Grid;
use std::alloc::Global;

/// What the placer makes of a problem: the run of its trials with their duals and prices, the score of its seed, and the placement of the
/// run's answer.
#[derive(Drop)]
pub struct Outcome {
    pub run: Run,
    pub seed_score: u64,
    pub answer: Placement,
}

/// Why there is no outcome.
#[derive(Clone, Copy, Debug, PartialEq, Eq)]
pub enum FlowFault {
    /// Neither first fit stands: why each of them stops.
    Unfit { top_first: Stop, bottom_first: Stop },
    /// Memory was asked for and refused.
    Memory,
}

impl From<NoMemory> for FlowFault {
    ghost use Rattle.std.specs.Prelude.{◌≡◌};
    ghost use Rattle.fp_flow.specs.declared.placing.FlowFault.TheVariants.{Memory};

    ghost from_gives = { λ _ fault. fault ≡ Memory };

    fn from(_error: NoMemory) -> FlowFault {
        FlowFault::Memory
    }
}

/// Places the cells of a problem: the seed with its best terminals, and up to `trials` trials after it, from 1 to 8. Each settles the dies of
/// the one before it, takes each cell's place of least own length as its target, chooses rows by them, and places each row and the
/// terminals where they cost the least. The run goes on as long as a trial scores strictly less than the one before it. `Unfit` exactly
/// where the problem has no seed. The trials are our own rule; a row is placed after Abacus.
pub fn place(alloc: Global, problem: &Problem, trials: u32) -> Result<Outcome, FlowFault>
    requires some { 1 ≤ trials }
    requires few { trials ≤ 8 }
    ensures gives { FlowGives problem.now trials result }
{
    match seed(alloc, problem) {
        Ok(seeded) => Ok(place_seed(alloc, problem, trials, seeded)?),
        Err(SeedFault::Memory) => Err(FlowFault::Memory),
        Err(
            SeedFault::Unfit {
                top_first,
                bottom_first,
            },
        ) => Err(FlowFault::Unfit {
            top_first,
            bottom_first,
        }),
    }
}

/// The outcome of a seed.
fn place_seed(
    alloc: Global,
    problem: &Problem,
    limit: u32,
    seeded: Seeded,
) -> Result<Outcome, NoMemory>
    requires some { 1 ≤ limit }
    requires few { limit ≤ 8 }
    requires seed { SeedGives problem.now (Ok seeded) }
    requires in_order { IsInOrder problem.now seeded.placement }
    requires of_problem { IsPlacementOf problem.now seeded.placement }
    requires on_cuts { AreOnCuts problem.now (dies_of (places_of seeded.placement)) seeded.placement.terminals }
    requires rules { KeepRules problem.now (dies_of (places_of seeded.placement)) }
    requires slots { (grid : Slots) → IsGrid problem.now.plan.frame problem.now.plan.terminal grid
        → cut problem.now (dies_of (places_of seeded.placement)) ≤ slot_count grid }
    requires agree { DoAgree seeded.placement }
    ensures { IfOk result (λ o. FlowGives problem.now limit (Ok o)) }
{
    let _cells = problem.cells();
    let grid = Grid::of(problem.dies());
    let mut answer = seeded.placement;
    let seed_score = score(problem, &answer);
    let run = run_from(alloc, problem, &grid, limit, &mut answer)?;
    Ok(Outcome {
        run,
        seed_score,
        answer,
    })
}

/// The run from the seed's placement, which becomes that of the answer.
fn run_from(
    alloc: Global,
    problem: &Problem,
    grid: &Grid,
    limit: u32,
    answer: &mut Placement,
) -> Result<Run, NoMemory>
    requires grid { IsGrid problem.now.plan.frame problem.now.plan.terminal grid.now }
    requires some { 1 ≤ limit }
    requires seed { CanStart problem.now grid.now answer.old }
    ensures { IfOk result (λ run. IsRunFrom problem.now grid.now limit answer.old run answer.new) }
{
    let from = dies_of(alloc, problem, answer)?;
    let run = run_over(alloc, problem, grid, limit, &from, answer);
    drop(from);
    run
}

/// The run from the seed's placement, over the dies that its cells stand on.
fn run_over(
    alloc: Global,
    problem: &Problem,
    grid: &Grid,
    limit: u32,
    from: &[Die],
    answer: &mut Placement,
) -> Result<Run, NoMemory>
    requires grid { IsGrid problem.now.plan.frame problem.now.plan.terminal grid.now }
    requires some { 1 ≤ limit }
    requires seed { CanStart problem.now grid.now answer.old }
    requires from { from.now ≡ dies_of (places_of answer.old) }
    ensures { IfOk result (λ run. IsRunFrom problem.now grid.now limit answer.old run answer.new) }
{
    let mut buffers = Buffers::new(alloc, problem, grid, from)?;
    let mut run = first_run(alloc, problem, grid, limit, &mut buffers.matcher, answer)?;
    let dies = settle(alloc, problem, from)?;
    let made = go_on(
        alloc,
        problem,
        grid,
        &dies,
        limit,
        &mut buffers,
        &mut run,
        answer,
    );
    drop(dies);
    drop(buffers);
    match made {
        Ok(()) => Ok(run),
        Err(fault) => {
            drop(run);
            Err(fault)
        }
    }
}

/// The run that has its first trial alone: the seed's cells where they stand, with the best terminals.
fn first_run(
    alloc: Global,
    problem: &Problem,
    grid: &Grid,
    limit: u32,
    matcher: &mut Matcher,
    answer: &mut Placement,
) -> Result<Run, NoMemory>
    requires grid { IsGrid problem.now.plan.frame problem.now.plan.terminal grid.now }
    requires seed { CanStart problem.now grid.now answer.old }
    requires rows { cut problem.now (dies_of (places_of answer.old)) ≤ matcher.old.row_room }
    requires columns { slot_count grid.now ≤ matcher.old.column_room }
    ensures begun { IfOk result (λ run. IsBegun problem.now grid.now limit answer.old run answer.new) }
    ensures row_room { IfOk result (λ _. matcher.new.row_room ≡ matcher.old.row_room) }
    ensures column_room { IfOk result (λ _. matcher.new.column_room ≡ matcher.old.column_room) }
{
    let mut trial = Trial::new(alloc, Ending::Start, 0);
    fill_first(alloc, problem, grid, matcher, answer, &mut trial)?;
    let mut run = Run::new(alloc, limit, problem.dies().terminal().cost);
    run.push_trial(trial)?;
    Ok(run)
}
