//! One trial after another: the targets of the cells on settled dies, the choice of rows, and each row and the terminals placed best.

ghost use Rattle.std.specs.Prelude.{◌≡◌, ◌≤◌, All, IfOk, length, None};
ghost use Rattle.fp_tech.specs.Slots.{slot_count, IsGrid};
ghost use Rattle.fp_place.specs.Cut.{cut};
ghost use Rattle.fp_place.specs.Places.{dies_of};
ghost use Rattle.fp_place.specs.OnSlots.{AreOnCuts};
ghost use Rattle.fp_place.specs.Placed.{places_of, IsPlacementOf};
ghost use Rattle.fp_place.specs.Settled.{KeepRules, settled};
ghost use Rattle.fp_coarse.specs.Targets.{IsNearTarget};
ghost use Rattle.fp_cert.specs.Standing.{targets_shown};
ghost use Rattle.fp_cert.specs.Trials.{IsRowless};
ghost use Rattle.fp_flow.specs.Bases.{IsBase};
ghost use Rattle.fp_flow.specs.Buffers.{HaveRoom};
ghost use Rattle.fp_flow.specs.Steps.{IsLaid, IsEnded, IsFinished, IsOfTargets, IsNext};

use crate::buffers::Buffers;
use crate::layout::{Laid, lay};
use crate::rowless::rowless;
use crate::terminals::place_terminals;
use fp_base::{CellId, Die, NoMemory, Point};
use fp_cert::{Ending, Trial};
use fp_coarse::{Picked, pick, targets};
use fp_match::Matcher;
use fp_netlist::Problem;
use fp_place::Placement;
use fp_score::score;
use fp_tech::Grid;
use std::alloc::Global;

/// A trial, and the placement that it shows where it is better than its base.
#[derive(Drop)]
pub struct Made {
    pub trial: Trial,
    pub better: Option<Placement>,
}

/// The trial after a base, over dies that are settled from the base's.
pub fn step(
    alloc: Global,
    problem: &Problem,
    grid: &Grid,
    dies: &[Die],
    base: &Placement,
    shown: &Trial,
    buffers: &mut Buffers,
) -> Result<Made, NoMemory>
    requires grid { IsGrid problem.now.plan.frame problem.now.plan.terminal grid.now }
    requires base { IsBase problem.now grid.now shown.now base.now }
    requires dies { dies.now ≡ settled problem.now (dies_of (places_of base.now)) }
    requires slots { cut problem.now dies.now ≤ slot_count grid.now }
    requires room { HaveRoom problem.now grid.now dies.now buffers.old }
    ensures next { IfOk result (λ made. IsNext problem.now grid.now shown.now made.trial made.better) }
    ensures room { IfOk result (λ _. HaveRoom problem.now grid.now dies.now buffers.new) }
{
    let targets = targets(alloc, problem, base, dies)?;
    let made = by_targets(alloc, problem, grid, dies, &targets, shown.score(), buffers);
    drop(targets);
    made
}

/// The trial of dies and targets, after a base of a score.
fn by_targets(
    alloc: Global,
    problem: &Problem,
    grid: &Grid,
    dies: &[Die],
    targets: &[Point],
    before: u64,
    buffers: &mut Buffers,
) -> Result<Made, NoMemory>
    requires grid { IsGrid problem.now.plan.frame problem.now.plan.terminal grid.now }
    requires targets { length targets.now ≡ length problem.now.cells }
    requires near { All IsNearTarget targets.now }
    requires rules { KeepRules problem.now dies.now }
    requires slots { cut problem.now dies.now ≤ slot_count grid.now }
    requires room { HaveRoom problem.now grid.now dies.now buffers.old }
    ensures made { IfOk result (λ made. IsOfTargets problem.now grid.now dies.now targets.now before made.trial made.better) }
    ensures room { IfOk result (λ _. HaveRoom problem.now grid.now dies.now buffers.new) }
{
    let _cells = problem.cells();
    match pick(alloc, problem, dies, targets)? {
        Picked::Rows { top, bottom } => {
            let laid = lay(alloc, problem, targets, top, bottom, &mut buffers.rows)?;
            finish(alloc, problem, grid, before, &mut buffers.matcher, laid)
        }
        Picked::NoRow(cell) => without_row(alloc, problem, dies, cell),
    }
}

/// The trial of dies for which a cell finds no row.
fn without_row(
    alloc: Global,
    problem: &Problem,
    dies: &[Die],
    cell: CellId,
) -> Result<Made, NoMemory>
    requires { length dies.now ≡ length problem.now.cells }
    ensures trial { IfOk result (λ made. IsRowless problem.now dies.now cell.0 made.trial) }
    ensures none { IfOk result (λ made. made.better ≡ None) }
{
    Ok(Made {
        trial: rowless(alloc, problem, dies, cell)?,
        better: None,
    })
}

/// Gives a trial whose rows are placed its terminals, and ends it after a base of a score.
fn finish(
    alloc: Global,
    problem: &Problem,
    grid: &Grid,
    before: u64,
    matcher: &mut Matcher,
    mut laid: Laid,
) -> Result<Made, NoMemory>
    requires grid { IsGrid problem.now.plan.frame problem.now.plan.terminal grid.now }
    requires laid { IsLaid problem.now (targets_shown problem.now laid.trial) laid.trial laid.placement }
    requires rules { KeepRules problem.now (dies_of (places_of laid.placement)) }
    requires slots { cut problem.now (dies_of (places_of laid.placement)) ≤ slot_count grid.now }
    requires rows { cut problem.now (dies_of (places_of laid.placement)) ≤ matcher.old.row_room }
    requires columns { slot_count grid.now ≤ matcher.old.column_room }
    ensures made { IfOk result (λ made. IsFinished problem.now grid.now before laid.trial laid.placement made.trial made.better) }
    ensures row_room { IfOk result (λ _. matcher.new.row_room ≡ matcher.old.row_room) }
    ensures column_room { IfOk result (λ _. matcher.new.column_room ≡ matcher.old.column_room) }
{
    let _cells = problem.cells();
    place_terminals(
        alloc,
        problem,
        grid,
        matcher,
        &mut laid.placement,
        &mut laid.trial,
    )?;
    Ok(ended(problem, before, laid))
}

/// Ends a trial after a base of a score, by its own score.
fn ended(problem: &Problem, before: u64, laid: Laid) -> Made
    requires of_problem { IsPlacementOf problem.now laid.placement }
    requires on_cuts { AreOnCuts problem.now (dies_of (places_of laid.placement)) laid.placement.terminals }
    ensures { IsEnded problem.now before laid.trial laid.placement result.trial result.better }
{
    let Laid {
        mut trial,
        placement,
    } = laid;
    let score = score(problem, &placement);
    if score < before {
        trial.end(Ending::Better, score);
        Made {
            trial,
            better: Some(placement),
        }
    } else {
        trial.end(Ending::NotBetter, score);
        drop(placement);
        Made {
            trial,
            better: None,
        }
    }
}
