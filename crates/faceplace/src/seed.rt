//! The command that seeds an input.

ghost use Rattle.std.specs.Prelude.{◌≡◌, IfOk, Ok, Some, string_bytes};
ghost use Rattle.fp_place.specs.Cut.{cut};
ghost use Rattle.fp_place.specs.Places.{dies_of};
ghost use Rattle.fp_place.specs.Placed.{places_of, IsPlacementOf};
ghost use Rattle.fp_score.specs.Terminals.{AreOnCuts};
ghost use Rattle.fp_seed.specs.Seeded.{SeedGives};
ghost use Rattle.faceplace.specs.Request.{Seed};
ghost use Rattle.faceplace.specs.Seeding.{IsLineOf};
ghost use Rattle.faceplace.specs.Status.{code_of};
ghost use Rattle.faceplace.specs.Run.{outside, EndsAs, EndsForProblem};

use crate::input::{self, MOST_INPUT, read_input};
use crate::refusal::{refuse, unfit};
use crate::report::seed_report;
use crate::status::{Status, tell};
use fp_base::{Folder, NetId, Sink};
use fp_netlist::Problem;
use fp_out::write_out;
use fp_place::Placement;
use fp_score::score;
use fp_seed::{SeedFault, Seeded, seed};
use fp_tech::Grid;
use std::alloc::{AllocError, Global};

/// The number of cut nets of a placement: exactly those have a terminal.
fn cut_nets(problem: &Problem, placement: &Placement) -> u32
    requires of_problem { IsPlacementOf problem.now placement.now }
    requires on_cuts { AreOnCuts problem.now (dies_of (places_of placement.now)) placement.now.terminals }
    ensures { result ≡ cut problem.now (dies_of (places_of placement.now)) }
{
    let mut count = 0;
    for net in 0..problem.nets() {
        if placement.terminal(NetId(net)).is_some() {
            count += 1;
        }
    }
    count
}

/// The line that reports a seed.
fn line_of(alloc: Global, problem: &Problem, seeded: &Seeded) -> Result<String, AllocError>
    requires of_problem { IsPlacementOf problem.now seeded.now.placement }
    requires on_cuts { AreOnCuts problem.now (dies_of (places_of seeded.now.placement)) seeded.now.placement.terminals }
    ensures { IfOk result (λ line. IsLineOf problem.now seeded.now.first seeded.now.placement (string_bytes line)) }
{
    let total = score(problem, &seeded.placement);
    let cut = cut_nets(problem, &seeded.placement);
    let slots = Grid::of(problem.dies()).slots();
    seed_report(alloc, total, seeded.first, cut, slots)
}

/// Writes a seed to an output file, and reports it.
fn write_seed<F: Folder, S: Sink>(
    alloc: Global,
    problem: &Problem,
    seeded: &Seeded,
    output: &str,
    folder: &mut F,
    out: &mut S,
) -> Status
    requires seed { SeedGives problem.now (Ok seeded.now) }
    requires of_problem { IsPlacementOf problem.now seeded.now.placement }
    requires on_cuts { AreOnCuts problem.now (dies_of (places_of seeded.now.placement)) seeded.now.placement.terminals }
    ensures { EndsForProblem problem.now (λ input. Seed input output.now) (code_of result)
        (outside (F.held folder.old) (S.written out.old) (F.faults folder.old) (S.faults out.old))
        (outside (F.held folder.new) (S.written out.new) (F.faults folder.new) (S.faults out.new)) }
{
    let Ok(line) = line_of(alloc, problem, seeded) else {
        return Status::NoMemory;
    };
    if write_out(folder, output, problem, &seeded.placement).is_err() {
        return Status::Device;
    }
    tell(out, line.as_bytes(), Status::Done)
}

/// Writes the first-fit placement of a problem to an output file, and reports it.
fn seed_problem<F: Folder, S: Sink>(
    alloc: Global,
    problem: &Problem,
    output: &str,
    folder: &mut F,
    out: &mut S,
) -> Status
    ensures { EndsForProblem problem.now (λ input. Seed input output.now) (code_of result)
        (outside (F.held folder.old) (S.written out.old) (F.faults folder.old) (S.faults out.old))
        (outside (F.held folder.new) (S.written out.new) (F.faults folder.new) (S.faults out.new)) }
{
    match seed(alloc, problem) {
        Ok(seeded) => write_seed(alloc, problem, &seeded, output, folder, out),
        Err(SeedFault::Memory) => Status::NoMemory,
        Err(
            SeedFault::Unfit {
                top_first,
                bottom_first,
            },
        ) => unfit(alloc, problem, top_first, bottom_first, out),
    }
}

/// Writes the first-fit placement of an input file to an output file, and reports it.
pub fn run_seed<F: Folder, S: Sink>(
    alloc: Global,
    input: &str,
    output: &str,
    folder: &mut F,
    out: &mut S,
) -> Status
    ensures { EndsAs (Some (Seed input.now output.now)) (code_of result)
        (outside (F.held folder.old) (S.written out.old) (F.faults folder.old) (S.faults out.old))
        (outside (F.held folder.new) (S.written out.new) (F.faults folder.new) (S.faults out.new)) }
{
    match read_input(alloc, folder, input) {
        Ok(problem) => seed_problem(alloc, &problem, output, folder, out),
        Err(input::Stop::Memory) => Status::NoMemory,
        Err(input::Stop::Device) => Status::Device,
        Err(input::Stop::Refused(cause)) => refuse(alloc, MOST_INPUT, input, cause, out),
    }
}
