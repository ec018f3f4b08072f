//! Reading the files of a request.

ghost use Rattle.std.specs.Prelude.{◌≡◌, ◌≤◌, ◌^◌, IfOk, IsErrOf};
ghost use Rattle.fp_base.specs.Faults.{Rose};
ghost use Rattle.fp_netlist.specs.Netlist.{IsSound};
ghost use Rattle.fp_tech.specs.Slots.{Slots, slot_count, IsGrid};
ghost use Rattle.fp_cert.specs.OfProblem.{IsRunOf};
ghost use Rattle.fp_check.specs.Answers.{AreNetsOf};
ghost use Rattle.faceplace.specs.Sources.{problem_in, drawing_in, cert_in};
ghost use Rattle.faceplace.specs.Input.{bytes_in, stop_of, GivesRead};

use crate::report::Cause;
use fp_base::Folder;
use fp_cert::{Run, read_cert};
use fp_contest_in::read_problem;
use fp_netlist::Problem;
use fp_out::read_out;
use fp_place::Drawn;
use fp_text::{TextFault, WholeFault, read_whole};
use std::alloc::Global;

/// The greatest length of an input or an output file, in bytes.
pub const MOST_INPUT: u64 = 1 << 28;

/// The greatest length of a certificate, in bytes.
pub const MOST_CERT: u64 = 1 << 30;

/// Why a file gives nothing.
#[derive(Clone, Copy, Debug, PartialEq, Eq)]
pub enum Stop {
    /// Memory was asked for and refused.
    Memory,
    /// The folder's device failed.
    Device,
    /// The file is refused.
    Refused(Cause),
}

/// The bytes of a file, of which there may be so many.
fn read_file<F: Folder>(
    alloc: Global,
    folder: &mut F,
    name: &str,
    limit: u64,
) -> Result<Vec<u8>, Stop>
    requires { limit ≤ 2 ^ 30 }
    ensures gives { GivesRead (λ v. v.items) (F.held folder.old) (bytes_in limit name.now) result }
    ensures device { IsErrOf result Stop.Device → Rose (F.faults folder.old) (F.faults folder.new) }
    ensures held { F.held folder.new ≡ F.held folder.old }
    ensures later { F.faults folder.old ≤ F.faults folder.new }
{
    match read_whole(alloc, folder, name, limit) {
        Ok(bytes) => Ok(bytes),
        Err(WholeFault::Missing) => Err(Stop::Refused(Cause::Missing)),
        Err(WholeFault::Long) => Err(Stop::Refused(Cause::Long)),
        Err(WholeFault::Device) => Err(Stop::Device),
        Err(WholeFault::Memory) => Err(Stop::Memory),
    }
}

// Why bytes that were read give nothing.
fn stop_of(fault: TextFault) -> Stop
    ensures { result ≡ stop_of fault }
{
    match fault {
        TextFault::Wrong { at, kind } => Stop::Refused(Cause::Wrong { at, kind }),
        TextFault::Memory => Stop::Memory,
    }
}

/// The problem of an input file.
pub fn read_input<F: Folder>(alloc: Global, folder: &mut F, name: &str) -> Result<Problem, Stop>
    ensures gives { GivesRead (λ p. p) (F.held folder.old) (problem_in name.now) result }
    ensures sound { IfOk result IsSound }
    ensures device { IsErrOf result Stop.Device → Rose (F.faults folder.old) (F.faults folder.new) }
    ensures held { F.held folder.new ≡ F.held folder.old }
    ensures later { F.faults folder.old ≤ F.faults folder.new }
{
    let bytes = read_file(alloc, folder, name, MOST_INPUT)?;
    match read_problem(alloc, &bytes) {
        Ok(problem) => {
            let _cells = problem.cells();
            Ok(problem)
        }
        Err(fault) => Err(stop_of(fault)),
    }
}

/// The drawing of an output file for a problem.
pub fn read_output<F: Folder>(
    alloc: Global,
    folder: &mut F,
    problem: &Problem,
    name: &str,
) -> Result<Drawn, Stop>
    ensures gives { GivesRead (λ d. d) (F.held folder.old) (drawing_in problem.now name.now) result }
    ensures nets { IfOk result (AreNetsOf problem.now) }
    ensures device { IsErrOf result Stop.Device → Rose (F.faults folder.old) (F.faults folder.new) }
    ensures held { F.held folder.new ≡ F.held folder.old }
    ensures later { F.faults folder.old ≤ F.faults folder.new }
{
    let bytes = read_file(alloc, folder, name, MOST_INPUT)?;
    match read_out(alloc, problem, &bytes) {
        Ok(drawn) => Ok(drawn),
        Err(fault) => Err(stop_of(fault)),
    }
}

/// The run of a certificate for a problem.
pub fn read_certificate<F: Folder>(
    alloc: Global,
    folder: &mut F,
    problem: &Problem,
    name: &str,
) -> Result<Run, Stop>
    ensures gives { (grid : Slots) → IsGrid problem.now.plan.frame problem.now.plan.terminal grid
        → GivesRead (λ r. r) (F.held folder.old) (cert_in problem.now (slot_count grid) name.now) result }
    ensures of_problem { (grid : Slots) → IsGrid problem.now.plan.frame problem.now.plan.terminal grid → IfOk result (IsRunOf problem.now (slot_count grid)) }
    ensures device { IsErrOf result Stop.Device → Rose (F.faults folder.old) (F.faults folder.new) }
    ensures held { F.held folder.new ≡ F.held folder.old }
    ensures later { F.faults folder.old ≤ F.faults folder.new }
{
    let bytes = read_file(alloc, folder, name, MOST_CERT)?;
    match read_cert(alloc, problem, &bytes) {
        Ok(run) => Ok(run),
        Err(fault) => Err(stop_of(fault)),
    }
}
