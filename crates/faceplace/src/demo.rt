//! The command that places the cells of an input that a number makes.

ghost use Rattle.std.specs.Prelude.{◌≡◌, Some, IfOk, length};
ghost use Rattle.fp_netlist.specs.Netlist.{Netlist};
ghost use Rattle.faceplace.specs.Asked.{IsMaking};
ghost use Rattle.faceplace.specs.Made.{text_made, IsMade};
ghost use Rattle.faceplace.specs.Request.{Demo};
ghost use Rattle.faceplace.specs.Status.{code_of};
ghost use Rattle.faceplace.specs.Run.{outside, EndsAs};

use crate::place::place_problem;
use crate::report::counts_line;
use crate::request::{Making, TRIALS};
use crate::status::Status;
use fp_base::{Folder, NoMemory, Sink};
use fp_contest_in::read_problem;
use fp_gen::make;
use fp_netlist::Problem;
use fp_text::TextFault;
use std::alloc::Global;

/// An input that was made: its problem, and the length of its text.
#[derive(Drop)]
struct Made {
    problem: Problem,
    bytes: usize,
}

/// Makes an input, and reads it.
fn read_made(alloc: Global, making: Making) -> Result<Made, NoMemory>
    requires { IsMaking making }
    ensures made { IfOk result (λ made. IsMade making made.problem) }
    ensures bytes { IfOk result (λ made. made.bytes ≡ length (text_made making)) }
{
    let text = make(
        alloc,
        u64::from(making.number),
        making.cells,
        making.percent,
    )?;
    match read_problem(alloc, &text) {
        Ok(problem) => {
            let _cells = problem.cells();
            let bytes = text.len();
            Ok(Made { problem, bytes })
        }
        Err(TextFault::Wrong { .. }) => unreachable!(),
        Err(TextFault::Memory) => Err(NoMemory),
    }
}

/// Places the cells of the problem that was made, of so many bytes, and reports its counts and the trials.
fn place_made<F: Folder, S: Sink>(
    alloc: Global,
    making: Making,
    problem: &Problem,
    bytes: usize,
    output: &str,
    cert: &str,
    folder: &mut F,
    out: &mut S,
) -> Status
    requires made { IsMade making problem.now }
    requires bytes { bytes ≡ length (text_made making) }
    ensures { EndsAs (Some (Demo making output.now cert.now)) (code_of result)
        (outside (F.held folder.old) (S.written out.old) (F.faults folder.old) (S.faults out.old))
        (outside (F.held folder.new) (S.written out.new) (F.faults folder.new) (S.faults out.new)) }
{
    match counts_line(alloc, problem.cells(), problem.nets(), bytes) {
        Ok(line) => place_problem(
            alloc,
            line.as_bytes(),
            problem,
            output,
            cert,
            TRIALS,
            folder,
            out,
        ),
        Err(_) => Status::NoMemory,
    }
}

/// Makes an input, places its cells in at most three trials beside the first one, writes the best placement and its certificate, and reports the
/// input's counts and the trials.
pub fn run_demo<F: Folder, S: Sink>(
    alloc: Global,
    making: Making,
    output: &str,
    cert: &str,
    folder: &mut F,
    out: &mut S,
) -> Status
    requires { IsMaking making }
    ensures { EndsAs (Some (Demo making output.now cert.now)) (code_of result)
        (outside (F.held folder.old) (S.written out.old) (F.faults folder.old) (S.faults out.old))
        (outside (F.held folder.new) (S.written out.new) (F.faults folder.new) (S.faults out.new)) }
{
    match read_made(alloc, making) {
        Ok(made) => place_made(
            alloc,
            making,
            &made.problem,
            made.bytes,
            output,
            cert,
            folder,
            out,
        ),
        Err(NoMemory) => Status::NoMemory,
    }
}
