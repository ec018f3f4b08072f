//! The generator: the words of PCG32 (O'Neill, "PCG: a family of simple fast space-efficient statistically good algorithms for random number
//! generation") choose the cells and the pins of a problem whose dies are wide enough for them. The problem is our own.

ghost use Rattle.std.specs.Prelude.{◌≡◌, ◌++◌, ◌≤◌, ◌^◌, IfOk};
ghost use Rattle.fp_contest_in.specs.PrintedText.{line, numbers};
ghost use Rattle.fp_gen.specs.MakeText.{words_of, make_text};
ghost use Rattle.fp_gen.specs.Written.{Adds, netlist_text};
ghost use Rattle.fp_gen.specs.ReadsAsMade.{ReadsAsMade};

use crate::cells::push_insts;
use crate::dies::{push_setup, side_of};
use crate::lines::push_line;
use crate::nets::push_nets;
use crate::techs::push_techs;
use fp_base::NoMemory;
use rand_pcg::Pcg32;
use std::alloc::{AllocError, Global};

/// The stream of the generator's words.
const STREAM: u64 = 54;

/// Adds the cells and the nets.
fn push_netlist(text: &mut Vec<u8>, words: &mut Pcg32, cells: u32) -> Result<(), AllocError>
    requires some { 1 ≤ cells }
    requires few { cells ≤ 100000 }
    ensures { IfOk result (λ _. Adds (netlist_text cells words.old) text.old.items text.new.items) }
{
    push_line(text, b"NumInstances", &[cells])?;
    push_insts(text, words, cells)?;
    push_line(text, b"NumNets", &[cells])?;
    push_nets(text, words, cells)
}

/// All of the text.
fn push_problem(text: &mut Vec<u8>, number: u64, cells: u32, percent: u32) -> Result<(), AllocError>
    requires some { 1 ≤ cells }
    requires few { cells ≤ 100000 }
    requires share { percent ≤ 80 }
    ensures { IfOk result (λ _. Adds (make_text number cells percent) text.old.items text.new.items) }
{
    let mut words = Pcg32::new(number, STREAM);
    push_techs(text)?;
    push_setup(text, side_of(cells), percent)?;
    push_netlist(text, &mut words, cells)
}

/// The text of the contest input that a number makes, up to 2^30: it has so many cells, from 1 to 100,000, and as many nets. The top die may be
/// used up to a percentage of at most 80, the bottom die up to 80; cells that the top die has no room for make cut nets. The same number makes
/// the same text. The rules of the text are our own.
pub fn make(alloc: Global, number: u64, cells: u32, percent: u32) -> Result<Vec<u8>, NoMemory>
    requires number { number ≤ 2 ^ 30 }
    requires some { 1 ≤ cells }
    requires few { cells ≤ 100000 }
    requires share { percent ≤ 80 }
    ensures text { IfOk result (λ text. text.items ≡ make_text number cells percent) }
    // It reads as the problem that it was made from.
    ensures reads { IfOk result (λ _. ReadsAsMade number cells percent) }
{
    let mut text = Vec::new(alloc);
    match push_problem(&mut text, number, cells, percent) {
        Ok(()) => Ok(text),
        Err(_) => Err(NoMemory),
    }
}
