//! The cells.

ghost use Rattle.std.specs.Prelude.{◌≡◌, ◌++◌, ◌≤◌, ◌^◌, IfOk, flat_map};
ghost use Rattle.fp_contest_in.specs.PrintedText.{inst_line};
ghost use Rattle.fp_gen.specs.MakeText.{made_inst, made_first};
ghost use Rattle.fp_gen.specs.Written.{Adds};

use crate::lines::{push_numbered, push_text};
use rand_core::utils::NextWord;
use rand_pcg::Pcg32;
use std::alloc::AllocError;

/// Adds a cell of a library cell that is drawn by lot.
fn push_inst(text: &mut Vec<u8>, words: &mut Pcg32, cell: u32) -> Result<(), AllocError>
    ensures text { IfOk result (λ _. Adds (inst_line (made_inst cell words.old).0) text.old.items text.new.items) }
    ensures words { IfOk result (λ _. words.new ≡ (made_inst cell words.old).1) }
{
    let word = words.next_word();
    push_numbered(text, b"Inst C", cell)?;
    push_numbered(text, b" L", word % 8)?;
    push_text(text, b"\n")
}

/// Adds so many cells.
pub fn push_insts(text: &mut Vec<u8>, words: &mut Pcg32, cells: u32) -> Result<(), AllocError>
    ensures text { IfOk result (λ _. Adds (flat_map inst_line (made_first made_inst cells words.old).0) text.old.items text.new.items) }
    ensures words { IfOk result (λ _. words.new ≡ (made_first made_inst cells words.old).1) }
{
    for cell in 0..cells {
        push_inst(text, words, cell)?;
    }
    Ok(())
}
