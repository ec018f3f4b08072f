//! The dies: their frame is a square, and their rows fill it.

ghost use Rattle.std.specs.Prelude.{◌≡◌, ◌∷◌, ◌++◌, ◌≤◌, [], IfOk, codes};
ghost use Rattle.fp_contest_in.specs.PrintedText.{sections_lines};
ghost use Rattle.fp_gen.specs.MakeText.{is_wide, side_of, made_setup};
ghost use Rattle.fp_gen.specs.Written.{Adds};

use crate::lines::{push_line, push_text};
use std::alloc::AllocError;

/// Whether a square of a side of 60 k has an area of at least 160 for each cell.
fn is_wide(cells: u32, k: u32) -> bool
    requires cells { cells ≤ 100000 }
    requires k { k ≤ 100000 }
    ensures { result ≡ is_wide cells k }
{
    let k = u64::from(k);
    160 * u64::from(cells) <= 3600 * (k * k)
}

/// The side of the frame: 60 k for the least k from 1 that is wide enough, as one of as many as there are cells is.
pub fn side_of(cells: u32) -> u32
    requires some { 1 ≤ cells }
    requires few { cells ≤ 100000 }
    ensures { result ≡ side_of cells }
{
    60 * (1..cells).find(|&k| is_wide(cells, k)).unwrap_or(cells)
}

/// Adds the sections.
pub fn push_setup(text: &mut Vec<u8>, side: u32, percent: u32) -> Result<(), AllocError>
    ensures { IfOk result (λ _. Adds (sections_lines (codes "TA" ∷ codes "TB" ∷ []) (made_setup side percent)) text.old.items text.new.items) }
{
    push_line(text, b"DieSize", &[0, 0, side, side])?;
    push_line(text, b"TopDieMaxUtil", &[percent])?;
    push_line(text, b"BottomDieMaxUtil", &[80])?;
    push_line(text, b"TopDieRows", &[0, 0, side, 10, side / 10])?;
    push_line(text, b"BottomDieRows", &[0, 0, side, 12, side / 12])?;
    push_text(text, b"TopDieTech TA\nBottomDieTech TB\n")?;
    push_line(text, b"TerminalSize", &[2, 2])?;
    push_line(text, b"TerminalSpacing", &[1])
}
