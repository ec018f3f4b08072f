//! The lines of the text.

ghost use Rattle.std.specs.Prelude.{◌≡◌, ◌++◌, IfOk, flat_map};
ghost use Rattle.fp_contest_in.specs.PrintedText.{spaced, line, numbers};
ghost use Rattle.fp_gen.specs.MakeText.{numbered};
ghost use Rattle.fp_gen.specs.Written.{Adds};

use itoa::Buffer;
use std::alloc::AllocError;

/// Adds some text.
pub fn push_text(text: &mut Vec<u8>, piece: &[u8]) -> Result<(), AllocError>
    ensures { IfOk result (λ _. Adds piece.now text.old.items text.new.items) }
{
    text.extend_from_slice(piece)
}

/// Adds some text and a number.
pub fn push_numbered(text: &mut Vec<u8>, front: &[u8], number: u32) -> Result<(), AllocError>
    ensures { IfOk result (λ _. Adds (numbered front.now number) text.old.items text.new.items) }
{
    let mut buffer = Buffer::new();
    push_text(text, front)?;
    push_text(text, buffer.format(number).as_bytes())
}

/// Adds a space and a number, for each of these numbers.
fn push_numbers(text: &mut Vec<u8>, values: &[u32]) -> Result<(), AllocError>
    ensures { IfOk result (λ _. Adds (flat_map spaced (numbers values.now)) text.old.items text.new.items) }
{
    for value in values {
        push_numbered(text, b" ", *value)?;
    }
    Ok(())
}

/// Adds a line of a keyword and numbers.
pub fn push_line(text: &mut Vec<u8>, keyword: &[u8], values: &[u32]) -> Result<(), AllocError>
    ensures { IfOk result (λ _. Adds (line keyword.now (numbers values.now)) text.old.items text.new.items) }
{
    push_text(text, keyword)?;
    push_numbers(text, values)?;
    push_text(text, b"\n")
}
