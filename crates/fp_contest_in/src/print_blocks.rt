//! Printing the blockages.

ghost use Rattle.std.specs.Prelude.{◌≡◌, ◌≤◌, length};
ghost use Rattle.fp_text.specs.Writing.{told, GoesOn, Adds};
ghost use Rattle.fp_contest_in.specs.Grammar.{die_word};
ghost use Rattle.fp_contest_in.specs.PrintedText.{block_line, blocks_lines};

use crate::lines::{write_named_line, write_numbers_line};
use fp_base::{Die, Folder};
use fp_tech::Block;
use fp_text::Writer;

/// The word for a blockage's die.
fn die_word(die: Die) -> &'static [u8]
    ensures { result.now ≡ die_word die }
{
    match die {
        Die::Top => b"Top".as_slice(),
        Die::Bottom => b"Bottom".as_slice(),
    }
}

/// Adds the line of a blockage.
fn write_block<F: Folder>(writer: &mut Writer, folder: &mut F, name: &str, block: Block)
    requires goes_on { GoesOn name.now (told F.held F.made F.faults folder.old) writer.old }
    ensures adds { Adds name.now (block_line block) (told F.held F.made F.faults folder.old)
        (told F.held F.made F.faults folder.new) writer.old writer.new }
    ensures goes_on { GoesOn name.now (told F.held F.made F.faults folder.new) writer.new }
{
    write_named_line(
        writer,
        folder,
        name,
        b"Blockage",
        die_word(block.die),
        &[block.llx, block.lly, block.urx, block.ury],
    );
}

/// Adds the lines of the blockages in file order; none where there is no blockage.
pub fn write_blocks<F: Folder>(writer: &mut Writer, folder: &mut F, name: &str, blocks: &[Block])
    requires few { length blocks.now ≤ 1024 }
    requires goes_on { GoesOn name.now (told F.held F.made F.faults folder.old) writer.old }
    ensures adds { Adds name.now (blocks_lines blocks.now) (told F.held F.made F.faults folder.old)
        (told F.held F.made F.faults folder.new) writer.old writer.new }
    ensures goes_on { GoesOn name.now (told F.held F.made F.faults folder.new) writer.new }
{
    if blocks.is_empty() {
        return;
    }
    let count = blocks.len() as u32;
    write_numbers_line(writer, folder, name, b"NumBlockages", &[count]);
    for block in blocks {
        write_block(writer, folder, name, *block);
    }
}
