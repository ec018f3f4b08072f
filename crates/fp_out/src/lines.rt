//! The lines of an output file.

ghost use Rattle.std.specs.Prelude.{◌≡◌, length, codes};
ghost use Rattle.fp_text.specs.Writing.{told, GoesOn, Adds};
ghost use Rattle.fp_out.specs.OutText.{head_text, coordinate_text, line_text};

use fp_base::{Folder, Point};
use fp_text::Writer;

/// Adds a line of a word and a count.
pub fn write_head<F: Folder>(
    writer: &mut Writer,
    folder: &mut F,
    name: &str,
    word: &[u8],
    count: u32,
)
    requires { GoesOn name.now (told F.held F.made F.faults folder.old) writer.old }
    ensures adds { Adds name.now (head_text word.now count) (told F.held F.made F.faults folder.old)
        (told F.held F.made F.faults folder.new) writer.old writer.new }
    ensures goes_on { GoesOn name.now (told F.held F.made F.faults folder.new) writer.new }
{
    writer.put(folder, name, word);
    writer.put(folder, name, b" ");
    writer.number(folder, name, u64::from(count));
    writer.put(folder, name, b"\n");
}

/// Adds a space and a coordinate.
fn write_coordinate<F: Folder>(writer: &mut Writer, folder: &mut F, name: &str, at: i64)
    requires { GoesOn name.now (told F.held F.made F.faults folder.old) writer.old }
    ensures adds { Adds name.now (coordinate_text at) (told F.held F.made F.faults folder.old)
        (told F.held F.made F.faults folder.new) writer.old writer.new }
    ensures goes_on { GoesOn name.now (told F.held F.made F.faults folder.new) writer.new }
{
    writer.put(folder, name, b" ");
    writer.signed(folder, name, at);
}

/// Adds a line of a word, the name of a cell or a net, and a point.
pub fn write_line<F: Folder>(
    writer: &mut Writer,
    folder: &mut F,
    name: &str,
    word: &[u8],
    item: &[u8],
    at: Point,
)
    requires { GoesOn name.now (told F.held F.made F.faults folder.old) writer.old }
    ensures adds { Adds name.now (line_text word.now item.now at) (told F.held F.made F.faults folder.old)
        (told F.held F.made F.faults folder.new) writer.old writer.new }
    ensures goes_on { GoesOn name.now (told F.held F.made F.faults folder.new) writer.new }
{
    writer.put(folder, name, word);
    writer.put(folder, name, b" ");
    writer.put(folder, name, item);
    write_coordinate(writer, folder, name, at.x);
    write_coordinate(writer, folder, name, at.y);
    writer.put(folder, name, b"\n");
}
