//! Printing the technologies.

ghost use Rattle.std.specs.Prelude.{◌≡◌, ◌<◌, length, map, Some, IsTrue, option_map, slice_get};
ghost use Rattle.fp_text.specs.Writing.{told, GoesOn, Adds};
ghost use Rattle.fp_tech.specs.Book.{Lib, Tech, IsBook, has, lib_in, libs_of, pins_in};
ghost use Rattle.fp_contest_in.specs.PrintedText.{lib_said, tech_said, pin_lines, lib_lines, libs_lines, tech_lines, techs_lines};

use crate::lines::{write_named_line, write_numbers_line};
use fp_base::{Folder, LibId, TechId};
use fp_tech::TechBook;
use fp_text::Writer;

/// The offset of a pin from its cell's lower left corner.
fn offset_of(book: &TechBook, tech: TechId, lib: LibId, pin: u32) -> (u32, u32)
    requires there { IsTrue (has book.now tech.0 lib.0) }
    requires pin { pin < length (pins_in book.now tech.0 lib.0) }
    ensures { option_map (λ p. (p.x, p.y)) (slice_get (pins_in book.now tech.0 lib.0) pin) ≡ Some result }
{
    let at = book.pin_at(tech, lib, pin);
    (at.x as u32, at.y as u32)
}

/// Adds the lines of a library cell's pins.
fn write_pins<F: Folder>(
    writer: &mut Writer,
    folder: &mut F,
    name: &str,
    book: &TechBook,
    tech: TechId,
    lib: LibId,
)
    requires there { IsTrue (has book.now tech.0 lib.0) }
    requires goes_on { GoesOn name.now (told F.held F.made F.faults folder.old) writer.old }
    ensures adds { Adds name.now (pin_lines (pins_in book.now tech.0 lib.0)) (told F.held F.made F.faults folder.old)
        (told F.held F.made F.faults folder.new) writer.old writer.new }
    ensures goes_on { GoesOn name.now (told F.held F.made F.faults folder.new) writer.new }
{
    for pin in 0..book.pins_of(tech, lib) {
        let (x, y) = offset_of(book, tech, lib, pin);
        write_named_line(
            writer,
            folder,
            name,
            b"Pin",
            book.pin_name(tech, lib, pin),
            &[x, y],
        );
    }
}

/// Adds the lines of a library cell.
fn write_lib<F: Folder>(
    writer: &mut Writer,
    folder: &mut F,
    name: &str,
    book: &TechBook,
    tech: TechId,
    lib: LibId,
)
    requires named { lib.0 < length book.now.names }
    requires there { IsTrue (has book.now tech.0 lib.0) }
    requires goes_on { GoesOn name.now (told F.held F.made F.faults folder.old) writer.old }
    ensures adds { (l : Lib) → lib_in book.now tech.0 lib.0 ≡ Some l → l.id ≡ lib.0
        → Adds name.now (lib_lines (lib_said book.now.names l)) (told F.held F.made F.faults folder.old)
        (told F.held F.made F.faults folder.new) writer.old writer.new }
    ensures goes_on { GoesOn name.now (told F.held F.made F.faults folder.new) writer.new }
{
    let (width, height) = book.size(tech, lib);
    write_named_line(
        writer,
        folder,
        name,
        b"LibCell",
        book.lib_name(lib),
        &[width, height, book.pins_of(tech, lib)],
    );
    write_pins(writer, folder, name, book, tech, lib);
}

/// Adds the lines of a technology's library cells.
fn write_libs<F: Folder>(
    writer: &mut Writer,
    folder: &mut F,
    name: &str,
    book: &TechBook,
    tech: TechId,
)
    requires book { IsBook book.now }
    requires tech { tech.0 < length book.now.techs }
    requires goes_on { GoesOn name.now (told F.held F.made F.faults folder.old) writer.old }
    ensures adds { Adds name.now (libs_lines (map (lib_said book.now.names) (libs_of book.now tech.0))) (told F.held F.made F.faults folder.old)
        (told F.held F.made F.faults folder.new) writer.old writer.new }
    ensures goes_on { GoesOn name.now (told F.held F.made F.faults folder.new) writer.new }
{
    for lib in book.libs_of(tech) {
        write_lib(writer, folder, name, book, tech, *lib);
    }
}

/// Adds the lines of a technology.
fn write_tech<F: Folder>(
    writer: &mut Writer,
    folder: &mut F,
    name: &str,
    book: &TechBook,
    tech: TechId,
)
    requires book { IsBook book.now }
    requires tech { tech.0 < length book.now.techs }
    requires goes_on { GoesOn name.now (told F.held F.made F.faults folder.old) writer.old }
    ensures adds { (t : Tech) → slice_get book.now.techs tech.0 ≡ Some t
        → Adds name.now (tech_lines (tech_said book.now.names t)) (told F.held F.made F.faults folder.old)
        (told F.held F.made F.faults folder.new) writer.old writer.new }
    ensures goes_on { GoesOn name.now (told F.held F.made F.faults folder.new) writer.new }
{
    let libs = book.libs_of(tech).len() as u32;
    write_named_line(writer, folder, name, b"Tech", book.tech_name(tech), &[libs]);
    write_libs(writer, folder, name, book, tech);
}

/// Adds the lines of the technologies.
pub fn write_techs<F: Folder>(writer: &mut Writer, folder: &mut F, name: &str, book: &TechBook)
    requires goes_on { GoesOn name.now (told F.held F.made F.faults folder.old) writer.old }
    ensures adds { Adds name.now (techs_lines (map (tech_said book.now.names) book.now.techs)) (told F.held F.made F.faults folder.old)
        (told F.held F.made F.faults folder.new) writer.old writer.new }
    ensures goes_on { GoesOn name.now (told F.held F.made F.faults folder.new) writer.new }
{
    let techs = book.techs();
    write_numbers_line(writer, folder, name, b"NumTechnologies", &[techs]);
    for tech in 0..techs {
        write_tech(writer, folder, name, book, TechId(tech));
    }
}
