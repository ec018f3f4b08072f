//! The lines of a certificate: a word and numbers, with single spaces between them, and a line feed behind each line.

ghost use Rattle.std.specs.Prelude.{◌≡◌, codes};
ghost use Rattle.fp_text.specs.Writing.{told, GoesOn, Adds};
ghost use Rattle.fp_cert.specs.CertText.{field, signed_field, number_line, pair_line};

use fp_base::Folder;
use fp_text::Writer;

/// Adds a space and a number.
pub fn write_field<F: Folder>(writer: &mut Writer, folder: &mut F, name: &str, value: u64)
    requires { GoesOn name.now (told F.held F.made F.faults folder.old) writer.old }
    ensures adds { Adds name.now (field value) (told F.held F.made F.faults folder.old)
        (told F.held F.made F.faults folder.new) writer.old writer.new }
    ensures goes_on { GoesOn name.now (told F.held F.made F.faults folder.new) writer.new }
{
    writer.put(folder, name, b" ");
    writer.number(folder, name, value);
}

/// Adds a space and a signed number.
pub fn write_signed_field<F: Folder>(writer: &mut Writer, folder: &mut F, name: &str, value: i64)
    requires { GoesOn name.now (told F.held F.made F.faults folder.old) writer.old }
    ensures adds { Adds name.now (signed_field value) (told F.held F.made F.faults folder.old)
        (told F.held F.made F.faults folder.new) writer.old writer.new }
    ensures goes_on { GoesOn name.now (told F.held F.made F.faults folder.new) writer.new }
{
    writer.put(folder, name, b" ");
    writer.signed(folder, name, value);
}

/// Adds a line of a word and a number.
pub fn write_number_line<F: Folder>(
    writer: &mut Writer,
    folder: &mut F,
    name: &str,
    word: &[u8],
    value: u64,
)
    requires { GoesOn name.now (told F.held F.made F.faults folder.old) writer.old }
    ensures adds { Adds name.now (number_line word.now value) (told F.held F.made F.faults folder.old)
        (told F.held F.made F.faults folder.new) writer.old writer.new }
    ensures goes_on { GoesOn name.now (told F.held F.made F.faults folder.new) writer.new }
{
    writer.put(folder, name, word);
    write_field(writer, folder, name, value);
    writer.put(folder, name, b"\n");
}

/// Adds a line of a word and two numbers.
pub fn write_pair_line<F: Folder>(
    writer: &mut Writer,
    folder: &mut F,
    name: &str,
    word: &[u8],
    first: u64,
    second: u64,
)
    requires { GoesOn name.now (told F.held F.made F.faults folder.old) writer.old }
    ensures adds { Adds name.now (pair_line word.now first second) (told F.held F.made F.faults folder.old)
        (told F.held F.made F.faults folder.new) writer.old writer.new }
    ensures goes_on { GoesOn name.now (told F.held F.made F.faults folder.new) writer.new }
{
    writer.put(folder, name, word);
    write_field(writer, folder, name, first);
    write_field(writer, folder, name, second);
    writer.put(folder, name, b"\n");
}
