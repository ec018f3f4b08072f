//! The lines of a text that is printed: words with single spaces between them, and a line feed behind each line.

ghost use Rattle.std.specs.Prelude.{◌≡◌, ◌∷◌, ◌++◌, [], codes, flat_map};
ghost use Rattle.fp_text.specs.Writing.{told, GoesOn, Adds};
ghost use Rattle.fp_contest_in.specs.Grammar.{slash};
ghost use Rattle.fp_contest_in.specs.PrintedText.{spaced, line, numbers};

use fp_base::Folder;
use fp_text::Writer;

/// Adds a space and a word.
fn write_word<F: Folder>(writer: &mut Writer, folder: &mut F, name: &str, word: &[u8])
    requires { GoesOn name.now (told F.held F.made F.faults folder.old) writer.old }
    ensures adds { Adds name.now (spaced word.now) (told F.held F.made F.faults folder.old)
        (told F.held F.made F.faults folder.new) writer.old writer.new }
    ensures goes_on { GoesOn name.now (told F.held F.made F.faults folder.new) writer.new }
{
    writer.put(folder, name, b" ");
    writer.put(folder, name, word);
}

/// Adds a space and a number, for each of these numbers.
fn write_numbers<F: Folder>(writer: &mut Writer, folder: &mut F, name: &str, values: &[u32])
    requires { GoesOn name.now (told F.held F.made F.faults folder.old) writer.old }
    ensures adds { Adds name.now (flat_map spaced (numbers values.now)) (told F.held F.made F.faults folder.old)
        (told F.held F.made F.faults folder.new) writer.old writer.new }
    ensures goes_on { GoesOn name.now (told F.held F.made F.faults folder.new) writer.new }
{
    for value in values {
        writer.put(folder, name, b" ");
        writer.number(folder, name, u64::from(*value));
    }
}

/// Adds a line of a keyword and numbers.
pub fn write_numbers_line<F: Folder>(
    writer: &mut Writer,
    folder: &mut F,
    name: &str,
    keyword: &[u8],
    values: &[u32],
)
    requires { GoesOn name.now (told F.held F.made F.faults folder.old) writer.old }
    ensures adds { Adds name.now (line keyword.now (numbers values.now)) (told F.held F.made F.faults folder.old)
        (told F.held F.made F.faults folder.new) writer.old writer.new }
    ensures goes_on { GoesOn name.now (told F.held F.made F.faults folder.new) writer.new }
{
    writer.put(folder, name, keyword);
    write_numbers(writer, folder, name, values);
    writer.put(folder, name, b"\n");
}

/// Adds a line of a keyword, a name and numbers.
pub fn write_named_line<F: Folder>(
    writer: &mut Writer,
    folder: &mut F,
    name: &str,
    keyword: &[u8],
    item: &[u8],
    values: &[u32],
)
    requires { GoesOn name.now (told F.held F.made F.faults folder.old) writer.old }
    ensures adds { Adds name.now (line keyword.now (item.now ∷ numbers values.now)) (told F.held F.made F.faults folder.old)
        (told F.held F.made F.faults folder.new) writer.old writer.new }
    ensures goes_on { GoesOn name.now (told F.held F.made F.faults folder.new) writer.new }
{
    writer.put(folder, name, keyword);
    write_word(writer, folder, name, item);
    write_numbers(writer, folder, name, values);
    writer.put(folder, name, b"\n");
}

/// Adds a line of a keyword and two names.
pub fn write_pair_line<F: Folder>(
    writer: &mut Writer,
    folder: &mut F,
    name: &str,
    keyword: &[u8],
    first: &[u8],
    second: &[u8],
)
    requires { GoesOn name.now (told F.held F.made F.faults folder.old) writer.old }
    ensures adds { Adds name.now (line keyword.now (first.now ∷ second.now ∷ [])) (told F.held F.made F.faults folder.old)
        (told F.held F.made F.faults folder.new) writer.old writer.new }
    ensures goes_on { GoesOn name.now (told F.held F.made F.faults folder.new) writer.new }
{
    writer.put(folder, name, keyword);
    write_word(writer, folder, name, first);
    write_word(writer, folder, name, second);
    writer.put(folder, name, b"\n");
}

/// Adds a line of a keyword and two names that a `/` joins.
pub fn write_path_line<F: Folder>(
    writer: &mut Writer,
    folder: &mut F,
    name: &str,
    keyword: &[u8],
    first: &[u8],
    second: &[u8],
)
    requires { GoesOn name.now (told F.held F.made F.faults folder.old) writer.old }
    ensures adds { Adds name.now (line keyword.now ((first.now ++ slash ∷ second.now) ∷ [])) (told F.held F.made F.faults folder.old)
        (told F.held F.made F.faults folder.new) writer.old writer.new }
    ensures goes_on { GoesOn name.now (told F.held F.made F.faults folder.new) writer.new }
{
    writer.put(folder, name, keyword);
    write_word(writer, folder, name, first);
    writer.put(folder, name, b"/");
    writer.put(folder, name, second);
    writer.put(folder, name, b"\n");
}
