//! Reading the technologies into a book.

ghost use Rattle.std.specs.Prelude.{◌≡◌, ◌<◌, ◌≤◌, ℕ, List, [], length, false, IfOk, IsTrue, OnOk};
ghost use Rattle.fp_text.specs.Reading.{Gives, many_next};
ghost use Rattle.fp_tech.specs.Book.{no_techs, tech_names, libs_of, has, has_name, is_among, pins_in, with_pin, IsBook};
ghost use Rattle.fp_contest_in.specs.Text.{pin_name_list, with_pins, with_lib_text, with_lib_texts, with_tech_text, with_tech_texts};
ghost use Rattle.fp_contest_in.specs.Statements.{new_name_next, pin_next, lib_next, tech_next, techs_next};
ghost use Rattle.fp_contest_in.specs.Growing.{Grows, Knows, pin_item, lib_item, tech_item};

use crate::steps::{GREATEST, number, sizes, unless_there};
use fp_base::{LibId, TechId};
use fp_tech::{BuildFault, TechBook};
use fp_text::{Kind, TextFault, Tokens, Word};

/// The most technologies, library cells of a technology, and pins of a library cell.
const TECHS: u32 = 16;

const LIBS: u32 = 4096;

const PINS: u32 = 1024;

/// The next token as the name of a pin that the library cell does not have.
#[tactic(auto, unfolding(crate::specs::Statements::new_name_next))]
fn new_pin_name<'a>(
    book: &TechBook,
    tech: TechId,
    lib: LibId,
    tokens: &mut Tokens<'a>,
) -> Result<Word<'a>, TextFault>
    requires { IsTrue (has book.now tech.0 lib.0) }
    ensures gives { Gives (λ w. w.text.now) result tokens.new (new_name_next (pin_name_list (pins_in book.now tech.0 lib.0)) tokens.old) }
    ensures new { IfOk result (λ w. is_among w.text.now (pin_name_list (pins_in book.now tech.0 lib.0)) ≡ false) }
{
    let name = tokens.name()?;
    unless_there(name, book.pin_named(tech, lib, name.text).is_some())
}

/// Adds the next pin to a library cell.
#[tactic(auto, unfolding(crate::specs::Statements::pin_next))]
fn next_pin(
    book: &mut TechBook,
    tech: TechId,
    lib: LibId,
    tokens: &mut Tokens<'_>,
) -> Result<(), TextFault>
    requires there { IsTrue (has book.old tech.0 lib.0) }
    requires room { length (pins_in book.old tech.0 lib.0) < 1024 }
    ensures { Grows (λ b pin. with_pin b tech.0 lib.0 pin) result book.old book.new tokens.new
        (pin_next (pin_name_list (pins_in book.old tech.0 lib.0)) tokens.old) }
{
    tokens.keyword(b"Pin")?;
    let name = new_pin_name(book, tech, lib, tokens)?;
    let x = number(tokens, 0, GREATEST, Kind::Range)?;
    let y = number(tokens, 0, GREATEST, Kind::Range)?;
    match book.add_pin(tech, lib, name.text, x, y) {
        Ok(()) => Ok(()),
        Err(BuildFault::Memory) => Err(TextFault::Memory),
        Err(_) => unreachable!(),
    }
}

/// Adds so many pins to a library cell that has none.
fn pins(
    book: &mut TechBook,
    tech: TechId,
    lib: LibId,
    count: u32,
    tokens: &mut Tokens<'_>,
) -> Result<(), TextFault>
    requires there { IsTrue (has book.old tech.0 lib.0) }
    requires none { pins_in book.old tech.0 lib.0 ≡ [] }
    requires few { count ≤ 1024 }
    ensures { Grows (with_pins tech.0 lib.0) result book.old book.new tokens.new (many_next pin_item count [] tokens.old) }
{
    for _ in 0..count {
        next_pin(book, tech, lib, tokens)?;
    }
    Ok(())
}

/// Whether a technology has a library cell of that name.
fn has_lib_name(book: &TechBook, tech: TechId, name: &[u8]) -> bool
    requires { tech.0 < length book.now.techs }
    ensures has { result ≡ has_name book.now tech.0 name.now }
    ensures book { IsBook book.now }
{
    let _limits = book.techs();
    match book.lib_named(name) {
        Some(lib) => book.has(tech, lib),
        None => false,
    }
}

/// The next token as the name of a library cell that the technology does not have.
#[tactic(auto, unfolding(crate::specs::Statements::new_name_next))]
fn new_lib_name<'a>(
    book: &TechBook,
    tech: TechId,
    tokens: &mut Tokens<'a>,
) -> Result<Word<'a>, TextFault>
    requires { tech.0 < length book.now.techs }
    ensures gives { (names : List (List ℕ)) → Knows book.now tech.0 names
        → Gives (λ w. w.text.now) result tokens.new (new_name_next names tokens.old) }
    ensures new { IfOk result (λ w. (has_name book.now tech.0 w.text.now ≡ false) × IsBook book.now) }
{
    let name = tokens.name()?;
    unless_there(name, has_lib_name(book, tech, name.text))
}

/// Adds the next library cell, with its pins, to a technology.
#[tactic(auto, unfolding(crate::specs::Statements::lib_next))]
fn next_lib(book: &mut TechBook, tech: TechId, tokens: &mut Tokens<'_>) -> Result<(), TextFault>
    requires there { tech.0 < length book.old.techs }
    requires room { length (libs_of book.old tech.0) < 4096 }
    ensures { (names : List (List ℕ)) → Knows book.old tech.0 names
        → Grows (with_lib_text tech.0) result book.old book.new tokens.new (lib_next names tokens.old) }
{
    tokens.keyword(b"LibCell")?;
    let name = new_lib_name(book, tech, tokens)?;
    let (width, height) = sizes(tokens)?;
    let count = number(tokens, 0, PINS, Kind::Limit)?;
    match book.add_lib(tech, name.text, width, height) {
        Ok(lib) => pins(book, tech, lib, count, tokens),
        Err(BuildFault::Memory) => Err(TextFault::Memory),
        Err(_) => unreachable!(),
    }
}

/// Adds so many library cells to a technology that has none.
fn libs(
    book: &mut TechBook,
    tech: TechId,
    count: u32,
    tokens: &mut Tokens<'_>,
) -> Result<(), TextFault>
    requires there { tech.0 < length book.old.techs }
    requires none { libs_of book.old tech.0 ≡ [] }
    requires no_names { Knows book.old tech.0 [] }
    requires few { count ≤ 4096 }
    ensures { Grows (with_lib_texts tech.0) result book.old book.new tokens.new (many_next lib_item count [] tokens.old) }
{
    for _ in 0..count {
        next_lib(book, tech, tokens)?;
    }
    Ok(())
}

/// The next token as the name of a technology that is not there.
#[tactic(auto, unfolding(crate::specs::Statements::new_name_next))]
fn new_tech_name<'a>(book: &TechBook, tokens: &mut Tokens<'a>) -> Result<Word<'a>, TextFault>
    ensures gives { Gives (λ w. w.text.now) result tokens.new (new_name_next (tech_names book.now) tokens.old) }
    ensures new { IfOk result (λ w. is_among w.text.now (tech_names book.now) ≡ false) }
{
    let name = tokens.name()?;
    unless_there(name, book.tech_named(name.text).is_some())
}

/// Adds the next technology, with its library cells.
#[tactic(auto, unfolding(crate::specs::Statements::tech_next))]
fn next_tech(book: &mut TechBook, tokens: &mut Tokens<'_>) -> Result<(), TextFault>
    requires { length book.old.techs < 16 }
    ensures { Grows with_tech_text result book.old book.new tokens.new (tech_next (tech_names book.old) tokens.old) }
{
    tokens.keyword(b"Tech")?;
    let name = new_tech_name(book, tokens)?;
    let count = number(tokens, 0, LIBS, Kind::Limit)?;
    match book.add_tech(name.text) {
        Ok(tech) => libs(book, tech, count, tokens),
        Err(BuildFault::Memory) => Err(TextFault::Memory),
        Err(_) => unreachable!(),
    }
}

/// Adds so many technologies to a book without any.
fn many_techs(book: &mut TechBook, count: u32, tokens: &mut Tokens<'_>) -> Result<(), TextFault>
    requires none { tech_names book.old ≡ [] }
    requires few { count ≤ 16 }
    ensures { Grows with_tech_texts result book.old book.new tokens.new (many_next tech_item count [] tokens.old) }
{
    for _ in 0..count {
        next_tech(book, tokens)?;
    }
    Ok(())
}

/// Reads the technologies into a book without any.
#[tactic(auto, unfolding(crate::specs::Statements::techs_next))]
pub fn techs(book: &mut TechBook, tokens: &mut Tokens<'_>) -> Result<(), TextFault>
    requires { tech_names book.old ≡ [] }
    ensures { Grows with_tech_texts result book.old book.new tokens.new (techs_next tokens.old) }
{
    tokens.keyword(b"NumTechnologies")?;
    let count = number(tokens, 1, TECHS, Kind::Limit)?;
    many_techs(book, count, tokens)
}
