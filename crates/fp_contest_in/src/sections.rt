//! Reading the sections.

ghost use Rattle.std.specs.Prelude.{◌≡◌, ◌≤◌, ◌<◌, ◌+◌, ◌^◌, IfOk, IfSome, length};
ghost use Rattle.fp_text.specs.Reading.{Left, Gives, number_next};
ghost use Rattle.fp_tech.specs.Book.{tech_names};
ghost use Rattle.fp_tech.specs.Plan.{IsFrame};
ghost use Rattle.fp_contest_in.specs.Statements.{frame_next, sizes_next, rows_next, tech_name_next, fields_next, section_next, sections_next, rows_checked, may_cost_next, cost_next, all_sections_next, none_found};
ghost use Rattle.fp_contest_in.specs.Ranges.{AreRows, AreInRange, IsComplete, HasRowsInFrame};
ghost use Rattle.fp_contest_in.specs.Given.{GivesRows};

use crate::section::{Found, RowsFound, Section, section_of};
use crate::steps::{GREATEST, number, sizes, wrong};
use fp_base::TechId;
use fp_tech::{Frame, TechBook, rows_lie};
use fp_text::{Kind, TextFault, Tokens};

/// The number of sections, with the cost of a terminal.
const SECTIONS: u32 = 10;

/// Two corners: the upper right one above and to the right of the lower left one.
#[tactic(auto, unfolding(crate::specs::Statements::frame_next))]
pub fn frame(tokens: &mut Tokens<'_>) -> Result<Frame, TextFault>
    ensures gives { Gives (λ f. f) result tokens.new (frame_next tokens.old) }
    ensures range { IfOk result IsFrame }
{
    let llx = number(tokens, 0, GREATEST, Kind::Range)?;
    let lly = number(tokens, 0, GREATEST, Kind::Range)?;
    let urx = number(tokens, llx + 1, GREATEST, Kind::Range)?;
    let ury = number(tokens, lly + 1, GREATEST, Kind::Range)?;
    Ok(Frame { llx, lly, urx, ury })
}

#[tactic(auto, unfolding(crate::specs::Statements::rows_next))]
fn rows(at: u64, tokens: &mut Tokens<'_>) -> Result<RowsFound, TextFault>
    ensures gives { Gives (λ r. r) result tokens.new (rows_next at tokens.old) }
    ensures range { IfOk result AreRows }
{
    let start_x = number(tokens, 0, GREATEST, Kind::Range)?;
    let start_y = number(tokens, 0, GREATEST, Kind::Range)?;
    let (length, height) = sizes(tokens)?;
    let repeat = number(tokens, 1, 1 << 16, Kind::Limit)?;
    Ok(RowsFound {
        at,
        start_x,
        start_y,
        length,
        height,
        repeat,
    })
}

/// A die's technology by its name, `Unknown` where no technology has it.
#[tactic(auto, unfolding(crate::specs::Statements::tech_name_next))]
fn tech(book: &TechBook, tokens: &mut Tokens<'_>) -> Result<TechId, TextFault>
    ensures gives { Gives (λ t. t) result tokens.new (tech_name_next (tech_names book.now) tokens.old) }
    ensures there { IfOk result (λ t. t.0 < length book.now.techs) }
{
    let name = tokens.name()?;
    match book.tech_named(name.text) {
        Some(tech) => Ok(tech),
        None => Err(wrong(name.at, Kind::Unknown)),
    }
}

/// A section's fields, put beside what the sections before it said.
#[tactic(auto, unfolding(crate::specs::Statements::fields_next))]
fn fields(
    book: &TechBook,
    section: Section,
    at: u64,
    found: Found,
    tokens: &mut Tokens<'_>,
) -> Result<Found, TextFault>
    requires { AreInRange (length book.now.techs) found }
    ensures gives { Gives (λ f. f) result tokens.new (fields_next (tech_names book.now) section at found tokens.old) }
    ensures range { IfOk result (AreInRange (length book.now.techs)) }
{
    match section {
        Section::DieSize => {
            let frame = Some(frame(tokens)?);
            Ok(Found { frame, ..found })
        }
        Section::MaxUtil(die) => {
            let percent = number(tokens, 0, 100, Kind::Range)?;
            Ok(found.with_percent(die, percent))
        }
        Section::Rows(die) => {
            let rows = rows(at, tokens)?;
            Ok(found.with_rows(die, rows))
        }
        Section::Tech(die) => {
            let tech = tech(book, tokens)?;
            Ok(found.with_tech(die, tech))
        }
        Section::TerminalSize => {
            let size = Some(sizes(tokens)?);
            Ok(Found { size, ..found })
        }
        Section::TerminalSpacing => {
            let spacing = Some(number(tokens, 0, GREATEST, Kind::Range)?);
            Ok(Found { spacing, ..found })
        }
        Section::TerminalCost => {
            let cost = Some(number(tokens, 0, GREATEST, Kind::Range)?);
            Ok(Found { cost, ..found })
        }
    }
}

/// The next section, whose keyword begins none that was read before.
#[tactic(auto, unfolding(crate::specs::Statements::section_next))]
fn next_section(book: &TechBook, found: Found, tokens: &mut Tokens<'_>) -> Result<Found, TextFault>
    requires { AreInRange (length book.now.techs) found }
    ensures gives { Gives (λ f. f) result tokens.new (section_next (tech_names book.now) found tokens.old) }
    ensures range { IfOk result (AreInRange (length book.now.techs)) }
{
    let word = tokens.word()?;
    let section = section_of(word.text).ok_or(wrong(word.at, Kind::Word))?;
    if found.has(section) {
        return Err(wrong(word.at, Kind::Twice));
    }
    fields(book, section, word.at, found, tokens)
}

/// The nine sections, in any order, with the cost of a terminal where it stands among them.
fn nine_sections(book: &TechBook, tokens: &mut Tokens<'_>) -> Result<Found, TextFault>
    ensures gives { Gives (λ f. f) result tokens.new (sections_next (tech_names book.now) 10 none_found tokens.old) }
    ensures range { IfOk result (AreInRange (length book.now.techs)) }
    ensures complete { IfOk result IsComplete }
{
    let mut found = Found::NONE;
    for _ in 0..SECTIONS {
        if found.has_nine() {
            break;
        }
        found = next_section(book, found, tokens)?;
    }
    Ok(found)
}

/// Whether the rows lie in the frame; else `Rows` at the keyword of the first die's rows that do not.
#[tactic(auto, unfolding(crate::specs::Statements::rows_checked))]
fn check_rows(found: Found) -> Result<(), TextFault>
    requires complete { IsComplete found }
    requires top { IfSome found.top.rows AreRows }
    requires bottom { IfSome found.bottom.rows AreRows }
    ensures { (left : Left) → GivesRows found result left (rows_checked found left) }
{
    let setup = found.setup();
    if !rows_lie(setup.frame, setup.top) {
        Err(wrong(found.top.rows.unwrap().at, Kind::Rows))
    } else if !rows_lie(setup.frame, setup.bottom) {
        Err(wrong(found.bottom.rows.unwrap().at, Kind::Rows))
    } else {
        Ok(())
    }
}

/// The cost of a terminal, where the next token begins it.
#[tactic(auto, unfolding(crate::specs::Statements::may_cost_next))]
fn may_cost(book: &TechBook, found: Found, tokens: &mut Tokens<'_>) -> Result<Found, TextFault>
    requires complete { IsComplete found }
    requires range { AreInRange (length book.now.techs) found }
    ensures gives { Gives (λ f. f) result tokens.new (may_cost_next (tech_names book.now) found tokens.old) }
    ensures range { IfOk result (AreInRange (length book.now.techs)) }
    ensures complete { IfOk result IsComplete }
{
    if tokens.begins(b"TerminalCost") {
        next_section(book, found, tokens)
    } else {
        Ok(found)
    }
}

/// The cost of a terminal behind the nine sections, where there is one; `Twice` where it was told before.
#[tactic(auto, unfolding(crate::specs::Statements::cost_next))]
fn cost(book: &TechBook, found: Found, tokens: &mut Tokens<'_>) -> Result<Found, TextFault>
    requires complete { IsComplete found }
    requires range { AreInRange (length book.now.techs) found }
    ensures gives { Gives (λ f. f) result tokens.new (cost_next (tech_names book.now) found tokens.old) }
    ensures range { IfOk result (AreInRange (length book.now.techs)) }
    ensures complete { IfOk result IsComplete }
{
    let first = may_cost(book, found, tokens)?;
    may_cost(book, first, tokens)
}

/// The nine sections in any order, and the cost of a terminal once at most among them or behind. The rows are tested right
/// behind the ninth, before the next token.
#[tactic(auto, unfolding(crate::specs::Statements::all_sections_next))]
pub fn sections(book: &TechBook, tokens: &mut Tokens<'_>) -> Result<Found, TextFault>
    ensures gives { Gives (λ f. f) result tokens.new (all_sections_next (tech_names book.now) tokens.old) }
    ensures range { IfOk result (AreInRange (length book.now.techs)) }
    ensures complete { IfOk result IsComplete }
    ensures lie { IfOk result HasRowsInFrame }
{
    let found = nine_sections(book, tokens)?;
    check_rows(found)?;
    cost(book, found, tokens)
}
