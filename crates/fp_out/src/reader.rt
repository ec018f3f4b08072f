//! Reading an output file.

ghost use Rattle.std.specs.Prelude.{◌≡◌, ◌≤◌, ◌^◌, ◌↔◌, [], codes, Ok, IfOk};
ghost use Rattle.std.specs.Option.{option_map};
ghost use Rattle.fp_text.specs.Reading.{Gives, many_next};
ghost use Rattle.fp_netlist.specs.Netlist.{cell_names};
ghost use Rattle.fp_place.specs.Drawing.{Drawing, empty, with_cell, with_terminal, IsCoordinate};
ghost use Rattle.fp_place.specs.Placed.{Placed, drawn_of, IsPlacementOf};
ghost use Rattle.fp_out.specs.OutText.{die_word, out_text};
ghost use Rattle.fp_out.specs.OutGrammar.{AreNames, ReadsOut};
ghost use Rattle.fp_out.specs.OutReading.{number_of, known_next, point_next, inst_next, terminal_next, head_next, part_next, drawing_next, out_of, GivesDrawing};
ghost use Rattle.fp_out.specs.Growing.{with_cells, with_terminals, Grows, Draws};

use crate::output::word_of;
use fp_base::{CellId, Die, NetId, Point};
use fp_netlist::Problem;
use fp_place::{Drawn, DrawnCell, DrawnTerminal};
use fp_text::{Kind, TextFault, Tokens, is_name};
use std::alloc::Global;

/// The greatest coordinate, that of the input's numbers.
const GREATEST: u64 = 1 << 30;

/// The most lines of a part, as many as there are cells and nets at most.
const LINES: u64 = 1 << 18;

/// The cell of that name, where it is a name.
fn cell_of(problem: &Problem, name: &[u8]) -> Option<CellId>
    ensures { result ≡ option_map (λ cell. record { 0 = cell }) (number_of (cell_names problem.now) name.now) }
{
    if is_name(name) {
        problem.cell_named(name)
    } else {
        None
    }
}

/// The net of that name, where it is a name.
fn net_of(problem: &Problem, name: &[u8]) -> Option<NetId>
    ensures { result ≡ option_map (λ net. record { 0 = net }) (number_of problem.now.nets name.now) }
{
    if is_name(name) {
        problem.net_named(name)
    } else {
        None
    }
}

/// The next token as the name of a cell, else `Unknown`.
#[tactic(auto, unfolding(crate::specs::OutReading::known_next))]
fn known_cell(problem: &Problem, tokens: &mut Tokens<'_>) -> Result<CellId, TextFault>
    ensures { Gives (λ cell. cell.0) result tokens.new (known_next (cell_names problem.now) tokens.old) }
{
    let word = tokens.word()?;
    cell_of(problem, word.text).ok_or(TextFault::Wrong {
        at: word.at,
        kind: Kind::Unknown,
    })
}

/// The next token as the name of a net, else `Unknown`.
#[tactic(auto, unfolding(crate::specs::OutReading::known_next))]
fn known_net(problem: &Problem, tokens: &mut Tokens<'_>) -> Result<NetId, TextFault>
    ensures { Gives (λ net. net.0) result tokens.new (known_next problem.now.nets tokens.old) }
{
    let word = tokens.word()?;
    net_of(problem, word.text).ok_or(TextFault::Wrong {
        at: word.at,
        kind: Kind::Unknown,
    })
}

/// The next two tokens as coordinates.
#[tactic(auto, unfolding(crate::specs::OutReading::point_next))]
fn point(tokens: &mut Tokens<'_>) -> Result<Point, TextFault>
    ensures gives { Gives (λ at. at) result tokens.new (point_next tokens.old) }
    ensures range { IfOk result (λ at. IsCoordinate at.x × IsCoordinate at.y) }
{
    let x = tokens.number(0, GREATEST, Kind::Number)?;
    let y = tokens.number(0, GREATEST, Kind::Number)?;
    Ok(Point {
        x: x as i64,
        y: y as i64,
    })
}

/// The next line of a cell.
#[tactic(auto, unfolding(crate::specs::OutReading::inst_next))]
fn next_inst(problem: &Problem, tokens: &mut Tokens<'_>) -> Result<DrawnCell, TextFault>
    ensures gives { Gives (λ line. line) result tokens.new (inst_next problem.now tokens.old) }
    ensures range { IfOk result (λ line. IsCoordinate line.x × IsCoordinate line.y) }
{
    tokens.keyword(b"Inst")?;
    let cell = known_cell(problem, tokens)?;
    let at = point(tokens)?;
    Ok(DrawnCell {
        cell,
        x: at.x,
        y: at.y,
    })
}

/// The next line of a terminal.
#[tactic(auto, unfolding(crate::specs::OutReading::terminal_next))]
fn next_terminal(problem: &Problem, tokens: &mut Tokens<'_>) -> Result<DrawnTerminal, TextFault>
    ensures gives { Gives (λ line. line) result tokens.new (terminal_next problem.now tokens.old) }
    ensures range { IfOk result (λ line. IsCoordinate line.x × IsCoordinate line.y) }
{
    tokens.keyword(b"Terminal")?;
    let net = known_net(problem, tokens)?;
    let at = point(tokens)?;
    Ok(DrawnTerminal {
        net,
        x: at.x,
        y: at.y,
    })
}

/// The head line of a part: how many lines follow.
#[tactic(auto, unfolding(crate::specs::OutReading::head_next))]
fn head(word: &[u8], tokens: &mut Tokens<'_>) -> Result<u64, TextFault>
    ensures gives { Gives (λ count. count) result tokens.new (head_next word.now tokens.old) }
{
    tokens.keyword(word)?;
    tokens.number(0, LINES, Kind::Limit)
}

/// Adds the next cell to a die.
fn add_cell(
    drawn: &mut Drawn,
    problem: &Problem,
    die: Die,
    tokens: &mut Tokens<'_>,
) -> Result<(), TextFault>
    ensures { Grows (λ drawing line. with_cell drawing die line) result drawn.old drawn.new tokens.new (inst_next problem.now tokens.old) }
{
    let line = next_inst(problem, tokens)?;
    drawn.push_cell(die, line).or(Err(TextFault::Memory))
}

/// Adds the next terminal.
fn add_terminal(
    drawn: &mut Drawn,
    problem: &Problem,
    tokens: &mut Tokens<'_>,
) -> Result<(), TextFault>
    ensures { Grows with_terminal result drawn.old drawn.new tokens.new (terminal_next problem.now tokens.old) }
{
    let line = next_terminal(problem, tokens)?;
    drawn.push_terminal(line).or(Err(TextFault::Memory))
}

/// Adds so many cells to a die.
fn many_cells(
    drawn: &mut Drawn,
    problem: &Problem,
    die: Die,
    count: u64,
    tokens: &mut Tokens<'_>,
) -> Result<(), TextFault>
    ensures { Grows (with_cells die) result drawn.old drawn.new tokens.new
        (many_next (λ _. inst_next problem.now) count [] tokens.old) }
{
    for _ in 0..count {
        add_cell(drawn, problem, die, tokens)?;
    }
    Ok(())
}

/// Adds so many terminals.
fn many_terminals(
    drawn: &mut Drawn,
    problem: &Problem,
    count: u64,
    tokens: &mut Tokens<'_>,
) -> Result<(), TextFault>
    ensures { Grows with_terminals result drawn.old drawn.new tokens.new
        (many_next (λ _. terminal_next problem.now) count [] tokens.old) }
{
    for _ in 0..count {
        add_terminal(drawn, problem, tokens)?;
    }
    Ok(())
}

/// Reads the part of a die.
#[tactic(auto, unfolding(crate::specs::OutReading::part_next))]
fn cells(
    drawn: &mut Drawn,
    problem: &Problem,
    die: Die,
    tokens: &mut Tokens<'_>,
) -> Result<(), TextFault>
    ensures { Grows (with_cells die) result drawn.old drawn.new tokens.new
        (part_next (die_word die) (inst_next problem.now) tokens.old) }
{
    let count = head(word_of(die), tokens)?;
    many_cells(drawn, problem, die, count, tokens)
}

/// Reads the part of the terminals.
#[tactic(auto, unfolding(crate::specs::OutReading::part_next))]
fn terminals(drawn: &mut Drawn, problem: &Problem, tokens: &mut Tokens<'_>) -> Result<(), TextFault>
    ensures { Grows with_terminals result drawn.old drawn.new tokens.new
        (part_next (codes "NumTerminals") (terminal_next problem.now) tokens.old) }
{
    let count = head(b"NumTerminals", tokens)?;
    many_terminals(drawn, problem, count, tokens)
}

/// Reads the whole file into a drawing without lines.
fn drawing(drawn: &mut Drawn, problem: &Problem, tokens: &mut Tokens<'_>) -> Result<(), TextFault>
    requires { drawn.old ≡ empty }
    ensures { Draws result drawn.new (drawing_next problem.now tokens.old) }
{
    cells(drawn, problem, Die::Top, tokens)?;
    cells(drawn, problem, Die::Bottom, tokens)?;
    terminals(drawn, problem, tokens)?;
    tokens.end()
}

/// The drawn placement of an output file of a problem: for each die the word `TopDiePlacement` or `BottomDiePlacement`,
/// the number of its lines, and the lines `Inst name x y`; then `NumTerminals`, their number, and the lines
/// `Terminal net x y`. That is the contest's form. A number of lines is at most 2^18, a coordinate at most 2^30. A
/// cell or a net may stand there several times or not at all: the contest's rules are asked of the drawing later.
///
/// `Wrong` comes only where the file is not in the grammar: it is the first fault from left to right. At each token it
/// is `Ended` where there is none, `Word` where another keyword is needed, `Number` where a number is needed and the
/// token is none or is above 2^30, `Limit` for a number of lines above 2^18, `Unknown` where no cell or net has the
/// token as its name (also where the token is no name), and `Trailing` behind the last terminal. `Memory` comes where
/// memory was refused.
pub fn read_out(alloc: Global, problem: &Problem, bytes: &[u8]) -> Result<Drawn, TextFault>
    // What is read is in the grammar, with its drawing.
    ensures reads { IfOk result (λ drawn. ReadsOut problem.now bytes.now drawn) }
    // What is in the grammar is read, unless memory runs out.
    ensures only { (drawing : Drawing) → ReadsOut problem.now bytes.now drawing → GivesDrawing result (Ok drawing) }
    // A file says a drawing exactly where the reading from left to right gives it.
    ensures agree { (drawing : Drawing) → ReadsOut problem.now bytes.now drawing ↔ (out_of problem.now bytes.now ≡ Ok drawing) }
    // A file says at most one drawing.
    ensures unique { (one other : Drawing) → ReadsOut problem.now bytes.now one → ReadsOut problem.now bytes.now other → one ≡ other }
    // Which fault it is.
    ensures gives { GivesDrawing result (out_of problem.now bytes.now) }
    // What `write_out` writes of a placement is read as what was drawn, where the problem's names are names, as those of
    // an input file are.
    ensures back { (placed : Placed) → IsPlacementOf problem.now placed → AreNames (cell_names problem.now) → AreNames problem.now.nets
        → bytes.now ≡ out_text problem.now (drawn_of placed) → GivesDrawing result (Ok (drawn_of placed)) }
{
    let _cells = problem.cells();
    let mut tokens = Tokens::new(bytes);
    let mut drawn = Drawn::new(alloc);
    drawing(&mut drawn, problem, &mut tokens)?;
    Ok(drawn)
}
