//! Reading a whole input file.

ghost use Rattle.std.specs.Prelude.{◌≡◌, ◌≤◌, ◌↔◌, true, Ok, IfOk, length, All};
ghost use Rattle.fp_text.specs.Numbers.{is_name};
ghost use Rattle.fp_tech.specs.Plan.{IsBlock};
ghost use Rattle.fp_netlist.specs.Netlist.{no_cells, cell_names};
ghost use Rattle.fp_contest_in.specs.Text.{ProblemText, netlist_of};
ghost use Rattle.fp_contest_in.specs.Grammar.{Reads};
ghost use Rattle.fp_contest_in.specs.PrintedText.{text_lines};
ghost use Rattle.fp_contest_in.specs.Printable.{IsPrintable};
ghost use Rattle.fp_contest_in.specs.Statements.{front_next, netlist_next, problem_next, setup_of, problem_of, GivesProblem};
ghost use Rattle.fp_contest_in.specs.Ranges.{AreInRange, IsComplete, HasRowsInFrame};
ghost use Rattle.fp_contest_in.specs.Given.{plan_with, GivesDies, GivesFront, GivesNetlist};

use crate::blocks::{ListedBlocks, blocks};
use crate::insts::insts;
use crate::nets::nets;
use crate::section::Found;
use crate::sections::sections;
use crate::steps::wrong;
use crate::techs::techs;
use fp_netlist::{Problem, ProblemBuilder};
use fp_tech::{Dies, DiesFault, TechBook};
use fp_text::{Kind, TextFault, Tokens};
use std::alloc::Global;

/// The dies that the sections and the blockages describe; `Limit` at the keyword of the blockages where a die has more than 2^16
/// segments. The rows were found to lie in the frame.
fn dies_of(
    alloc: Global,
    book: TechBook,
    found: Found,
    listed: &ListedBlocks,
) -> Result<Dies, TextFault>
    requires complete { IsComplete found }
    requires range { AreInRange (length book.techs) found }
    requires lie { HasRowsInFrame found }
    requires few { length listed.now.blocks.items ≤ 1024 }
    requires in_range { All IsBlock listed.now.blocks.items }
    ensures { GivesDies (plan_with book (setup_of found) listed.now.blocks.items) listed.now.at result }
{
    let setup = found.setup();
    match Dies::new(
        alloc,
        book,
        setup.frame,
        setup.top,
        setup.bottom,
        setup.terminal,
        &listed.blocks,
    ) {
        Ok(dies) => Ok(dies),
        Err(DiesFault::RowsOutside(_)) => unreachable!(),
        Err(DiesFault::TooMany(_)) => Err(wrong(listed.at, Kind::Limit)),
        Err(DiesFault::Memory) => Err(TextFault::Memory),
    }
}

/// The technologies, the sections and the blockages.
#[tactic(auto, unfolding(crate::specs::Statements::front_next))]
fn front(alloc: Global, tokens: &mut Tokens<'_>) -> Result<Dies, TextFault>
    ensures { GivesFront result tokens.new (front_next tokens.old) }
{
    let mut book = TechBook::new(alloc);
    techs(&mut book, tokens)?;
    let found = sections(&book, tokens)?;
    let listed = blocks(alloc, tokens)?;
    dies_of(alloc, book, found, &listed)
}

/// Reads the instances, the nets and the end into a problem that has none.
fn netlist(builder: &mut ProblemBuilder, tokens: &mut Tokens<'_>) -> Result<(), TextFault>
    requires { builder.old ≡ no_cells builder.old.plan }
    ensures { GivesNetlist builder.old.plan result builder.new (netlist_next builder.old.plan tokens.old) }
{
    insts(builder, tokens)?;
    nets(builder, tokens)?;
    tokens.end()
}

/// The whole file, up to its first fault.
fn problem(alloc: Global, tokens: &mut Tokens<'_>) -> Result<Problem, TextFault>
    ensures { GivesProblem result (problem_next tokens.old) }
{
    let dies = front(alloc, tokens)?;
    let mut builder = ProblemBuilder::new(alloc, dies);
    netlist(&mut builder, tokens)?;
    match builder.finish() {
        Ok(problem) => Ok(problem),
        Err(_) => Err(TextFault::Memory),
    }
}

/// The problem of an input file: its dies, and its cells, nets and connections in file order.
///
/// `Wrong` comes only where the file is not in the grammar: it is the first fault from left to right, by the order in
/// which the kinds are tried at each token. `Memory` comes where memory was refused.
pub fn read_problem(alloc: Global, bytes: &[u8]) -> Result<Problem, TextFault>
    // What is read is in the grammar, with its problem.
    ensures reads { IfOk result (λ p. (text : ProblemText) × Reads bytes.now text × (p ≡ netlist_of text)) }
    // What is in the grammar is read, unless memory runs out.
    ensures only { (text : ProblemText) → Reads bytes.now text → GivesProblem result (Ok text) }
    // The grammar and the reading from left to right agree.
    ensures agree { (text : ProblemText) → Reads bytes.now text ↔ (problem_of bytes.now ≡ Ok text) }
    // A file says one problem.
    ensures once { (a b : ProblemText) → Reads bytes.now a → Reads bytes.now b → a ≡ b }
    // Each cell and each net has a name.
    ensures names { IfOk result (λ p. All (λ name. is_name name ≡ true) (cell_names p) × All (λ name. is_name name ≡ true) p.nets) }
    // What is read can be printed, and the canonical text of whatever can be printed is read as it.
    ensures printable { IfOk result (λ p. (text : ProblemText) × IsPrintable text × (p ≡ netlist_of text)) }
    ensures printed { (text : ProblemText) → IsPrintable text → Reads (text_lines text) text }
    // Which fault it is.
    ensures gives { GivesProblem result (problem_of bytes.now) }
{
    let mut tokens = Tokens::new(bytes);
    problem(alloc, &mut tokens)
}
