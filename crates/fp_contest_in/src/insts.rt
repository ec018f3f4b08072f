//! Reading the instances into a builder.

ghost use Rattle.std.specs.Prelude.{◌≡◌, ◌<◌, ◌≤◌, ◌^◌, [], length, true, IfSome, is_some};
ghost use Rattle.fp_base.specs.declared.ids.Die.TheVariants.{Top, Bottom};
ghost use Rattle.fp_text.specs.Reading.{many_next};
ghost use Rattle.fp_tech.specs.Book.{is_among, has};
ghost use Rattle.fp_tech.specs.Plan.{spec_of};
ghost use Rattle.fp_netlist.specs.Netlist.{cell_names, lib_for, with_inst};
ghost use Rattle.fp_contest_in.specs.Text.{with_inst_text, with_inst_texts};
ghost use Rattle.fp_contest_in.specs.Grammar.{has_lib};
ghost use Rattle.fp_contest_in.specs.Statements.{lib_name_next, inst_next, insts_next};
ghost use Rattle.fp_contest_in.specs.Growing.{Grows, inst_item};
ghost use Rattle.fp_contest_in.specs.Given.{IsLibOf, GivesLib, GivesNew};

use crate::steps::{fault_behind, number, wrong};
use fp_base::{Die, LibId};
use fp_netlist::ProblemBuilder;
use fp_tech::{BuildFault, Dies};
use fp_text::{Kind, TextFault, Tokens, Word};

/// The most instances.
const INSTS: u32 = 1 << 18;

/// Whether the technology of a die has a library cell.
fn is_in(dies: &Dies, lib: LibId, die: Die) -> bool
    ensures { result ≡ has dies.now.book (spec_of dies.now die).tech.0 lib.0 }
{
    let tech = dies.spec(die).tech;
    dies.book().has(tech, lib)
}

/// The library cell of that name, where the technologies of both dies have it.
fn lib_named(dies: &Dies, name: &[u8]) -> Option<LibId>
    ensures exact { is_some result ≡ has_lib dies.now name.now }
    ensures lib { IfSome result (λ lib. IsLibOf dies.now name.now lib.0) }
{
    let lib = dies.book().lib_named(name)?;
    if is_in(dies, lib, Die::Top) && is_in(dies, lib, Die::Bottom) {
        Some(lib)
    } else {
        None
    }
}

/// The next token as the name of a library cell that the technologies of both dies have, else `Unknown`.
#[tactic(auto, unfolding(crate::specs::Statements::lib_name_next))]
fn known_lib(dies: &Dies, tokens: &mut Tokens<'_>) -> Result<LibId, TextFault>
    ensures { GivesLib dies.now result tokens.new (lib_name_next dies.now tokens.old) }
{
    let name = tokens.name()?;
    lib_named(dies, name.text).ok_or(wrong(name.at, Kind::Unknown))
}

/// Adds an instance, or `Twice` at its name where it is there.
fn add_inst(builder: &mut ProblemBuilder, name: Word<'_>, lib: LibId) -> Result<(), TextFault>
    requires room { length builder.old.cells < 2 ^ 18 }
    requires top { is_some (lib_for builder.old.plan lib.0 Top) ≡ true }
    requires bottom { is_some (lib_for builder.old.plan lib.0 Bottom) ≡ true }
    ensures { GivesNew result name.entry.at (is_among name.entry.text.now (cell_names builder.old)) builder.new
        (with_inst builder.old name.entry.text.now lib.0) }
{
    match builder.add_inst(name.text, lib) {
        Ok(_) => Ok(()),
        Err(BuildFault::Twice) => Err(wrong(name.at, Kind::Twice)),
        Err(BuildFault::Memory) => Err(TextFault::Memory),
        Err(_) => unreachable!(),
    }
}

/// Adds the next instance. Its name is looked up where it is added, or where its library cell does not read: a name that
/// is there is the first fault.
#[tactic(auto, unfolding(crate::specs::Statements::inst_next, crate::specs::Statements::new_name_next))]
fn next_inst(builder: &mut ProblemBuilder, tokens: &mut Tokens<'_>) -> Result<(), TextFault>
    requires { length builder.old.cells < 2 ^ 18 }
    ensures { Grows with_inst_text result builder.old builder.new tokens.new
        (inst_next builder.old.plan (cell_names builder.old) tokens.old) }
{
    tokens.keyword(b"Inst")?;
    let name = tokens.name()?;
    match known_lib(builder.dies(), tokens) {
        Ok(lib) => add_inst(builder, name, lib),
        Err(fault) => {
            let there = builder.cell_named(name.text).is_some();
            Err(fault_behind(name, there, fault))
        }
    }
}

/// Adds so many instances to a problem that has none.
fn many_insts(
    builder: &mut ProblemBuilder,
    count: u32,
    tokens: &mut Tokens<'_>,
) -> Result<(), TextFault>
    requires none { builder.old.cells ≡ [] }
    requires few { count ≤ 2 ^ 18 }
    ensures { Grows with_inst_texts result builder.old builder.new tokens.new
        (many_next (inst_item builder.old.plan) count [] tokens.old) }
{
    for _ in 0..count {
        next_inst(builder, tokens)?;
    }
    Ok(())
}

/// Reads the instances into a problem that has none.
#[tactic(auto, unfolding(crate::specs::Statements::insts_next))]
pub fn insts(builder: &mut ProblemBuilder, tokens: &mut Tokens<'_>) -> Result<(), TextFault>
    requires { builder.old.cells ≡ [] }
    ensures { Grows with_inst_texts result builder.old builder.new tokens.new (insts_next builder.old.plan tokens.old) }
{
    tokens.keyword(b"NumInstances")?;
    let count = number(tokens, 0, INSTS, Kind::Limit)?;
    many_insts(builder, count, tokens)
}
