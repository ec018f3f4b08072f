//! Printing a whole input file.

ghost use Rattle.std.specs.Prelude.{◌≡◌, ◌≤◌, ◌++◌, ◌∷◌, ◌==◌, if◌then◌else◌, ℕ, List, [], OnOk, OnErr};
ghost use Rattle.fp_base.specs.Faults.{Rose};
ghost use Rattle.fp_base.specs.Files.{sets_file, OthersStay};
ghost use Rattle.fp_text.specs.Writing.{told, GoesOn, Adds};
ghost use Rattle.fp_tech.specs.Book.{tech_names};
ghost use Rattle.fp_tech.specs.Plan.{IsPlan, spec_of};
ghost use Rattle.fp_contest_in.specs.declared.section.Section.TheVariants as sections;
ghost use Rattle.fp_contest_in.specs.Text.{ProblemText, netlist_of};
ghost use Rattle.fp_contest_in.specs.Grammar.{keyword_of, Reads};
ghost use Rattle.fp_contest_in.specs.Printable.{IsPrintable, ReadsOnly};
ghost use Rattle.fp_contest_in.specs.PrintedText.{line, numbers, setup_said, section_line, sections_lines, problem_text};

use crate::lines::{write_named_line, write_numbers_line};
use crate::print_blocks::write_blocks;
use crate::print_nets::{write_insts, write_nets};
use crate::print_techs::write_techs;
use fp_base::{Die, Failed, Folder};
use fp_netlist::Problem;
use fp_tech::Dies;
use fp_text::Writer;

/// The keyword of a die's share of area.
fn percent_word(die: Die) -> &'static [u8]
    ensures { result.now ≡ keyword_of (sections.MaxUtil die) }
{
    match die {
        Die::Top => b"TopDieMaxUtil".as_slice(),
        Die::Bottom => b"BottomDieMaxUtil".as_slice(),
    }
}

/// The keyword of a die's rows.
fn rows_word(die: Die) -> &'static [u8]
    ensures { result.now ≡ keyword_of (sections.Rows die) }
{
    match die {
        Die::Top => b"TopDieRows".as_slice(),
        Die::Bottom => b"BottomDieRows".as_slice(),
    }
}

/// The keyword of a die's technology.
fn tech_word(die: Die) -> &'static [u8]
    ensures { result.now ≡ keyword_of (sections.Tech die) }
{
    match die {
        Die::Top => b"TopDieTech".as_slice(),
        Die::Bottom => b"BottomDieTech".as_slice(),
    }
}

/// Adds the line of the frame.
fn write_frame<F: Folder>(writer: &mut Writer, folder: &mut F, name: &str, dies: &Dies)
    requires goes_on { GoesOn name.now (told F.held F.made F.faults folder.old) writer.old }
    ensures adds { Adds name.now (section_line (tech_names dies.now.book) (setup_said dies.now) sections.DieSize) (told F.held F.made F.faults folder.old)
        (told F.held F.made F.faults folder.new) writer.old writer.new }
    ensures goes_on { GoesOn name.now (told F.held F.made F.faults folder.new) writer.new }
{
    let frame = dies.frame();
    write_numbers_line(
        writer,
        folder,
        name,
        b"DieSize",
        &[frame.llx, frame.lly, frame.urx, frame.ury],
    );
}

/// Adds the line of a die's share of area.
fn write_percent<F: Folder>(writer: &mut Writer, folder: &mut F, name: &str, dies: &Dies, die: Die)
    requires goes_on { GoesOn name.now (told F.held F.made F.faults folder.old) writer.old }
    ensures adds { Adds name.now (section_line (tech_names dies.now.book) (setup_said dies.now) (sections.MaxUtil die)) (told F.held F.made F.faults folder.old)
        (told F.held F.made F.faults folder.new) writer.old writer.new }
    ensures goes_on { GoesOn name.now (told F.held F.made F.faults folder.new) writer.new }
{
    let spec = dies.spec(die);
    write_numbers_line(writer, folder, name, percent_word(die), &[spec.percent]);
}

/// Adds the line of a die's rows.
fn write_rows<F: Folder>(writer: &mut Writer, folder: &mut F, name: &str, dies: &Dies, die: Die)
    requires goes_on { GoesOn name.now (told F.held F.made F.faults folder.old) writer.old }
    ensures adds { Adds name.now (section_line (tech_names dies.now.book) (setup_said dies.now) (sections.Rows die)) (told F.held F.made F.faults folder.old)
        (told F.held F.made F.faults folder.new) writer.old writer.new }
    ensures goes_on { GoesOn name.now (told F.held F.made F.faults folder.new) writer.new }
{
    let spec = dies.spec(die);
    write_numbers_line(
        writer,
        folder,
        name,
        rows_word(die),
        &[
            spec.start_x,
            spec.start_y,
            spec.length,
            spec.height,
            spec.repeat,
        ],
    );
}

/// Adds the line of a die's technology.
fn write_die_tech<F: Folder>(writer: &mut Writer, folder: &mut F, name: &str, dies: &Dies, die: Die)
    requires goes_on { GoesOn name.now (told F.held F.made F.faults folder.old) writer.old }
    ensures adds { Adds name.now (section_line (tech_names dies.now.book) (setup_said dies.now) (sections.Tech die)) (told F.held F.made F.faults folder.old)
        (told F.held F.made F.faults folder.new) writer.old writer.new }
    ensures goes_on { GoesOn name.now (told F.held F.made F.faults folder.new) writer.new }
{
    let tech = dies.book().tech_name(dies.spec(die).tech);
    write_named_line(writer, folder, name, tech_word(die), tech, &[]);
}

/// Adds the lines of the terminal's size and spacing.
fn write_terminal<F: Folder>(writer: &mut Writer, folder: &mut F, name: &str, dies: &Dies)
    requires goes_on { GoesOn name.now (told F.held F.made F.faults folder.old) writer.old }
    ensures adds { Adds name.now
        (section_line (tech_names dies.now.book) (setup_said dies.now) sections.TerminalSize
        ++ section_line (tech_names dies.now.book) (setup_said dies.now) sections.TerminalSpacing) (told F.held F.made F.faults folder.old)
        (told F.held F.made F.faults folder.new) writer.old writer.new }
    ensures goes_on { GoesOn name.now (told F.held F.made F.faults folder.new) writer.new }
{
    let terminal = dies.terminal();
    write_numbers_line(
        writer,
        folder,
        name,
        b"TerminalSize",
        &[terminal.size_x, terminal.size_y],
    );
    write_numbers_line(
        writer,
        folder,
        name,
        b"TerminalSpacing",
        &[terminal.spacing],
    );
}

/// Adds the line of what a terminal costs; none where that is 0.
fn write_cost<F: Folder>(writer: &mut Writer, folder: &mut F, name: &str, cost: u32)
    requires goes_on { GoesOn name.now (told F.held F.made F.faults folder.old) writer.old }
    ensures adds { Adds name.now (if cost == 0 then [] else line (keyword_of sections.TerminalCost) (numbers (cost ∷ []))) (told F.held F.made F.faults folder.old)
        (told F.held F.made F.faults folder.new) writer.old writer.new }
    ensures goes_on { GoesOn name.now (told F.held F.made F.faults folder.new) writer.new }
{
    if cost != 0 {
        write_numbers_line(writer, folder, name, b"TerminalCost", &[cost]);
    }
}

/// Adds the lines of the nine sections, and behind them the line of the cost where it is not 0.
fn write_sections<F: Folder>(writer: &mut Writer, folder: &mut F, name: &str, dies: &Dies)
    requires goes_on { GoesOn name.now (told F.held F.made F.faults folder.old) writer.old }
    ensures adds { Adds name.now (sections_lines (tech_names dies.now.book) (setup_said dies.now)) (told F.held F.made F.faults folder.old)
        (told F.held F.made F.faults folder.new) writer.old writer.new }
    ensures goes_on { GoesOn name.now (told F.held F.made F.faults folder.new) writer.new }
{
    write_frame(writer, folder, name, dies);
    write_percent(writer, folder, name, dies, Die::Top);
    write_percent(writer, folder, name, dies, Die::Bottom);
    write_rows(writer, folder, name, dies, Die::Top);
    write_rows(writer, folder, name, dies, Die::Bottom);
    write_die_tech(writer, folder, name, dies, Die::Top);
    write_die_tech(writer, folder, name, dies, Die::Bottom);
    write_terminal(writer, folder, name, dies);
    write_cost(writer, folder, name, dies.terminal().cost);
}

/// Writes the canonical text of a problem, and takes no memory: the technologies with their library cells and pins, the
/// nine sections in the usual order, a terminal's cost where it is not 0, the blockages where there is one, the instances,
/// and the nets with their pins in file order. One statement a line, single spaces, a line feed behind each line, plain
/// decimal numbers: the contest's statements in its usual order and our own two additions, in a layout of our own. A pin
/// of a net is named as in the top die's technology. `Failed` comes where the device failed; what the name then holds is
/// not said.
pub fn print_problem<F: Folder>(folder: &mut F, name: &str, problem: &Problem) -> Result<(), Failed>
    ensures written { OnOk result (F.held folder.new ≡ sets_file name.now (λ _. problem_text problem.now) (F.held folder.old)) }
    ensures others { OthersStay name.now (F.held folder.old) (F.held folder.new) }
    ensures later { F.faults folder.old ≤ F.faults folder.new }
    ensures cause { OnErr result (Rose (F.faults folder.old) (F.faults folder.new)) }
    // What is written is read again, as the same problem: where some bytes say the problem, so does its canonical text.
    ensures reads_back { (bytes : List ℕ) (text : ProblemText) → Reads bytes text → problem.now ≡ netlist_of text
        → Reads (problem_text problem.now) text }
    // The same of a problem that a printable text describes, whether bytes said it or not; and nothing else is read.
    ensures printable { (text : ProblemText) → IsPrintable text → problem.now ≡ netlist_of text → ReadsOnly (problem_text problem.now) text }
{
    let dies = problem.dies();
    let mut writer = Writer::new(folder, name);
    write_techs(&mut writer, folder, name, dies.book());
    write_sections(&mut writer, folder, name, dies);
    write_blocks(&mut writer, folder, name, dies.blocks());
    write_insts(&mut writer, folder, name, problem);
    write_nets(&mut writer, folder, name, problem);
    writer.finish(folder, name)
}
