//! The whole output file.

ghost use Rattle.std.specs.Prelude.{◌≡◌, ◌<◌, ◌≤◌, ◌^◌, OnOk, OnErr, codes, length};
ghost use Rattle.fp_base.specs.Faults.{Rose};
ghost use Rattle.fp_base.specs.Files.{sets_file, OthersStay};
ghost use Rattle.fp_text.specs.Writing.{told, GoesOn, Adds};
ghost use Rattle.fp_netlist.specs.Netlist.{cell_names};
ghost use Rattle.fp_place.specs.Drawing.{lines_from, terminals_from};
ghost use Rattle.fp_place.specs.Placed.{places_of, drawn_of, IsPlacementOf};
ghost use Rattle.fp_out.specs.OutGrammar.{AreNames};
ghost use Rattle.fp_out.specs.OutText.{die_word, insts_text, terminals_text, die_part, terminal_part, out_text};

use crate::counts::{cells_on, terminals};
use crate::lines::{write_head, write_line};
use fp_base::{CellId, Die, Failed, Folder, NetId, Point};
use fp_netlist::Problem;
use fp_place::Placement;
use fp_text::Writer;

/// Writes the output file of a placement, and takes no memory: for each die the number of its cells
/// and a line for each, in file order, then the number of terminals and a line for each, in file
/// order of their nets. `Failed` comes where the device failed; what the name then holds is not said.
pub fn write_out<F: Folder>(
    folder: &mut F,
    name: &str,
    problem: &Problem,
    placement: &Placement,
) -> Result<(), Failed>
    requires of_problem { IsPlacementOf problem.now placement.now }
    ensures written { OnOk result (F.held folder.new ≡ sets_file name.now (λ _. out_text problem.now (drawn_of placement.now)) (F.held folder.old)) }
    ensures others { OthersStay name.now (F.held folder.old) (F.held folder.new) }
    ensures later { F.faults folder.old ≤ F.faults folder.new }
    ensures cause { OnErr result (Rose (F.faults folder.old) (F.faults folder.new)) }
    // The text is shorter than the longest that files are read for, where the problem's names are names, as those of an input file are.
    ensures small { AreNames (cell_names problem.now) → AreNames problem.now.nets → length (out_text problem.now (drawn_of placement.now)) < 2 ^ 28 }
{
    let _cells = problem.cells();
    let mut writer = Writer::new(folder, name);
    write_die(&mut writer, folder, name, problem, placement, Die::Top);
    write_die(&mut writer, folder, name, problem, placement, Die::Bottom);
    write_terminals(&mut writer, folder, name, problem, placement);
    writer.finish(folder, name)
}

/// The word of a die's head line.
pub fn word_of(die: Die) -> &'static [u8]
    ensures { result.now ≡ die_word die }
{
    match die {
        Die::Top => b"TopDiePlacement".as_slice(),
        Die::Bottom => b"BottomDiePlacement".as_slice(),
    }
}

/// Adds the part of a die.
fn write_die<F: Folder>(
    writer: &mut Writer,
    folder: &mut F,
    name: &str,
    problem: &Problem,
    placement: &Placement,
    die: Die,
)
    requires of_problem { IsPlacementOf problem.now placement.now }
    requires goes_on { GoesOn name.now (told F.held F.made F.faults folder.old) writer.old }
    ensures adds { Adds name.now (die_part problem.now die (lines_from die 0 (places_of placement.now))) (told F.held F.made F.faults folder.old)
        (told F.held F.made F.faults folder.new) writer.old writer.new }
    ensures goes_on { GoesOn name.now (told F.held F.made F.faults folder.new) writer.new }
{
    write_head(
        writer,
        folder,
        name,
        word_of(die),
        cells_on(problem, placement, die),
    );
    write_cells(writer, folder, name, problem, placement, die);
}

/// Adds the lines of a die's cells.
fn write_cells<F: Folder>(
    writer: &mut Writer,
    folder: &mut F,
    name: &str,
    problem: &Problem,
    placement: &Placement,
    die: Die,
)
    requires of_problem { IsPlacementOf problem.now placement.now }
    requires goes_on { GoesOn name.now (told F.held F.made F.faults folder.old) writer.old }
    ensures adds { Adds name.now (insts_text problem.now (lines_from die 0 (places_of placement.now))) (told F.held F.made F.faults folder.old)
        (told F.held F.made F.faults folder.new) writer.old writer.new }
    ensures goes_on { GoesOn name.now (told F.held F.made F.faults folder.new) writer.new }
{
    for cell in 0..problem.cells() {
        let cell = CellId(cell);
        let spot = placement.spot(cell);
        if spot.die != die {
            continue;
        }
        let corner = Point {
            x: spot.x,
            y: spot.y,
        };
        write_line(
            writer,
            folder,
            name,
            b"Inst",
            problem.cell_name(cell),
            corner,
        );
    }
}

/// Adds the part of the terminals.
fn write_terminals<F: Folder>(
    writer: &mut Writer,
    folder: &mut F,
    name: &str,
    problem: &Problem,
    placement: &Placement,
)
    requires of_problem { IsPlacementOf problem.now placement.now }
    requires goes_on { GoesOn name.now (told F.held F.made F.faults folder.old) writer.old }
    ensures adds { Adds name.now (terminal_part problem.now (terminals_from 0 placement.now.terminals)) (told F.held F.made F.faults folder.old)
        (told F.held F.made F.faults folder.new) writer.old writer.new }
    ensures goes_on { GoesOn name.now (told F.held F.made F.faults folder.new) writer.new }
{
    write_head(
        writer,
        folder,
        name,
        b"NumTerminals",
        terminals(problem, placement),
    );
    write_centres(writer, folder, name, problem, placement);
}

/// Adds the lines of the terminals.
fn write_centres<F: Folder>(
    writer: &mut Writer,
    folder: &mut F,
    name: &str,
    problem: &Problem,
    placement: &Placement,
)
    requires of_problem { IsPlacementOf problem.now placement.now }
    requires goes_on { GoesOn name.now (told F.held F.made F.faults folder.old) writer.old }
    ensures adds { Adds name.now (terminals_text problem.now (terminals_from 0 placement.now.terminals)) (told F.held F.made F.faults folder.old)
        (told F.held F.made F.faults folder.new) writer.old writer.new }
    ensures goes_on { GoesOn name.now (told F.held F.made F.faults folder.new) writer.new }
{
    for net in 0..problem.nets() {
        let net = NetId(net);
        let Some(centre) = placement.terminal(net) else {
            continue;
        };
        write_line(
            writer,
            folder,
            name,
            b"Terminal",
            problem.net_name(net),
            centre,
        );
    }
}
