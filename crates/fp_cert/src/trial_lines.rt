//! The lines of a trial that placed its cells.

ghost use Rattle.std.specs.Prelude.{◌≡◌, length, flat_map, codes, IsTrue};
ghost use Rattle.fp_text.specs.Writing.{told, GoesOn, Adds};
ghost use Rattle.fp_cert.specs.CertText.{cell_line, row_lines, die_word, die_lines, cut_line, cut_lines, trial_lines};
ghost use Rattle.fp_cert.specs.Shown.{rows_of};
ghost use Rattle.fp_cert.specs.Endings.{has_rows};

use crate::lines::{write_field, write_number_line, write_pair_line, write_signed_field};
use crate::shown::{CellShown, CutShown, RowShown};
use crate::trial::Trial;
use fp_base::{Die, Folder};
use fp_text::Writer;

/// Adds the lines of a trial from its top die's segments to its score. The trial did not end as `NoRow`. What the lines say is that of
/// the certificate; the file is the writer's.
pub fn write_lines<F: Folder>(writer: &mut Writer, folder: &mut F, name: &str, trial: &Trial)
    requires placed { IsTrue (has_rows trial.now.ending) }
    requires goes_on { GoesOn name.now (told F.held F.made F.faults folder.old) writer.old }
    ensures adds { Adds name.now (trial_lines trial.now) (told F.held F.made F.faults folder.old)
        (told F.held F.made F.faults folder.new) writer.old writer.new }
    ensures goes_on { GoesOn name.now (told F.held F.made F.faults folder.new) writer.new }
{
    write_die(writer, folder, name, trial, Die::Top);
    write_die(writer, folder, name, trial, Die::Bottom);
    write_cuts(writer, folder, name, trial.cuts());
    write_number_line(writer, folder, name, b"Score", trial.score());
}

/// The word before a die's segments.
pub fn word_of(die: Die) -> &'static [u8]
    ensures { result.now ≡ die_word die }
{
    match die {
        Die::Top => b"TopSegments".as_slice(),
        Die::Bottom => b"BottomSegments".as_slice(),
    }
}

/// Adds the segments of a die.
fn write_die<F: Folder>(writer: &mut Writer, folder: &mut F, name: &str, trial: &Trial, die: Die)
    requires { GoesOn name.now (told F.held F.made F.faults folder.old) writer.old }
    ensures adds { Adds name.now (die_lines die (rows_of trial.now die)) (told F.held F.made F.faults folder.old)
        (told F.held F.made F.faults folder.new) writer.old writer.new }
    ensures goes_on { GoesOn name.now (told F.held F.made F.faults folder.new) writer.new }
{
    let rows = trial.rows(die);
    write_number_line(writer, folder, name, word_of(die), rows.len() as u64);
    write_rows(writer, folder, name, rows);
}

/// Adds the lines of segments.
fn write_rows<F: Folder>(writer: &mut Writer, folder: &mut F, name: &str, rows: &[RowShown])
    requires { GoesOn name.now (told F.held F.made F.faults folder.old) writer.old }
    ensures adds { Adds name.now (flat_map row_lines rows.now) (told F.held F.made F.faults folder.old)
        (told F.held F.made F.faults folder.new) writer.old writer.new }
    ensures goes_on { GoesOn name.now (told F.held F.made F.faults folder.new) writer.new }
{
    for row in rows {
        write_row(writer, folder, name, row);
    }
}

/// Adds the lines of a segment.
fn write_row<F: Folder>(writer: &mut Writer, folder: &mut F, name: &str, row: &RowShown)
    requires { GoesOn name.now (told F.held F.made F.faults folder.old) writer.old }
    ensures adds { Adds name.now (row_lines row.now) (told F.held F.made F.faults folder.old)
        (told F.held F.made F.faults folder.new) writer.old writer.new }
    ensures goes_on { GoesOn name.now (told F.held F.made F.faults folder.new) writer.new }
{
    let cells = row.cells();
    write_pair_line(
        writer,
        folder,
        name,
        b"Segment",
        cells.len() as u64,
        row.first(),
    );
    write_cells(writer, folder, name, cells);
}

/// Adds the lines of cells.
fn write_cells<F: Folder>(writer: &mut Writer, folder: &mut F, name: &str, cells: &[CellShown])
    requires { GoesOn name.now (told F.held F.made F.faults folder.old) writer.old }
    ensures adds { Adds name.now (flat_map cell_line cells.now) (told F.held F.made F.faults folder.old)
        (told F.held F.made F.faults folder.new) writer.old writer.new }
    ensures goes_on { GoesOn name.now (told F.held F.made F.faults folder.new) writer.new }
{
    for cell in cells {
        write_cell(writer, folder, name, *cell);
    }
}

/// Adds the line of a cell.
fn write_cell<F: Folder>(writer: &mut Writer, folder: &mut F, name: &str, cell: CellShown)
    requires { GoesOn name.now (told F.held F.made F.faults folder.old) writer.old }
    ensures adds { Adds name.now (cell_line cell) (told F.held F.made F.faults folder.old)
        (told F.held F.made F.faults folder.new) writer.old writer.new }
    ensures goes_on { GoesOn name.now (told F.held F.made F.faults folder.new) writer.new }
{
    writer.put(folder, name, b"Cell");
    write_field(writer, folder, name, u64::from(cell.cell.0));
    write_signed_field(writer, folder, name, cell.x);
    write_signed_field(writer, folder, name, cell.target.x);
    write_signed_field(writer, folder, name, cell.target.y);
    write_field(writer, folder, name, cell.dual);
    writer.put(folder, name, b"\n");
}

/// Adds the number of cut nets, and their lines.
fn write_cuts<F: Folder>(writer: &mut Writer, folder: &mut F, name: &str, cuts: &[CutShown])
    requires { GoesOn name.now (told F.held F.made F.faults folder.old) writer.old }
    ensures adds { Adds name.now (cut_lines cuts.now) (told F.held F.made F.faults folder.old)
        (told F.held F.made F.faults folder.new) writer.old writer.new }
    ensures goes_on { GoesOn name.now (told F.held F.made F.faults folder.new) writer.new }
{
    write_number_line(writer, folder, name, b"Terminals", cuts.len() as u64);
    for cut in cuts {
        write_cut(writer, folder, name, *cut);
    }
}

/// Adds the line of a cut net.
fn write_cut<F: Folder>(writer: &mut Writer, folder: &mut F, name: &str, cut: CutShown)
    requires { GoesOn name.now (told F.held F.made F.faults folder.old) writer.old }
    ensures adds { Adds name.now (cut_line cut) (told F.held F.made F.faults folder.old)
        (told F.held F.made F.faults folder.new) writer.old writer.new }
    ensures goes_on { GoesOn name.now (told F.held F.made F.faults folder.new) writer.new }
{
    writer.put(folder, name, b"Cut");
    write_field(writer, folder, name, u64::from(cut.net.0));
    write_field(writer, folder, name, u64::from(cut.slot.0));
    write_field(writer, folder, name, cut.price);
    writer.put(folder, name, b"\n");
}
