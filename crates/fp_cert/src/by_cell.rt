//! What a trial shows of each cell, in file order, read off its rows.

ghost use Rattle.std.specs.Prelude.{◌≡◌, ◌<◌, All, IfOk, length, map};
ghost use Rattle.fp_base.specs.declared.ids.Die.TheVariants.{Top, Bottom};
ghost use Rattle.fp_place.specs.Placed.{StandOnce};
ghost use Rattle.fp_cert.specs.ByCell.{with_lines, with_row_lines};
ghost use Rattle.fp_cert.specs.Standing.{lanes_shown, lines_shown, spots_shown, targets_shown};

use crate::shown::{CellShown, RowShown};
use crate::trial::Trial;
use fp_base::{CellId, Die, NoMemory, Point};
use fp_netlist::Problem;
use std::alloc::Global;

/// What stands in a cell's place before its line is written.
const NO_LINE: CellShown = CellShown {
    cell: CellId(0),
    x: 0,
    target: Point { x: 0, y: 0 },
    dual: 0,
};

/// The line of each cell, in file order, of a trial whose rows list each cell once.
fn lines_of(alloc: Global, problem: &Problem, trial: &Trial) -> Result<Vec<CellShown>, NoMemory>
    requires once { StandOnce (length problem.now.cells) (lanes_shown trial.now Top) (lanes_shown trial.now Bottom) }
    ensures { IfOk result (λ lines. lines.items ≡ lines_shown problem.now trial.now) }
{
    let mut lines = vec![in alloc; NO_LINE; problem.cells() as usize]?;
    write_rows(trial.rows(Die::Top), &mut lines);
    write_rows(trial.rows(Die::Bottom), &mut lines);
    Ok(lines)
}

/// The x of each cell, by the lines of a trial whose rows list each cell once.
pub fn xs_of(alloc: Global, problem: &Problem, trial: &Trial) -> Result<Vec<i64>, NoMemory>
    requires once { StandOnce (length problem.now.cells) (lanes_shown trial.now Top) (lanes_shown trial.now Bottom) }
    ensures { IfOk result (λ xs. xs.items ≡ map (λ spot. spot.x) (spots_shown problem.now trial.now)) }
{
    let lines = lines_of(alloc, problem, trial)?;
    let mut xs = Vec::with_capacity(alloc, lines.len())?;
    for line in &lines {
        xs.push(line.x)?;
    }
    Ok(xs)
}

/// The target of each cell, by the lines of a trial whose rows list each cell once.
pub fn targets_of(alloc: Global, problem: &Problem, trial: &Trial) -> Result<Vec<Point>, NoMemory>
    requires once { StandOnce (length problem.now.cells) (lanes_shown trial.now Top) (lanes_shown trial.now Bottom) }
    ensures { IfOk result (λ targets. targets.items ≡ targets_shown problem.now trial.now) }
{
    let lines = lines_of(alloc, problem, trial)?;
    let mut targets = Vec::with_capacity(alloc, lines.len())?;
    for line in &lines {
        targets.push(line.target)?;
    }
    Ok(targets)
}

/// Writes each line of rows to its cell's place.
fn write_rows(rows: &[RowShown], lines: &mut Vec<CellShown>)
    requires { All (λ row. All (λ line. line.cell.0 < length lines.old.items) row.cells) rows.now }
    ensures { lines.new.items ≡ with_row_lines lines.old.items rows.now }
{
    for row in rows {
        write_row(row.cells(), lines);
    }
}

/// Writes each line of a row to its cell's place.
fn write_row(cells: &[CellShown], lines: &mut Vec<CellShown>)
    requires { All (λ line. line.cell.0 < length lines.old.items) cells.now }
    ensures { lines.new.items ≡ with_lines lines.old.items cells.now }
{
    for line in cells {
        let place = line.cell.0 as usize;
        lines[place] = *line;
    }
}
