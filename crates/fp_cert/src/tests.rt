//! Certificates that are built and written.

use crate::{CellShown, CutShown, Ending, RowShown, Run, Trial, write_cert};
use fp_base::{CellId, Die, MemFolder, NetId, NoMemory, Point, SlotId};
use std::alloc::Global;
use std::process::Abort;
use std::test::Fail;

/// The certificate of a run of a seed and a trial that was no better, of two cells and one net.
pub const KEPT: &str =
    "FaceplaceCert 1\nLimit 3\nTrials 2\nTrial 0 start\nTopSegments 2\nSegment 1 0\nCell 0 0 0 0 0\nSegment 0 0\n\
BottomSegments 2\nSegment 1 0\nCell 1 0 0 0 0\nSegment 0 0\nTerminals 1\nCut 0 0 0\nScore 2\nTrial 1 kept\nTopSegments 2\nSegment 0 0\n\
Segment 0 0\nBottomSegments 2\nSegment 2 12\nCell 1 0 -1 -1 10\nCell 0 5 0 0 0\nSegment 0 0\nTerminals 0\nScore 5\nAnswer 0\n";

/// The same with a cost, a trial that was better and one that found no row.
const COSTLY: &str =
    "FaceplaceCert 2\nCost 7\nLimit 3\nTrials 2\nTrial 0 better\nTopSegments 0\nBottomSegments 0\nTerminals 0\nScore 9\n\
Trial 1 norow 1\nTopCells 2\nCell 0\nCell 1\nAnswer 0\n";

/// A cell at an x on its segment's row, with a target and a dual.
fn shown(cell: u32, x: i64, target: i64, dual: u64) -> CellShown {
    CellShown {
        cell: CellId(cell),
        x,
        target: Point {
            x: target,
            y: target,
        },
        dual,
    }
}

/// Adds cells to a segment.
fn push_cells(row: &mut RowShown, cells: &[CellShown]) -> Result<(), NoMemory> {
    for cell in cells {
        row.push(*cell)?;
    }
    Ok(())
}

/// Adds a segment to a trial, by its first dual and its cells.
fn push_segment(
    alloc: Global,
    trial: &mut Trial,
    die: Die,
    first: u64,
    cells: &[CellShown],
) -> Result<(), NoMemory> {
    let mut row = RowShown::new(alloc, first);
    match push_cells(&mut row, cells) {
        Ok(()) => trial.push_row(die, row),
        Err(fault) => {
            drop(row);
            Err(fault)
        }
    }
}

/// One cell on each die, and the cut net between them.
fn fill_apart(alloc: Global, trial: &mut Trial) -> Result<(), NoMemory> {
    push_segment(alloc, trial, Die::Top, 0, &[shown(0, 0, 0, 0)])?;
    push_segment(alloc, trial, Die::Top, 0, &[])?;
    push_segment(alloc, trial, Die::Bottom, 0, &[shown(1, 0, 0, 0)])?;
    push_segment(alloc, trial, Die::Bottom, 0, &[])?;
    trial.push_cut(CutShown {
        net: NetId(0),
        slot: SlotId(0),
        price: 0,
    })
}

/// Both cells on one segment of the bottom die.
fn fill_together(alloc: Global, trial: &mut Trial) -> Result<(), NoMemory> {
    let both = [shown(1, 0, -1, 10), shown(0, 5, 0, 0)];
    push_segment(alloc, trial, Die::Top, 0, &[])?;
    push_segment(alloc, trial, Die::Top, 0, &[])?;
    push_segment(alloc, trial, Die::Bottom, 12, &both)?;
    push_segment(alloc, trial, Die::Bottom, 0, &[])
}

/// Both cells on the top die, of which one found no row.
fn fill_tops(trial: &mut Trial) -> Result<(), NoMemory> {
    trial.push_top(CellId(0))?;
    trial.push_top(CellId(1))
}

/// Adds a trial that was filled to a run.
fn push_filled(run: &mut Run, trial: Trial, filled: Result<(), NoMemory>) -> Result<(), NoMemory> {
    match filled {
        Ok(()) => run.push_trial(trial),
        Err(fault) => {
            drop(trial);
            Err(fault)
        }
    }
}

/// A trial with the cells apart, and one with both on the bottom die, which is no better.
fn fill_kept(alloc: Global, run: &mut Run) -> Result<(), NoMemory> {
    let mut start = Trial::new(alloc, Ending::Start, 2);
    let filled = fill_apart(alloc, &mut start);
    push_filled(run, start, filled)?;
    let mut kept = Trial::new(alloc, Ending::NotBetter, 5);
    let filled = fill_together(alloc, &mut kept);
    push_filled(run, kept, filled)
}

/// A trial without segments, and one that found no row for its second cell.
fn fill_rowless(alloc: Global, run: &mut Run) -> Result<(), NoMemory> {
    run.push_trial(Trial::new(alloc, Ending::Better, 9))?;
    let mut rowless = Trial::new(alloc, Ending::NoRow(CellId(1)), 0);
    let filled = fill_tops(&mut rowless);
    push_filled(run, rowless, filled)
}

/// The certificate of a run is this text, and is written in two calls of the folder.
pub fn expect_text(rt: &impl Abort, alloc: Global, run: &Run, text: &str) -> Result<(), Fail> {
    let mut folder = MemFolder::new(alloc, &[], 1, 1024)?;
    let written = write_cert(&mut folder, "c", run);
    assert!(rt; written.is_ok());
    assert!(rt; folder.file("c") == Some(text.as_bytes()), "{text}");
    assert!(rt; folder.calls() == 2);
    drop(folder);
    Ok(())
}

#[test]
fn a_run_without_costs_is_written_in_version_1(rt: HostRuntime) -> Result<(), Fail> {
    let mut run = Run::new(rt.alloc(), 3, 0);
    let done = match fill_kept(rt.alloc(), &mut run) {
        Ok(()) => expect_text(&rt, rt.alloc(), &run, KEPT),
        Err(fault) => Err(Fail::from(fault)),
    };
    drop(run);
    done
}

#[test]
fn a_run_with_costs_is_written_in_version_2(rt: HostRuntime) -> Result<(), Fail> {
    let mut run = Run::new(rt.alloc(), 3, 7);
    run.set_answer(0);
    let done = match fill_rowless(rt.alloc(), &mut run) {
        Ok(()) => expect_text(&rt, rt.alloc(), &run, COSTLY),
        Err(fault) => Err(Fail::from(fault)),
    };
    drop(run);
    done
}
