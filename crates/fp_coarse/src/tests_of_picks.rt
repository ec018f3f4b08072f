//! What no clause says: that memory is enough, and that the clauses mean what was meant.

ghost use Rattle.std.specs.Prelude.{◌≡◌, ◌<◌, length};
ghost use Rattle.fp_place.specs.Areas.{fits};
ghost use Rattle.fp_coarse.specs.Nearest.{IsNearPoint};

use crate::fixtures::{Design, Shape, Standing, problem_of};
use crate::{Picked, pick};
use fp_base::{Bottom, CellId, Die, NoMemory, Point, SegId};
use fp_netlist::Problem;
use fp_place::Lanes;
use fp_tech::Block;
use std::alloc::Global;
use std::process::Abort;
use std::test::Fail;

const C1: CellId = CellId(0);

const C2: CellId = CellId(1);

const CELLS: [Standing; 2] = [
    Standing {
        name: b"C1",
        die: Die::Bottom,
        x: 0,
        joined: false,
    },
    Standing {
        name: b"C2",
        die: Die::Bottom,
        x: 0,
        joined: false,
    },
];

/// Two cells, of width 5 on the bottom die, over so many rows of a length.
fn rows_of(length: u32, repeat: u32, blocks: &[Block]) -> Design<'_> {
    let top = Shape {
        width: 4,
        pin_x: 0,
        pin_y: 0,
    };
    Design {
        top,
        bottom: Shape { width: 5, ..top },
        length,
        repeat,
        blocks,
        cells: &CELLS,
    }
}

/// Whether a cell is at most as high as a die's rows.
fn fits(problem: &Problem, cell: CellId, die: Die) -> bool
    requires { cell.0 < length problem.now.cells }
    ensures { result ≡ fits problem.now cell.0 die }
{
    let rows = problem.dies().spec(die).height;
    problem.height(cell, die) <= i64::from(rows)
}

/// A target.
fn near(at: (i32, i32)) -> Point
    ensures { IsNearPoint result }
{
    Point {
        x: i64::from(at.0),
        y: i64::from(at.1),
    }
}

/// The pick of both cells on the bottom die, with these targets.
fn pick_bottom(
    rt: &impl Abort,
    alloc: Global,
    problem: &Problem,
    first: Point,
    second: Point,
) -> Result<Picked, NoMemory>
    requires first { IsNearPoint first }
    requires second { IsNearPoint second }
{
    assert!(rt; problem.cells() == 2);
    assert!(rt; fits(problem, C1, Die::Bottom));
    assert!(rt; fits(problem, C2, Die::Bottom));
    pick(
        alloc,
        problem,
        &[Die::Bottom, Die::Bottom],
        &[first, second],
    )
}

/// The lanes of the bottom die hold these cells.
fn expect_lanes(rt: &impl Abort, lanes: &Lanes<Bottom>, expected: &[&[CellId]]) {
    assert!(rt; lanes.len() == expected.len());
    for (segment, cells) in expected.iter().enumerate() {
        assert!(rt; segment < 4 && segment < lanes.len());
        assert!(rt; lanes.lane(SegId::new(segment as u32)) == *cells);
    }
}

/// A segment of the bottom die holds this cell alone.
fn expect_alone(rt: &impl Abort, lanes: &Lanes<Bottom>, segment: u32, cell: CellId) {
    assert!(rt; (segment as usize) < lanes.len());
    assert!(rt; lanes.lane(SegId::new(segment)) == [cell].as_slice());
}

/// What a pick answers: the cells of each segment of the bottom die, the segments on which the cells stand alone, or the cell that finds
/// no row.
#[derive(Clone, Copy)]
enum Expected<'a> {
    Rows(&'a [&'a [CellId]]),
    Alone(u32, u32),
    NoRow(CellId),
}

fn expect_rows(rt: &impl Abort, lanes: &Lanes<Bottom>, expected: Expected<'_>) {
    match expected {
        Expected::Rows(cells) => expect_lanes(rt, lanes, cells),
        Expected::Alone(first, second) => {
            expect_alone(rt, lanes, first, C1);
            expect_alone(rt, lanes, second, C2);
        }
        Expected::NoRow(_) => assert!(rt; false, "the other answer"),
    }
}

fn expect_picked(rt: &impl Abort, picked: &Picked, expected: Expected<'_>) {
    match (picked, expected) {
        (Picked::Rows { bottom, .. }, _) => expect_rows(rt, bottom, expected),
        (Picked::NoRow(cell), Expected::NoRow(stuck)) => assert!(rt; *cell == stuck),
        _ => assert!(rt; false, "the other answer"),
    }
}

fn expect_over(
    rt: &impl Abort,
    alloc: Global,
    problem: &Problem,
    targets: [(i32, i32); 2],
    expected: Expected<'_>,
) -> Result<(), NoMemory> {
    let [first, second] = targets;
    let picked = pick_bottom(rt, alloc, problem, near(first), near(second))?;
    expect_picked(rt, &picked, expected);
    drop(picked);
    Ok(())
}

/// Both cells are picked so, with these targets.
fn expect_pick(
    rt: &impl Abort,
    alloc: Global,
    design: Design<'_>,
    targets: [(i32, i32); 2],
    expected: Expected<'_>,
) -> Result<(), Fail> {
    let problem = problem_of(rt, alloc, design)?;
    let done = expect_over(rt, alloc, &problem, targets, expected);
    drop(problem);
    Ok(done?)
}

#[test]
fn full_rows(rt: HostRuntime) -> Result<(), Fail> {
    let targets = [(0, 5), (0, 5)];
    let expected = Expected::NoRow(C2);
    expect_pick(&rt, rt.alloc(), rows_of(8, 1, &[]), targets, expected)
}

#[test]
fn two_rows_as_near(rt: HostRuntime) -> Result<(), Fail> {
    let targets = [(0, 5), (0, 5)];
    let expected = Expected::Rows(&[&[C1, C2], &[]]);
    expect_pick(&rt, rt.alloc(), rows_of(20, 2, &[]), targets, expected)
}

#[test]
fn order_in_a_row(rt: HostRuntime) -> Result<(), Fail> {
    let targets = [(9, 8), (-3, 7)];
    let expected = Expected::Rows(&[&[], &[C2, C1]]);
    expect_pick(&rt, rt.alloc(), rows_of(20, 2, &[]), targets, expected)
}

#[test]
fn next_row_below(rt: HostRuntime) -> Result<(), Fail> {
    let targets = [(0, 10), (30, 10)];
    let expected = Expected::Rows(&[&[C2], &[C1], &[], &[]]);
    expect_pick(&rt, rt.alloc(), rows_of(8, 4, &[]), targets, expected)
}

#[test]
fn row_beyond_the_last(rt: HostRuntime) -> Result<(), Fail> {
    let targets = [(0, 30), (0, 33)];
    let expected = Expected::Rows(&[&[], &[], &[C2], &[C1]]);
    expect_pick(&rt, rt.alloc(), rows_of(8, 4, &[]), targets, expected)
}

// Two rows, each cut into a segment from 0 to 8 and one from 13 to 20.
const CUT: [Block; 1] = [Block {
    die: Die::Bottom,
    llx: 8,
    lly: 0,
    urx: 13,
    ury: 20,
}];

#[test]
fn segments_of_one_row_as_near(rt: HostRuntime) -> Result<(), Fail> {
    let targets = [(8, 10), (8, 10)];
    let expected = Expected::Rows(&[&[], &[], &[C1], &[C2]]);
    expect_pick(&rt, rt.alloc(), rows_of(20, 2, &CUT), targets, expected)
}

#[test]
fn segment_of_the_row_below_as_near_as_one_beside(rt: HostRuntime) -> Result<(), Fail> {
    let targets = [(13, 10), (13, 10)];
    let expected = Expected::Rows(&[&[], &[C2], &[], &[C1]]);
    expect_pick(&rt, rt.alloc(), rows_of(20, 2, &CUT), targets, expected)
}

// A hole in both rows.
fn hole(llx: u32, urx: u32) -> Block {
    Block {
        die: Die::Bottom,
        llx,
        lly: 0,
        urx,
        ury: 20,
    }
}

// Two rows, each of seven segments: four of length 6, from 0, 13, 24 and 37, and between them three of length 3, too short for a cell.
fn holes() -> [Block; 7] {
    [
        hole(6, 7),
        hole(10, 13),
        hole(19, 20),
        hole(23, 24),
        hole(30, 31),
        hole(34, 37),
        hole(43, 50),
    ]
}

// Both cells' target, and the segments that they take.
const BESIDE: [((i32, i32), (u32, u32)); 13] = [
    ((-20, 0), (0, 7)),
    ((60, 0), (6, 13)),
    ((7, 0), (0, 2)),
    ((8, 0), (2, 0)),
    ((13, 0), (2, 9)),
    ((19, 0), (2, 4)),
    ((22, 0), (4, 2)),
    ((8, 5), (2, 9)),
    ((19, 10), (9, 11)),
    ((7, 15), (7, 9)),
    ((33, 15), (13, 11)),
    ((60, 15), (13, 6)),
    ((-20, 15), (7, 0)),
];

#[test]
fn segments_beside_the_target(rt: HostRuntime) -> Result<(), Fail> {
    let holes = holes();
    for (target, (first, second)) in BESIDE {
        let expected = Expected::Alone(first, second);
        expect_pick(
            &rt,
            rt.alloc(),
            rows_of(50, 2, &holes),
            [target, target],
            expected,
        )?;
    }
    Ok(())
}
