//! What no clause says: that memory is enough, and that the clauses mean what was meant.

ghost use Rattle.std.specs.Prelude.{◌≡◌, ◌≤◌, ◌^◌, IsTrue, All, length};
ghost use Rattle.fp_tech.specs.Plan.{IsBlock, IsDieSpec};

use crate::{SeedFault, seed};
use fp_base::{CellId, Die, LibId, NetId, Point, TechId};
use fp_netlist::{Problem, ProblemBuilder};
use fp_place::Placement;
use fp_score::Stop;
use fp_tech::{Block, BuildFault, DieSpec, Dies, Frame, TechBook, TermSpec};
use std::alloc::Global;
use std::mem::drop;
use std::process::Abort;
use std::test::Fail;

/// One row of 4 by 5 at the origin, of the first technology.
const SHORT_ROW: DieSpec = DieSpec {
    percent: 80,
    tech: TechId(0),
    start_x: 0,
    start_y: 0,
    length: 4,
    height: 5,
    repeat: 1,
};

/// Two rows of 20 by 10 at the origin, of which cells of the first technology may take 10 percent.
const WIDE_ROWS: DieSpec = DieSpec {
    percent: 10,
    length: 20,
    height: 10,
    repeat: 2,
    ..SHORT_ROW
};

/// The library cells, each with a pin: an inverter of 3 by 5 and of 2 by 6 in the other technology, a buffer of 4 by 4 and of 2 by 7, and
/// a macro of 4 by 10 and of 5 by 10.
#[derive(Clone, Copy)]
struct Libs {
    inverter: LibId,
    buffer: LibId,
    macro_cell: LibId,
}

/// Adds a library cell with a pin.
fn add_lib(
    rt: &impl Abort,
    book: &mut TechBook,
    tech: TechId,
    name: &[u8],
    width: u32,
    height: u32,
) -> Result<LibId, BuildFault> {
    assert!(rt; tech.0 < book.techs());
    assert!(rt; width > 0 && width <= 10);
    assert!(rt; height > 0 && height <= 10);
    let lib = book.add_lib(tech, name, width, height)?;
    assert!(rt; tech.0 < book.techs());
    assert!(rt; book.has(tech, lib));
    book.add_pin(tech, lib, b"A", 1, 1)?;
    Ok(lib)
}

/// Adds both technologies.
fn fill_book(rt: &impl Abort, book: &mut TechBook) -> Result<Libs, BuildFault> {
    let first = book.add_tech(b"TA")?;
    let second = book.add_tech(b"TB")?;
    let inverter = add_lib(rt, book, first, b"INV", 3, 5)?;
    let buffer = add_lib(rt, book, first, b"BUF", 4, 4)?;
    let macro_cell = add_lib(rt, book, first, b"MC1", 4, 10)?;
    add_lib(rt, book, second, b"INV", 2, 6)?;
    add_lib(rt, book, second, b"BUF", 2, 7)?;
    add_lib(rt, book, second, b"MC1", 5, 10)?;
    Ok(Libs {
        inverter,
        buffer,
        macro_cell,
    })
}

fn technologies(rt: &impl Abort, alloc: Global) -> Result<(TechBook, Libs), Fail> {
    let mut book = TechBook::new(alloc);
    match fill_book(rt, &mut book) {
        Ok(libs) => Ok((book, libs)),
        Err(fault) => {
            drop(book);
            Err(Fail::new(fault))
        }
    }
}

/// Whether a die of a book with two technologies is within the input's ranges.
fn is_die(spec: DieSpec) -> bool
    ensures { IsTrue result → IsDieSpec 2 spec }
{
    let below = 1 << 30;
    spec.percent <= 100
        && spec.tech.0 < 2
        && spec.start_x <= below
        && spec.start_y <= below
        && 1 <= spec.length
        && spec.length <= below
        && 1 <= spec.height
        && spec.height <= below
        && 1 <= spec.repeat
        && spec.repeat <= 1 << 16
}

fn are_blocks(blocks: &[Block]) -> bool
    ensures { IsTrue result → All IsBlock blocks.now }
{
    blocks.iter().all(|block| {
        block.llx < block.urx
            && block.lly < block.ury
            && block.urx <= 1 << 30
            && block.ury <= 1 << 30
    })
}

/// Dies in a frame of area 400 with 36 slots.
fn two_dies(
    rt: &impl Abort,
    alloc: Global,
    book: TechBook,
    top: DieSpec,
    bottom: DieSpec,
    blocks: &[Block],
) -> Result<Dies, Fail> {
    let frame = Frame {
        llx: 0,
        lly: 0,
        urx: 20,
        ury: 20,
    };
    let terminal = TermSpec {
        size_x: 2,
        size_y: 2,
        spacing: 1,
        cost: 0,
    };
    assert!(rt; book.techs() == 2);
    assert!(rt; is_die(top));
    assert!(rt; is_die(bottom));
    assert!(rt; are_blocks(blocks));
    assert!(rt; blocks.len() <= 1024);
    Ok(Dies::new(alloc, book, frame, top, bottom, terminal, blocks)?)
}

/// An inverter and two more cells, a net that joins the first two, and one that joins the last two.
fn fill_three(
    builder: &mut ProblemBuilder,
    inverter: LibId,
    other: LibId,
) -> Result<(), BuildFault> {
    let first = builder.add_inst(b"u1", inverter)?;
    let second = builder.add_inst(b"u2", other)?;
    let third = builder.add_inst(b"u3", inverter)?;
    let net = builder.add_net(b"n1")?;
    let last = builder.add_net(b"n2")?;
    builder.connect(net, first, b"A")?;
    builder.connect(net, second, b"A")?;
    builder.connect(last, second, b"A")?;
    builder.connect(last, third, b"A")?;
    Ok(())
}

/// Two cells and a net that joins them.
fn fill_two(builder: &mut ProblemBuilder, lib: LibId) -> Result<(), BuildFault> {
    let first = builder.add_inst(b"C1", lib)?;
    let second = builder.add_inst(b"C2", lib)?;
    let net = builder.add_net(b"N1")?;
    builder.connect(net, first, b"A")?;
    builder.connect(net, second, b"A")?;
    Ok(())
}

fn finished(builder: ProblemBuilder, filled: Result<(), BuildFault>) -> Result<Problem, Fail> {
    match filled {
        Ok(()) => Ok(builder.finish()?),
        Err(fault) => {
            drop(builder);
            Err(Fail::new(fault))
        }
    }
}

/// Three cells over one row of 4 by 5 on the top die and one of a length by 6 on the bottom die. The second cell is a buffer, which is too
/// high for the bottom die, or an inverter as the others.
fn three_cells(
    rt: &impl Abort,
    alloc: Global,
    length: u32,
    with_buffer: bool,
) -> Result<Problem, Fail> {
    let bottom = DieSpec {
        tech: TechId(1),
        height: 6,
        length,
        ..SHORT_ROW
    };
    let (book, libs) = technologies(rt, alloc)?;
    let mut builder = ProblemBuilder::new(
        alloc,
        two_dies(rt, alloc, book, SHORT_ROW, bottom, &[])?,
    );
    let other = if with_buffer {
        libs.buffer
    } else {
        libs.inverter
    };
    let filled = fill_three(&mut builder, libs.inverter, other);
    finished(builder, filled)
}

/// Two cells of 4 by 10 and of 5 by 10 on the bottom die, over two rows of 20 by 10 on each die. The top die has area for one of them.
fn two_cells(rt: &impl Abort, alloc: Global, blocks: &[Block]) -> Result<Problem, Fail> {
    let bottom = DieSpec {
        tech: TechId(1),
        percent: 50,
        ..WIDE_ROWS
    };
    let (book, libs) = technologies(rt, alloc)?;
    let mut builder = ProblemBuilder::new(
        alloc,
        two_dies(rt, alloc, book, WIDE_ROWS, bottom, blocks)?,
    );
    let filled = fill_two(&mut builder, libs.macro_cell);
    finished(builder, filled)
}

/// Each cell stands on its die at its x, all at y 0, and each net has its terminal or none.
fn expect_placed(
    rt: &impl Abort,
    placement: &Placement,
    cells: &[(Die, i64)],
    terminals: &[Option<Point>],
)
    requires cells { length cells.now ≡ length placement.now.spots }
    requires nets { length terminals.now ≡ length placement.now.terminals }
    requires few_cells { length cells.now ≤ 2 ^ 18 }
    requires few_nets { length terminals.now ≤ 2 ^ 18 }
{
    for (cell, (die, x)) in cells.iter().enumerate() {
        let spot = placement.spot(CellId(cell as u32));
        assert!(rt; spot.die == *die && spot.x == *x && spot.y == 0);
    }
    for (net, terminal) in terminals.iter().enumerate() {
        assert!(rt; placement.terminal(NetId(net as u32)) == *terminal);
    }
}

/// The seed stands, with this first die.
fn expect_seed(
    rt: &impl Abort,
    alloc: Global,
    problem: &Problem,
    first: Die,
    cells: &[(Die, i64)],
    terminals: &[Option<Point>],
) {
    assert!(rt; problem.cells() as usize == cells.len());
    assert!(rt; problem.nets() as usize == terminals.len());
    match seed(alloc, problem) {
        Ok(seeded) => {
            assert!(rt; seeded.first == first);
            expect_placed(rt, &seeded.placement, cells, terminals);
            drop(seeded);
        }
        Err(_fault) => assert!(rt; false, "it stands"),
    }
}

/// Neither first fit stands.
fn expect_unfit(
    rt: &impl Abort,
    alloc: Global,
    problem: &Problem,
    top_first: Stop,
    bottom_first: Stop,
) {
    let expected = SeedFault::Unfit {
        top_first,
        bottom_first,
    };
    match seed(alloc, problem) {
        Ok(seeded) => {
            drop(seeded);
            assert!(rt; false, "neither stands");
        }
        Err(fault) => assert!(rt; fault == expected),
    }
}

#[test]
fn top_first_where_it_stands(rt: HostRuntime) -> Result<(), Fail> {
    let problem = three_cells(&rt, rt.alloc(), 4, false)?;
    let cells = [(Die::Top, 0), (Die::Bottom, 0), (Die::Bottom, 2)];
    let terminals = [Some(Point { x: 2, y: 2 }), None];
    expect_seed(&rt, rt.alloc(), &problem, Die::Top, &cells, &terminals);
    drop(problem);
    Ok(())
}

#[test]
fn bottom_first_where_that_stops(rt: HostRuntime) -> Result<(), Fail> {
    let problem = three_cells(&rt, rt.alloc(), 4, true)?;
    let cells = [(Die::Bottom, 0), (Die::Top, 0), (Die::Bottom, 2)];
    let terminals = [Some(Point { x: 2, y: 2 }), Some(Point { x: 5, y: 2 })];
    expect_seed(&rt, rt.alloc(), &problem, Die::Bottom, &cells, &terminals);
    drop(problem);
    Ok(())
}

#[test]
fn both_stop(rt: HostRuntime) -> Result<(), Fail> {
    let problem = three_cells(&rt, rt.alloc(), 3, true)?;
    let top_first = Stop::NoRoom(CellId(1));
    let bottom_first = Stop::NoRoom(CellId(2));
    expect_unfit(&rt, rt.alloc(), &problem, top_first, bottom_first);
    drop(problem);
    Ok(())
}

/// A blockage of the bottom die from the origin's row on.
fn blocked(llx: u32, urx: u32, ury: u32) -> Block {
    Block {
        die: Die::Bottom,
        llx,
        lly: 0,
        urx,
        ury,
    }
}

#[test]
fn behind_a_blockage(rt: HostRuntime) -> Result<(), Fail> {
    let problem = two_cells(&rt, rt.alloc(), &[blocked(3, 6, 10)])?;
    let cells = [(Die::Top, 0), (Die::Bottom, 6)];
    let terminals = [Some(Point { x: 2, y: 2 })];
    expect_seed(&rt, rt.alloc(), &problem, Die::Top, &cells, &terminals);
    drop(problem);
    Ok(())
}

#[test]
fn no_segment_on_the_bottom_die(rt: HostRuntime) -> Result<(), Fail> {
    let problem = two_cells(&rt, rt.alloc(), &[blocked(0, 20, 20)])?;
    let stop = Stop::NoRoom(CellId(1));
    expect_unfit(&rt, rt.alloc(), &problem, stop, stop);
    drop(problem);
    Ok(())
}
