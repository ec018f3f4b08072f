//! The problems of the tests.

ghost use Rattle.std.specs.Prelude.{IsTrue, All};
ghost use Rattle.fp_tech.specs.Plan.{IsBlock};

use fp_base::{Die, LibId, NetId, TechId};
use fp_netlist::{Problem, ProblemBuilder};
use fp_tech::{Block, BuildFault, DieSpec, Dies, DiesFault, Frame, TechBook, TermSpec};
use std::alloc::Global;
use std::process::Abort;
use std::test::Fail;

/// A library cell of height 10: its width, and the place of its pin.
#[derive(Clone, Copy)]
pub struct Shape {
    pub width: u32,
    pub pin_x: u32,
    pub pin_y: u32,
}

/// A cell: where it stands, and whether it is on the net.
#[derive(Clone, Copy)]
pub struct Standing {
    pub name: &'static [u8],
    pub die: Die,
    pub x: i64,
    pub joined: bool,
}

/// A problem of one library cell and one net: the library cell in each die's technology, rows of a length on both dies in a frame of 50
/// by 40, and the cells.
#[derive(Clone, Copy)]
pub struct Design<'a> {
    pub top: Shape,
    pub bottom: Shape,
    pub length: u32,
    pub repeat: u32,
    pub blocks: &'a [Block],
    pub cells: &'a [Standing],
}

fn add_lib(
    rt: &impl Abort,
    book: &mut TechBook,
    tech: TechId,
    shape: Shape,
) -> Result<LibId, BuildFault> {
    assert!(rt; tech.0 < book.techs());
    assert!(rt; shape.width > 0);
    assert!(rt; shape.width < 20);
    assert!(rt; shape.pin_x < 20);
    assert!(rt; shape.pin_y < 20);
    let lib = book.add_lib(tech, b"MC1", shape.width, 10)?;
    assert!(rt; tech.0 < book.techs());
    assert!(rt; book.has(tech, lib));
    book.add_pin(tech, lib, b"P1", shape.pin_x, shape.pin_y)?;
    Ok(lib)
}

/// Adds a technology for each die.
fn add_techs(
    rt: &impl Abort,
    book: &mut TechBook,
    top: Shape,
    bottom: Shape,
) -> Result<LibId, BuildFault> {
    let first = book.add_tech(b"TA")?;
    let second = book.add_tech(b"TB")?;
    let lib = add_lib(rt, book, first, top)?;
    add_lib(rt, book, second, bottom)?;
    Ok(lib)
}

fn are_blocks(blocks: &[Block]) -> bool
    ensures { IsTrue result → All IsBlock blocks.now }
{
    blocks.iter().all(|block| {
        block.llx < block.urx
            && block.lly < block.ury
            && block.urx <= 1 << 30
            && block.ury <= 1 << 30
    })
}

fn dies_of(
    rt: &impl Abort,
    alloc: Global,
    book: TechBook,
    length: u32,
    repeat: u32,
    blocks: &[Block],
) -> Result<Dies, DiesFault> {
    let frame = Frame {
        llx: 0,
        lly: 0,
        urx: 50,
        ury: 40,
    };
    let terminal = TermSpec {
        size_x: 2,
        size_y: 2,
        spacing: 1,
        cost: 0,
    };
    let top = DieSpec {
        percent: 100,
        tech: TechId(0),
        start_x: 0,
        start_y: 0,
        length,
        height: 10,
        repeat,
    };
    let bottom = DieSpec {
        tech: TechId(1),
        ..top
    };
    assert!(rt; book.techs() == 2);
    assert!(rt; 1 <= length);
    assert!(rt; length <= 50);
    assert!(rt; 1 <= repeat);
    assert!(rt; repeat <= 4);
    assert!(rt; are_blocks(blocks));
    assert!(rt; blocks.len() <= 1024);
    Dies::new(alloc, book, frame, top, bottom, terminal, blocks)
}

/// Adds a cell, and where it is on the net its connection.
fn add_cell(
    rt: &impl Abort,
    builder: &mut ProblemBuilder,
    lib: LibId,
    cell: &Standing,
) -> Result<(), BuildFault> {
    let added = builder.add_inst(cell.name, lib)?;
    if cell.joined {
        assert!(rt; builder.nets() > 0);
        assert!(rt; added.0 < builder.cells());
        builder.connect(NetId(0), added, b"P1")?;
    }
    Ok(())
}

/// Adds the net and the cells.
fn fill(
    rt: &impl Abort,
    builder: &mut ProblemBuilder,
    lib: LibId,
    cells: &[Standing],
) -> Result<(), BuildFault> {
    builder.add_net(b"N1")?;
    for cell in cells {
        add_cell(rt, builder, lib, cell)?;
    }
    Ok(())
}

/// The problem of a book that has the library cell.
fn problem_over(
    rt: &impl Abort,
    alloc: Global,
    book: TechBook,
    lib: LibId,
    design: Design<'_>,
) -> Result<Problem, Fail> {
    let dies = dies_of(rt, alloc, book, design.length, design.repeat, design.blocks)?;
    let mut builder = ProblemBuilder::new(alloc, dies);
    match fill(rt, &mut builder, lib, design.cells) {
        Ok(()) => Ok(builder.finish()?),
        Err(fault) => {
            drop(builder);
            Err(Fail::new(fault))
        }
    }
}

/// The problem of a design.
pub fn problem_of(rt: &impl Abort, alloc: Global, design: Design<'_>) -> Result<Problem, Fail> {
    let mut book = TechBook::new(alloc);
    match add_techs(rt, &mut book, design.top, design.bottom) {
        Ok(lib) => problem_over(rt, alloc, book, lib, design),
        Err(fault) => {
            drop(book);
            Err(Fail::new(fault))
        }
    }
}
