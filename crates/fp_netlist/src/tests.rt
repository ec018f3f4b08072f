//! What no clause says: that memory is enough, and that the clauses mean what was meant.

use crate::{Conn, Problem, ProblemBuilder};
use fp_base::{CellId, ConnId, Die, LibId, NetId, Point, TechId};
use fp_tech::{BuildFault, DieSpec, Dies, Frame, TechBook, TermSpec};
use std::alloc::Global;
use std::process::Abort;
use std::test::Fail;

/// Adds an inverter of that size with its pins at these places.
fn add_inverter(
    rt: &impl Abort,
    book: &mut TechBook,
    tech: TechId,
    size: (u32, u32),
    pins: &[(&[u8], u32, u32)],
) -> Result<LibId, BuildFault> {
    assert!(rt; tech.0 < book.techs() && size.0 > 0 && size.0 < 10);
    assert!(rt; size.1 > 0 && size.1 < 10);
    let inverter = book.add_lib(tech, b"INV", size.0, size.1)?;
    for (name, x, y) in pins {
        assert!(rt; *x < 10 && *y < 10);
        assert!(rt; tech.0 < book.techs());
        assert!(rt; book.has(tech, inverter));
        book.add_pin(tech, inverter, name, *x, *y)?;
    }
    Ok(inverter)
}

/// Two technologies with an inverter of two sizes, whose pins stand in different orders at
/// different places. The first one alone has a buffer, and its inverter alone a pin Z.
fn two_technologies(rt: &impl Abort, book: &mut TechBook) -> Result<(LibId, LibId), BuildFault> {
    let first = book.add_tech(b"TA")?;
    let second = book.add_tech(b"TB")?;
    let first_pins: [(&[u8], u32, u32); 3] = [(b"A", 0, 1), (b"Y", 2, 4), (b"Z", 1, 1)];
    let second_pins: [(&[u8], u32, u32); 2] = [(b"Y", 1, 5), (b"A", 0, 3)];
    let inverter = add_inverter(rt, book, first, (3, 5), &first_pins)?;
    let _same = add_inverter(rt, book, second, (2, 6), &second_pins)?;
    assert!(rt; first.0 < book.techs());
    let buffer = book.add_lib(first, b"BUF", 4, 4)?;
    Ok((inverter, buffer))
}

/// The dies of the two technologies.
fn two_dies(rt: &impl Abort, alloc: Global, book: TechBook) -> Result<Dies, Fail> {
    let frame = Frame {
        llx: 0,
        lly: 0,
        urx: 20,
        ury: 20,
    };
    let terminal = TermSpec {
        size_x: 2,
        size_y: 2,
        spacing: 1,
        cost: 0,
    };
    assert!(rt; book.techs() == 2);
    let top = DieSpec {
        percent: 80,
        tech: TechId(0),
        start_x: 0,
        start_y: 0,
        length: 20,
        height: 5,
        repeat: 3,
    };
    let bottom = DieSpec {
        tech: TechId(1),
        height: 6,
        ..top
    };
    Ok(Dies::new(alloc, book, frame, top, bottom, terminal, &[])?)
}

/// Two inverters and a net that joins them, one of them by two connections of a pin.
fn fill(builder: &mut ProblemBuilder, inverter: LibId) -> Result<(), BuildFault> {
    let first = builder.add_inst(b"u1", inverter)?;
    let second = builder.add_inst(b"u2", inverter)?;
    let net = builder.add_net(b"n1")?;
    builder.connect(net, first, b"Y")?;
    builder.connect(net, second, b"A")?;
    builder.connect(net, first, b"Y")?;
    match builder.connect(net, second, b"Z") {
        Err(BuildFault::Unknown) => Ok(()),
        Ok(_) => Err(BuildFault::Twice),
        Err(fault) => Err(fault),
    }
}

/// A builder over the two dies, with the two library cells.
fn small_builder(rt: &impl Abort, alloc: Global) -> Result<(ProblemBuilder, LibId, LibId), Fail> {
    let mut book = TechBook::new(alloc);
    match two_technologies(rt, &mut book) {
        Ok((inverter, buffer)) => {
            let dies = two_dies(rt, alloc, book)?;
            Ok((ProblemBuilder::new(alloc, dies), inverter, buffer))
        }
        Err(fault) => {
            drop(book);
            Err(Fail::new(fault))
        }
    }
}

/// Two inverters and a net that joins them.
fn small_problem(rt: &impl Abort, alloc: Global) -> Result<Problem, Fail> {
    let (mut builder, inverter, _buffer) = small_builder(rt, alloc)?;
    match fill(&mut builder, inverter) {
        Ok(()) => Ok(builder.finish()?),
        Err(fault) => {
            drop(builder);
            Err(Fail::new(fault))
        }
    }
}

#[test]
fn cells_of_two_technologies(rt: HostRuntime) -> Result<(), Fail> {
    let problem = small_problem(&rt, rt.alloc())?;
    names_and_links(&rt, &problem);
    sizes_and_offsets(&rt, &problem);
    drop(problem);
    Ok(())
}

#[test]
fn refusals_of_a_builder(rt: HostRuntime) -> Result<(), Fail> {
    let (mut builder, inverter, buffer) = small_builder(&rt, rt.alloc())?;
    let done = refusals(&rt, &mut builder, inverter, buffer);
    drop(builder);
    Ok(done?)
}

/// Fills a builder, and adds what it refuses.
fn refusals(
    rt: &impl Abort,
    builder: &mut ProblemBuilder,
    inverter: LibId,
    buffer: LibId,
) -> Result<(), BuildFault> {
    fill(builder, inverter)?;
    assert!(rt; builder.cell_named(b"u2") == Some(CellId(1)));
    assert!(rt; builder.net_named(b"n2").is_none());
    assert!(rt; builder.cells() == 2 && builder.nets() == 1 && builder.conns() == 3);
    assert!(rt; refused(builder, b"u3", buffer) == Some(BuildFault::Unknown));
    assert!(rt; refused(builder, b"u2", buffer) == Some(BuildFault::Twice));
    assert!(rt; builder.add_net(b"n1").err() == Some(BuildFault::Twice));
    Ok(())
}

/// Why a builder refuses a cell.
fn refused(builder: &mut ProblemBuilder, name: &[u8], lib: LibId) -> Option<BuildFault> {
    builder.add_inst(name, lib).err()
}

fn names_and_links(rt: &impl Abort, problem: &Problem) {
    assert!(rt; problem.cells() == 2 && problem.nets() == 1 && problem.conns() == 3);
    assert_eq!(rt; problem.cell_named(b"u2"), Some(CellId(1)));
    assert_eq!(rt; problem.cell_named(b"u3"), None);
    assert_eq!(rt; problem.net_named(b"n1"), Some(NetId(0)));
    assert_eq!(rt; problem.cell_name(CellId(0)), b"u1".as_slice());
    assert_eq!(rt; problem.net_name(NetId(0)), b"n1".as_slice());
    assert_eq!(rt; problem.lib_of(CellId(1)), LibId(0));
    assert_eq!(rt;
        problem.conns_of_net(NetId(0)),
        [ConnId(0), ConnId(1), ConnId(2)].as_slice()
    );
    assert_eq!(rt;
        problem.conns_of_cell(CellId(0)),
        [ConnId(0), ConnId(2)].as_slice()
    );
    assert_eq!(rt; problem.conns_of_cell(CellId(1)), [ConnId(1)].as_slice());
}

fn sizes_and_offsets(rt: &impl Abort, problem: &Problem) {
    assert!(rt; problem.cells() == 2 && problem.conns() == 3);
    let conn = Conn {
        cell: CellId(1),
        net: NetId(0),
        top_pin: 0,
        bottom_pin: 1,
    };
    assert_eq!(rt; problem.conn(ConnId(1)), conn);
    for (die, width, height, area, offset) in [
        (Die::Top, 3, 5, 15, Point { x: 2, y: 4 }),
        (Die::Bottom, 2, 6, 12, Point { x: 1, y: 5 }),
    ] {
        assert_eq!(rt; problem.width(CellId(1), die), width, "width");
        assert_eq!(rt; problem.height(CellId(1), die), height, "height");
        assert_eq!(rt; problem.area(CellId(1), die), area, "area");
        assert_eq!(rt; problem.offset(ConnId(2), die), offset, "offset");
    }
}
