//! What no clause says: that memory is enough, and that the clauses mean what was meant.

use crate::settle;
use fp_base::{CellId, Die, LibId, TechId};
use fp_netlist::{Problem, ProblemBuilder};
use fp_place::keeps_rules;
use fp_tech::{BuildFault, DieSpec, Dies, Frame, TechBook, TermSpec};
use std::alloc::Global;
use std::process::Abort;
use std::test::Fail;

/// Adds a technology with one library cell, of this width and 10 high.
fn add_tech(
    rt: &impl Abort,
    book: &mut TechBook,
    name: &[u8],
    width: u32,
) -> Result<LibId, BuildFault> {
    assert!(rt; width > 0 && width < 10);
    let tech = book.add_tech(name)?;
    assert!(rt; tech.0 < book.techs());
    let lib = book.add_lib(tech, b"MC1", width, 10)?;
    assert!(rt; tech.0 < book.techs());
    assert!(rt; book.has(tech, lib));
    book.add_pin(tech, lib, b"P1", 1, 1)?;
    Ok(lib)
}

/// Adds two technologies, with a library cell of area 40 and of area 50.
fn fill_book(rt: &impl Abort, book: &mut TechBook) -> Result<LibId, BuildFault> {
    let lib = add_tech(rt, book, b"TA", 4)?;
    add_tech(rt, book, b"TB", 5)?;
    Ok(lib)
}

/// Two rows on each die in a frame of area 400, with a percent for each die.
fn dies_with(
    rt: &impl Abort,
    alloc: Global,
    book: TechBook,
    percents: (u32, u32),
) -> Result<Dies, Fail> {
    assert!(rt; percents.0 <= 100);
    assert!(rt; percents.1 <= 100);
    let frame = Frame {
        llx: 0,
        lly: 0,
        urx: 20,
        ury: 20,
    };
    let terminal = TermSpec {
        size_x: 2,
        size_y: 2,
        spacing: 1,
        cost: 0,
    };
    assert!(rt; book.techs() == 2);
    let top = DieSpec {
        percent: percents.0,
        tech: TechId(0),
        start_x: 0,
        start_y: 0,
        length: 20,
        height: 10,
        repeat: 2,
    };
    let bottom = DieSpec {
        percent: percents.1,
        tech: TechId(1),
        ..top
    };
    Ok(Dies::new(alloc, book, frame, top, bottom, terminal, &[])?)
}

/// Dies with these percents, whose book has one library cell, and that cell.
fn small_dies(rt: &impl Abort, alloc: Global, percents: (u32, u32)) -> Result<(Dies, LibId), Fail> {
    let mut book = TechBook::new(alloc);
    match fill_book(rt, &mut book) {
        Ok(lib) => Ok((dies_with(rt, alloc, book, percents)?, lib)),
        Err(fault) => {
            drop(book);
            Err(Fail::new(fault))
        }
    }
}

/// Adds a cell for each of these names.
fn add_cells(
    builder: &mut ProblemBuilder,
    lib: LibId,
    names: &[[u8; 1]],
) -> Result<(), BuildFault> {
    for name in names {
        builder.add_inst(name, lib)?;
    }
    Ok(())
}

/// Adds a net of two cells.
fn add_net(
    rt: &impl Abort,
    builder: &mut ProblemBuilder,
    name: u8,
    cells: (u32, u32),
) -> Result<(), BuildFault> {
    let net = builder.add_net(&[name])?;
    for cell in [cells.0, cells.1] {
        assert!(rt; net.0 < builder.nets());
        assert!(rt; cell < builder.cells());
        builder.connect(net, CellId(cell), b"P1")?;
    }
    Ok(())
}

/// Adds a cell for each of these names, and these nets.
fn fill(
    rt: &impl Abort,
    builder: &mut ProblemBuilder,
    lib: LibId,
    names: &[[u8; 1]],
    nets: &[(u32, u32)],
) -> Result<(), BuildFault> {
    add_cells(builder, lib, names)?;
    let mut name = b'a';
    for net in nets {
        add_net(rt, builder, name, *net)?;
        name = name.saturating_add(1);
    }
    Ok(())
}

/// A problem of a cell for each of these names, with these nets and percents.
fn problem(
    rt: &impl Abort,
    alloc: Global,
    names: &[[u8; 1]],
    nets: &[(u32, u32)],
    percents: (u32, u32),
) -> Result<Problem, Fail> {
    let (dies, lib) = small_dies(rt, alloc, percents)?;
    let mut builder = ProblemBuilder::new(alloc, dies);
    match fill(rt, &mut builder, lib, names, nets) {
        Ok(()) => Ok(builder.finish()?),
        Err(fault) => {
            drop(builder);
            Err(Fail::new(fault))
        }
    }
}

/// These dies settle so.
fn settles(
    rt: &impl Abort,
    alloc: Global,
    problem: &Problem,
    from: &[Die],
    expected: &[Die],
) -> Result<(), Fail> {
    assert!(rt; from.len() == problem.cells() as usize);
    assert!(rt; keeps_rules(problem, from));
    let dies = settle(alloc, problem, from)?;
    assert_eq!(rt; dies.as_slice(), expected);
    Ok(())
}

#[test]
fn cells_of_two_nets_join_where_most_of_them_are(rt: HostRuntime) -> Result<(), Fail> {
    let problem = problem(
        &rt,
        rt.alloc(),
        &[*b"u", *b"v", *b"w"],
        &[(0, 1), (1, 2)],
        (100, 100),
    )?;
    let from = [Die::Top, Die::Bottom, Die::Bottom];
    let settled = settles(&rt, rt.alloc(), &problem, &from, &[Die::Bottom; 3]);
    drop(problem);
    settled
}

/// Two cells of one net, on these dies, join on a die.
fn join(
    rt: &impl Abort,
    alloc: Global,
    percents: (u32, u32),
    from: (Die, Die),
    joined: Die,
) -> Result<(), Fail> {
    let problem = problem(rt, alloc, &[*b"u", *b"v"], &[(0, 1)], percents)?;
    let settled = settles(rt, alloc, &problem, &[from.0, from.1], &[joined, joined]);
    drop(problem);
    settled
}

#[test]
fn two_cells_join_on_the_die_with_room(rt: HostRuntime) -> Result<(), Fail> {
    for (percents, from, joined) in [
        ((100, 100), (Die::Top, Die::Bottom), Die::Bottom),
        ((10, 50), (Die::Top, Die::Bottom), Die::Bottom),
        ((10, 50), (Die::Bottom, Die::Top), Die::Bottom),
        ((100, 13), (Die::Bottom, Die::Top), Die::Top),
    ] {
        join(&rt, rt.alloc(), percents, from, joined)?;
    }
    Ok(())
}
