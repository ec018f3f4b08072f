//! What no clause says: that memory is enough, and that the clauses mean what was meant.

ghost use Rattle.std.specs.Prelude.{◌<◌, length};
ghost use Rattle.fp_gains.specs.Gained.{IsGainsOf};

use crate::Gains;
use crate::tournament::{Leader, Tournament};
use fp_base::{CellId, Die, LibId, TechId};
use fp_netlist::{Problem, ProblemBuilder};
use fp_place::{Caps, cut};
use fp_tech::{BuildFault, DieSpec, Dies, Frame, TechBook, TermSpec};
use std::alloc::Global;
use std::process::Abort;
use std::test::Fail;

/// Adds a technology with one library cell, of area 10.
fn fill_book(rt: &impl Abort, book: &mut TechBook) -> Result<LibId, BuildFault> {
    let tech = book.add_tech(b"TA")?;
    assert!(rt; tech.0 < book.techs());
    let inverter = book.add_lib(tech, b"INV", 2, 5)?;
    assert!(rt; tech.0 < book.techs());
    assert!(rt; book.has(tech, inverter));
    book.add_pin(tech, inverter, b"A", 1, 1)?;
    Ok(inverter)
}

/// Two rows on each die, which cells may fill, in a frame of area 400.
fn dies_with(rt: &impl Abort, alloc: Global, book: TechBook) -> Result<Dies, Fail> {
    let frame = Frame {
        llx: 0,
        lly: 0,
        urx: 20,
        ury: 20,
    };
    let terminal = TermSpec {
        size_x: 2,
        size_y: 2,
        spacing: 1,
        cost: 0,
    };
    assert!(rt; book.techs() == 1);
    let spec = DieSpec {
        percent: 100,
        tech: TechId(0),
        start_x: 0,
        start_y: 0,
        length: 20,
        height: 5,
        repeat: 2,
    };
    Ok(Dies::new(alloc, book, frame, spec, spec, terminal, &[])?)
}

/// Dies whose book has one library cell, and that cell.
fn small_dies(rt: &impl Abort, alloc: Global) -> Result<(Dies, LibId), Fail> {
    let mut book = TechBook::new(alloc);
    match fill_book(rt, &mut book) {
        Ok(lib) => Ok((dies_with(rt, alloc, book)?, lib)),
        Err(fault) => {
            drop(book);
            Err(Fail::new(fault))
        }
    }
}

/// Adds a cell for each of these names.
fn add_cells(builder: &mut ProblemBuilder, lib: LibId, names: &[u8]) -> Result<(), BuildFault> {
    for name in names {
        builder.add_inst(&[*name], lib)?;
    }
    Ok(())
}

/// Adds a net of these cells.
fn add_net(
    rt: &impl Abort,
    builder: &mut ProblemBuilder,
    name: u8,
    cells: &[u32],
) -> Result<(), BuildFault> {
    let net = builder.add_net(&[name])?;
    for cell in cells {
        assert!(rt; net.0 < builder.nets());
        assert!(rt; *cell < builder.cells());
        builder.connect(net, CellId(*cell), b"A")?;
    }
    Ok(())
}

/// Adds a cell for each of these names, and these nets.
fn fill(
    rt: &impl Abort,
    builder: &mut ProblemBuilder,
    lib: LibId,
    cells: &[u8],
    nets: &[&[u32]],
) -> Result<(), BuildFault> {
    add_cells(builder, lib, cells)?;
    let mut name = b'a';
    for net in nets {
        add_net(rt, builder, name, net)?;
        name = name.saturating_add(1);
    }
    Ok(())
}

/// A problem of a cell for each of these names, with these nets.
fn problem(rt: &impl Abort, alloc: Global, cells: &[u8], nets: &[&[u32]]) -> Result<Problem, Fail> {
    let (dies, lib) = small_dies(rt, alloc)?;
    let mut builder = ProblemBuilder::new(alloc, dies);
    match fill(rt, &mut builder, lib, cells, nets) {
        Ok(()) => Ok(builder.finish()?),
        Err(fault) => {
            drop(builder);
            Err(Fail::new(fault))
        }
    }
}

/// The cells have these gains.
fn has_gains(rt: &impl Abort, gains: &Gains, expected: &[i64]) {
    for (cell, gain) in expected.iter().enumerate() {
        assert!(rt; cell < 10);
        assert!(rt; cell < gains.dies().len());
        assert!(rt;
            gains.gain(CellId(cell as u32)) == *gain,
            "the gain of cell {cell}"
        );
    }
}

/// So many nets are cut.
fn has_cut(rt: &impl Abort, problem: &Problem, gains: &Gains, nets: u32) {
    assert!(rt; gains.dies().len() == problem.cells() as usize);
    assert_eq!(rt; cut(problem, gains.dies()), nets);
}

/// Moves these cells, one after another.
fn flip_all(rt: &impl Abort, problem: &Problem, gains: &mut Gains, cells: &[u32]) {
    for cell in cells {
        assert!(rt; (*cell as usize) < gains.dies().len());
        gains.flip(problem, CellId(*cell));
    }
}

/// Flips of cells, one after another, and after them how many nets are cut and each cell's gain.
type Step<'a> = (&'a [u32], u32, &'a [i64]);

/// From these dies on, each step's flips lead to its cut and its gains.
fn follow(
    rt: &impl Abort,
    alloc: Global,
    problem: &Problem,
    dies: &[Die],
    steps: &[Step],
) -> Result<(), Fail> {
    assert!(rt; dies.len() == problem.cells() as usize);
    let mut gains = Gains::new(alloc, problem, dies)?;
    for (flips, nets, expected) in steps {
        flip_all(rt, problem, &mut gains, flips);
        has_cut(rt, problem, &gains, *nets);
        has_gains(rt, &gains, expected);
    }
    drop(gains);
    Ok(())
}

#[test]
fn a_cell_that_comes_twice_in_a_net_counts_once(rt: HostRuntime) -> Result<(), Fail> {
    let problem = problem(&rt, rt.alloc(), b"uv", &[&[0, 0, 1]])?;
    let dies = [Die::Top, Die::Bottom];
    let steps: [Step; 2] = [(&[], 1, &[1, 1]), (&[0], 0, &[-1, -1])];
    let followed = follow(&rt, rt.alloc(), &problem, &dies, &steps);
    drop(problem);
    followed
}

#[test]
fn flips_change_gains_and_go_back(rt: HostRuntime) -> Result<(), Fail> {
    let nets: [&[u32]; 4] = [&[0, 1, 2], &[2, 3], &[0, 3], &[1, 1]];
    let problem = problem(&rt, rt.alloc(), b"uvwx", &nets)?;
    let dies = [Die::Top, Die::Top, Die::Bottom, Die::Bottom];
    let steps: [Step; 4] = [
        (&[], 2, &[1, 0, 0, 0]),
        (&[0], 1, &[-1, 1, -1, -2]),
        (&[1], 0, &[-2, -1, -2, -2]),
        (&[1, 0], 2, &[1, 0, 0, 0]),
    ];
    let followed = follow(&rt, rt.alloc(), &problem, &dies, &steps);
    drop(problem);
    followed
}

/// The best cell of all, and the best of those but the first.
fn best_two(problem: &Problem, gains: &mut Gains) -> [Option<CellId>; 2]
    requires of_problem { IsGainsOf problem.now gains.old }
    requires some { 0 < length gains.old.dies }
{
    let caps = Caps::empty();
    let best = gains.best_movable(problem, &caps);
    gains.lock(CellId(0));
    [best, gains.best_movable(problem, &caps)]
}

/// Of three cells in a row of two nets, the first is the best; once it is locked, the second is.
fn lock_the_best(rt: &impl Abort, alloc: Global, problem: &Problem) -> Result<(), Fail> {
    assert!(rt; problem.cells() == 3);
    let mut gains = Gains::new(alloc, problem, &[Die::Top, Die::Bottom, Die::Bottom])?;
    has_gains(rt, &gains, &[1, 0, -1]);
    let best = best_two(problem, &mut gains);
    drop(gains);
    assert_eq!(rt; best, [Some(CellId(0)), Some(CellId(1))]);
    Ok(())
}

#[test]
fn a_locked_cell_is_not_the_best(rt: HostRuntime) -> Result<(), Fail> {
    let problem = problem(&rt, rt.alloc(), b"uvw", &[&[0, 1], &[1, 2]])?;
    let locked = lock_the_best(&rt, rt.alloc(), &problem);
    drop(problem);
    locked
}

/// A cell with a key.
fn leader(cell: u32, key: u32) -> Option<Leader> {
    Some(Leader {
        cell: CellId(cell),
        key,
    })
}

#[test]
fn first_is_the_best_of_a_front(rt: HostRuntime) -> Result<(), Fail> {
    let cells = [CellId(2), CellId(5), CellId(3), CellId(8), CellId(9)];
    let keys = [4, 7, 7, 1, 9];
    let bests = [
        None,
        leader(2, 4),
        leader(5, 7),
        leader(3, 7),
        leader(3, 7),
        leader(9, 9),
    ];
    let mut tournament = Tournament::new(rt.alloc(), &cells)?;
    for (slot, key) in keys.iter().enumerate() {
        assert!(rt; slot < tournament.len());
        tournament.set(slot, *key);
    }
    for (count, best) in bests.iter().enumerate() {
        assert!(rt; count <= tournament.len());
        assert_eq!(rt; tournament.first(count), *best);
    }
    drop(tournament);
    Ok(())
}
