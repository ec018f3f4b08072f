//! What no clause says: that lengths are those that are meant.

ghost use Rattle.std.specs.Prelude.{◌≡◌, ◌≤◌, ◌^◌, IfOk, length};
ghost use Rattle.fp_place.specs.Places.{dies_of};
ghost use Rattle.fp_place.specs.Placed.{places_of, IsPlacementOf};
ghost use Rattle.fp_score.specs.Reaches.{AreNear};
ghost use Rattle.fp_score.specs.Terminals.{AreOnCuts};

use crate::reaches::Reaches;
use crate::{Axis, net_length, own_length, score};
use fp_base::{CellId, Die, LibId, NetId, NoMemory, Point, TechId};
use fp_netlist::{Problem, ProblemBuilder};
use fp_place::{Drawn, DrawnCell, DrawnTerminal, Judged, Placement, verdict};
use fp_tech::{BuildFault, DieSpec, Dies, Frame, TechBook, TermSpec};
use std::alloc::Global;
use std::process::Abort;
use std::test::Fail;

/// Two pins on the top die and one on the bottom die.
fn three_pins() -> Reaches
    ensures { AreNear result }
{
    Reaches::none()
        .with(Die::Top, Point { x: 1, y: 6 })
        .with(Die::Top, Point { x: 4, y: 2 })
        .with(Die::Bottom, Point { x: 5, y: 5 })
}

#[test]
fn half_perimeters_by_hand(rt: HostRuntime) {
    assert_eq!(rt; Reaches::none().length(), 0);
    assert_eq!(rt; three_pins().length(), 3 + 4);
    let terminal = Some(Point { x: 10, y: 5 });
    assert_eq!(rt; three_pins().with_terminal(terminal).length(), 9 + 4 + 5);
}

// A library cell of that width with its pin at that place.
fn add_lib(
    rt: &impl Abort,
    book: &mut TechBook,
    tech: TechId,
    width: u32,
    pin: u32,
) -> Result<LibId, BuildFault> {
    assert!(rt; tech.0 < book.techs());
    assert!(rt; width > 0 && width < 10);
    assert!(rt; pin < 10);
    let lib = book.add_lib(tech, b"MC1", width, 10)?;
    assert!(rt; tech.0 < book.techs());
    assert!(rt; book.has(tech, lib));
    book.add_pin(tech, lib, b"P1", pin, pin + 1)?;
    Ok(lib)
}

// Two technologies with a library cell, whose pin is at (1, 2) in the first and at (2, 3) in the second.
fn add_technologies(rt: &impl Abort, book: &mut TechBook) -> Result<LibId, BuildFault> {
    let first = book.add_tech(b"TA")?;
    let second = book.add_tech(b"TB")?;
    let lib = add_lib(rt, book, first, 4, 1)?;
    add_lib(rt, book, second, 5, 2)?;
    Ok(lib)
}

fn two_technologies(rt: &impl Abort, alloc: Global) -> Result<(TechBook, LibId), BuildFault> {
    let mut book = TechBook::new(alloc);
    match add_technologies(rt, &mut book) {
        Ok(lib) => Ok((book, lib)),
        Err(fault) => {
            drop(book);
            Err(fault)
        }
    }
}

// Two rows of 20 by 10 on each die, and terminals of this cost.
fn two_dies(rt: &impl Abort, alloc: Global, book: TechBook, cost: u32) -> Result<Dies, Fail>
    requires { cost ≤ 2 ^ 30 }
{
    let frame = Frame {
        llx: 0,
        lly: 0,
        urx: 20,
        ury: 20,
    };
    let terminal = TermSpec {
        size_x: 2,
        size_y: 2,
        spacing: 1,
        cost,
    };
    let top = DieSpec {
        percent: 100,
        tech: TechId(0),
        start_x: 0,
        start_y: 0,
        length: 20,
        height: 10,
        repeat: 2,
    };
    let bottom = DieSpec {
        tech: TechId(1),
        ..top
    };
    assert!(rt; book.techs() == 2);
    Ok(Dies::new(alloc, book, frame, top, bottom, terminal, &[])?)
}

// Two cells, a net that joins them, and one that joins the first cell to itself.
fn fill(builder: &mut ProblemBuilder, lib: LibId) -> Result<(), BuildFault> {
    let first = builder.add_inst(b"C1", lib)?;
    let second = builder.add_inst(b"C2", lib)?;
    let net = builder.add_net(b"N1")?;
    let own = builder.add_net(b"N2")?;
    builder.connect(net, first, b"P1")?;
    builder.connect(net, second, b"P1")?;
    builder.connect(own, first, b"P1")?;
    builder.connect(own, first, b"P1")?;
    Ok(())
}

fn two_cells(rt: &impl Abort, alloc: Global, cost: u32) -> Result<Problem, Fail>
    requires { cost ≤ 2 ^ 30 }
{
    let (book, lib) = two_technologies(rt, alloc)?;
    let dies = two_dies(rt, alloc, book, cost)?;
    let mut builder = ProblemBuilder::new(alloc, dies);
    match fill(&mut builder, lib) {
        Ok(()) => Ok(builder.finish()?),
        Err(fault) => {
            drop(builder);
            Err(Fail::new(fault))
        }
    }
}

// The first cell on the top die at the corner, the second one on the bottom die at x 6, and the terminal of the net that joins them.
fn draw(drawn: &mut Drawn) -> Result<(), NoMemory> {
    let cells = [(Die::Top, CellId(0), 0), (Die::Bottom, CellId(1), 6)];
    for (die, cell, x) in cells {
        drawn.push_cell(die, DrawnCell { cell, x, y: 0 })?;
    }
    let net = NetId(0);
    drawn.push_terminal(DrawnTerminal { net, x: 4, y: 4 })
}

fn drawing(alloc: Global) -> Result<Drawn, NoMemory> {
    let mut drawn = Drawn::new(alloc);
    match draw(&mut drawn) {
        Ok(()) => Ok(drawn),
        Err(fault) => {
            drop(drawn);
            Err(fault)
        }
    }
}

// The placement of a drawing that is legal.
fn legal(
    rt: &impl Abort,
    alloc: Global,
    problem: &Problem,
    drawn: &Drawn,
) -> Result<Placement, Fail>
    ensures of_problem { IfOk result (IsPlacementOf problem.now) }
    ensures on_cuts { IfOk result (λ placed. AreOnCuts problem.now (dies_of (places_of placed)) placed.terminals) }
{
    match verdict(alloc, problem, drawn)? {
        Judged::Legal(placement) => Ok(placement),
        Judged::Breaks { .. } => panic!(rt; "it is legal"),
    }
}

fn placed(rt: &impl Abort, alloc: Global, problem: &Problem) -> Result<Placement, Fail>
    ensures of_problem { IfOk result (IsPlacementOf problem.now) }
    ensures on_cuts { IfOk result (λ placed. AreOnCuts problem.now (dies_of (places_of placed)) placed.terminals) }
{
    let drawn = drawing(alloc)?;
    let placement = legal(rt, alloc, problem, &drawn);
    drop(drawn);
    placement
}

#[test]
fn own_lengths_by_hand(rt: HostRuntime) -> Result<(), Fail> {
    let problem = two_cells(&rt, rt.alloc(), 0)?;
    let done = own_lengths(&rt, rt.alloc(), &problem);
    drop(problem);
    done
}

fn own_lengths(rt: &impl Abort, alloc: Global, problem: &Problem) -> Result<(), Fail> {
    let placement = placed(rt, alloc, problem)?;
    assert!(rt; problem.cells() == 2);
    expect_lengths(rt, problem, &placement);
    drop(placement);
    Ok(())
}

// The first cell's own lengths. Its neighbour's pin is at (8, 3).
fn expect_lengths(rt: &impl Abort, problem: &Problem, placement: &Placement)
    requires cells { length problem.now.cells ≡ 2 }
    requires of_problem { IsPlacementOf problem.now placement.now }
{
    let first = CellId(0);
    for (die, axis, at, length) in [
        (Die::Top, Axis::X, 0, 7),
        (Die::Bottom, Axis::X, 0, 6),
        (Die::Bottom, Axis::X, -4, 10),
        (Die::Bottom, Axis::X, 10, 4),
        (Die::Top, Axis::Y, 0, 1),
        (Die::Bottom, Axis::Y, 0, 0),
    ] {
        assert!(rt; at >= -10);
        assert!(rt; at <= 10);
        assert!(rt; own_length(problem, placement, first, die, axis, at) == length);
    }
}

// Of the two nets the one that joins both cells is cut and 10 long, with its terminal at (4, 4); the other one has length 0.
#[test]
fn a_terminal_costs_once_for_each_cut_net(rt: HostRuntime) -> Result<(), Fail> {
    for (cost, total) in [(0, 10), (7, 17)] {
        assert!(&rt; cost <= 7);
        assert_eq!(&rt; score_with(&rt, rt.alloc(), cost)?, (10, total));
    }
    Ok(())
}

// The length of the cut net and the score where terminals have this cost.
fn score_with(rt: &impl Abort, alloc: Global, cost: u32) -> Result<(u64, u64), Fail>
    requires { cost ≤ 7 }
{
    let problem = two_cells(rt, alloc, cost)?;
    let scored = scored(rt, alloc, &problem);
    drop(problem);
    scored
}

fn scored(rt: &impl Abort, alloc: Global, problem: &Problem) -> Result<(u64, u64), Fail> {
    let placement = placed(rt, alloc, problem)?;
    assert!(rt; problem.nets() == 2);
    let length = net_length(problem, &placement, NetId(0));
    let total = score(problem, &placement);
    drop(placement);
    Ok((length, total))
}
