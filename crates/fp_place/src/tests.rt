//! What no clause says: that memory is enough, and that the clauses mean what was meant.

ghost use Rattle.std.specs.Prelude.{◌≡◌, ◌≤◌, ◌∷◌, [], IfOk, length};
ghost use Rattle.fp_place.specs.Drawing.{IsCellInRange, IsTerminalInRange};

use crate::{
    Caps, Drawn, DrawnCell, DrawnTerminal, Judged, Lanes, Placement, Spot, Subject, cut, is_cut,
    keeps_rules, verdict,
};
use fp_base::{Bottom, CellId, Die, LibId, NetId, NoMemory, Point, SegId, TechId, Top};
use fp_netlist::{Problem, ProblemBuilder};
use fp_tech::{Block, BuildFault, DieSpec, Dies, Frame, TechBook, TermSpec};
use std::alloc::Global;
use std::mem::drop;
use std::process::Abort;
use std::test::Fail;

/// A technology with one library cell of 2 by 5.
fn fill_book(rt: &impl Abort, book: &mut TechBook) -> Result<LibId, BuildFault> {
    let tech = book.add_tech(b"TA")?;
    assert!(rt; tech.0 < book.techs());
    let inverter = book.add_lib(tech, b"INV", 2, 5)?;
    assert!(rt; tech.0 < book.techs());
    assert!(rt; book.has(tech, inverter));
    book.add_pin(tech, inverter, b"A", 1, 1)?;
    Ok(inverter)
}

/// Two rows on the top die and one on the bottom die, of which cells may take 7 percent, in a frame of area 400. A blockage covers the
/// places from 8 to 11 of the top die's lower row.
fn dies_of(rt: &impl Abort, alloc: Global, book: TechBook) -> Result<Dies, Fail> {
    let frame = Frame {
        llx: 0,
        lly: 0,
        urx: 20,
        ury: 20,
    };
    let terminal = TermSpec {
        size_x: 2,
        size_y: 2,
        spacing: 1,
        cost: 0,
    };
    let block = Block {
        die: Die::Top,
        llx: 8,
        lly: 0,
        urx: 12,
        ury: 9,
    };
    assert!(rt; book.techs() == 1);
    let top = DieSpec {
        percent: 7,
        tech: TechId(0),
        start_x: 0,
        start_y: 4,
        length: 20,
        height: 5,
        repeat: 2,
    };
    let bottom = DieSpec { repeat: 1, ..top };
    Ok(Dies::new(alloc, book, frame, top, bottom, terminal, &[block])?)
}

/// Three cells, a net that joins the first two, and one that joins the first and the last.
fn fill(builder: &mut ProblemBuilder, inverter: LibId) -> Result<(), BuildFault> {
    let first = builder.add_inst(b"u1", inverter)?;
    let second = builder.add_inst(b"u2", inverter)?;
    let third = builder.add_inst(b"u3", inverter)?;
    let net = builder.add_net(b"n1")?;
    let other = builder.add_net(b"n2")?;
    builder.connect(net, first, b"A")?;
    builder.connect(net, second, b"A")?;
    builder.connect(other, first, b"A")?;
    builder.connect(other, third, b"A")?;
    Ok(())
}

fn problem_of(alloc: Global, dies: Dies, inverter: LibId) -> Result<Problem, Fail> {
    let mut builder = ProblemBuilder::new(alloc, dies);
    match fill(&mut builder, inverter) {
        Ok(()) => Ok(builder.finish()?),
        Err(fault) => {
            drop(builder);
            Err(Fail::new(fault))
        }
    }
}

fn small_problem(rt: &impl Abort, alloc: Global) -> Result<Problem, Fail> {
    let mut book = TechBook::new(alloc);
    match fill_book(rt, &mut book) {
        Ok(inverter) => problem_of(alloc, dies_of(rt, alloc, book)?, inverter),
        Err(fault) => {
            drop(book);
            Err(Fail::new(fault))
        }
    }
}

/// The last cell and the first one on the upper of the top die's rows, which is its third segment.
fn top_lanes(alloc: Global) -> Result<Lanes<Top>, NoMemory>
    ensures { IfOk result (λ lanes. lanes ≡ [] ∷ [] ∷ (record { 0 = 2 } ∷ record { 0 = 0 } ∷ []) ∷ []) }
{
    let mut lanes = Lanes::new(alloc, 3)?;
    lanes.push(SegId::new(2), CellId(2))?;
    lanes.push(SegId::new(2), CellId(0))?;
    Ok(lanes)
}

/// The second cell on the bottom die's row.
fn bottom_lanes(alloc: Global) -> Result<Lanes<Bottom>, NoMemory>
    ensures { IfOk result (λ lanes. lanes ≡ (record { 0 = 1 } ∷ []) ∷ []) }
{
    let mut lanes = Lanes::new(alloc, 1)?;
    lanes.push(SegId::new(0), CellId(1))?;
    Ok(lanes)
}

/// The placement of these lanes, with the x of each cell.
fn placed(rt: &impl Abort, alloc: Global, problem: &Problem) -> Result<Placement, NoMemory>
    ensures spots { IfOk result (λ p. length p.spots ≡ 3) }
    ensures top { IfOk result (λ p. length p.top ≡ 3) }
    ensures terminals { IfOk result (λ p. length p.terminals ≡ 2) }
{
    let top = top_lanes(alloc)?;
    let bottom = bottom_lanes(alloc)?;
    assert!(rt; problem.cells() == 3);
    assert!(rt; problem.nets() == 2);
    assert!(rt; problem.dies().segments_of(Die::Top).len() == 3);
    assert!(rt; problem.dies().segments_of(Die::Bottom).len() == 1);
    Placement::build(alloc, problem, top, bottom, &[7, 3, 1])
}

#[test]
fn spots_and_terminals(rt: HostRuntime) -> Result<(), Fail> {
    let problem = small_problem(&rt, rt.alloc())?;
    let done = build_and_read(&rt, rt.alloc(), &problem);
    drop(problem);
    Ok(done?)
}

fn build_and_read(rt: &impl Abort, alloc: Global, problem: &Problem) -> Result<(), NoMemory> {
    let mut placement = placed(rt, alloc, problem)?;
    expect_spots(rt, &placement);
    let centre = Some(Point { x: 5, y: 6 });
    assert!(rt; with_terminal(&mut placement, centre) == centre);
    drop(placement);
    Ok(())
}

fn expect_spots(rt: &impl Abort, placement: &Placement)
    requires spots { length placement.now.spots ≡ 3 }
    requires top { length placement.now.top ≡ 3 }
{
    for (cell, (die, segment, rank, x, y)) in [
        (Die::Top, 2, 1, 7, 9),
        (Die::Bottom, 0, 0, 3, 4),
        (Die::Top, 2, 0, 1, 9),
    ]
    .iter()
    .enumerate()
    {
        let spot = placement.spot(CellId(cell as u32));
        assert!(rt; spot.die == *die && spot.segment == *segment && spot.rank == *rank);
        assert!(rt; spot.x == *x && spot.y == *y);
    }
    assert!(rt; placement.lane(Die::Top, 2) == [CellId(2), CellId(0)].as_slice());
}

/// The last net's terminal after it was set.
fn with_terminal(placement: &mut Placement, centre: Option<Point>) -> Option<Point>
    requires { length placement.old.terminals ≡ 2 }
{
    placement.set_terminal(NetId(1), centre);
    placement.terminal(NetId(1))
}

#[test]
fn lanes_of_a_die(rt: HostRuntime) -> Result<(), Fail> {
    let lanes = top_lanes(rt.alloc())?;
    assert!(&rt; lanes.len() == 3);
    assert!(&rt; lanes.lane(SegId::new(0)).len() == 0);
    assert!(&rt; lanes.lane(SegId::new(2)) == [CellId(2), CellId(0)].as_slice());
    Ok(())
}

#[test]
fn room_and_cuts(rt: HostRuntime) -> Result<(), Fail> {
    let problem = small_problem(&rt, rt.alloc())?;
    assert!(&rt; problem.cells() == 3);
    assert!(&rt; problem.nets() == 2);
    expect_cuts(&rt, &problem);
    expect_room(&rt, &problem);
    drop(problem);
    Ok(())
}

fn expect_cuts(rt: &impl Abort, problem: &Problem)
    requires cells { length problem.now.cells ≡ 3 }
    requires nets { length problem.now.nets ≡ 2 }
{
    let dies = [Die::Top, Die::Bottom, Die::Top];
    assert!(rt; is_cut(problem, &dies, NetId(0)));
    assert!(rt; !is_cut(problem, &dies, NetId(1)));
    assert!(rt; cut(problem, &dies) == 1);
    assert!(rt; keeps_rules(problem, &dies));
    let crowded = [Die::Top, Die::Top, Die::Top];
    assert!(rt;
        !keeps_rules(problem, &crowded),
        "30 of 400 is above 7 percent"
    );
}

fn expect_room(rt: &impl Abort, problem: &Problem)
    requires { length problem.now.cells ≡ 3 }
{
    assert!(rt;
        first_without_room(problem, Die::Top) == Some(2),
        "30 of 400 is above 7 percent"
    );
    assert!(rt; has_room_again(problem));
}

/// The first of the three cells for which a die has no room.
fn first_without_room(problem: &Problem, die: Die) -> Option<u32>
    requires { length problem.now.cells ≡ 3 }
{
    let mut caps = Caps::empty();
    for cell in 0..3 {
        if !caps.room(problem, CellId(cell), die) {
            return Some(cell);
        }
        caps.add(problem, CellId(cell), die);
    }
    None
}

/// Whether there is room for a cell that was added and taken away.
fn has_room_again(problem: &Problem) -> bool
    requires { length problem.now.cells ≡ 3 }
{
    let mut caps = Caps::empty();
    if !caps.room(problem, CellId(0), Die::Bottom) {
        return false;
    }
    caps.add(problem, CellId(0), Die::Bottom);
    caps.take(problem, CellId(0), Die::Bottom);
    caps.room(problem, CellId(0), Die::Bottom)
}

#[test]
fn lines_of_a_drawing(rt: HostRuntime) -> Result<(), Fail> {
    let cell = DrawnCell {
        cell: CellId(2),
        x: 0,
        y: 1 << 30,
    };
    let terminal = DrawnTerminal {
        net: NetId(1),
        x: 4,
        y: 5,
    };
    let drawn = drawing(rt.alloc(), cell, terminal)?;
    assert!(&rt; drawn.cells(Die::Top).len() == 0);
    assert!(&rt; drawn.cells(Die::Bottom) == [cell].as_slice());
    assert!(&rt; drawn.terminals() == [terminal].as_slice());
    drop(drawn);
    Ok(())
}

fn drawing(alloc: Global, cell: DrawnCell, terminal: DrawnTerminal) -> Result<Drawn, NoMemory>
    requires cell { IsCellInRange cell }
    requires terminal { IsTerminalInRange terminal }
{
    let mut drawn = Drawn::new(alloc);
    drawn.push_cell(Die::Bottom, cell)?;
    drawn.push_terminal(terminal)?;
    Ok(drawn)
}

#[test]
fn a_cell_beside_a_blockage_is_legal(rt: HostRuntime) -> Result<(), Fail> {
    let problem = small_problem(&rt, rt.alloc())?;
    let done = expect_verdicts(&rt, rt.alloc(), &problem);
    drop(problem);
    Ok(done?)
}

/// The lower row of the top die has a segment from 0 to 8 and one from 12 to 20.
fn expect_verdicts(rt: &impl Abort, alloc: Global, problem: &Problem) -> Result<(), NoMemory> {
    let blocked = Err((2, Subject::Cell(CellId(0))));
    assert!(rt; problem.cells() == 3);
    for (x, wanted) in [
        (2, Ok(0)),
        (6, Ok(0)),
        (7, blocked),
        (10, blocked),
        (11, blocked),
        (12, Ok(1)),
        (18, Ok(1)),
        (19, blocked),
    ] {
        let told = segment_at(alloc, problem, x)?;
        assert!(rt; told == wanted, "at {x}");
    }
    Ok(())
}

/// The segment of the first cell where it stands at this x on the lower row, or the rule that is broken and its first subject.
fn segment_at(
    alloc: Global,
    problem: &Problem,
    x: u8,
) -> Result<Result<u32, (u8, Subject)>, NoMemory>
    requires { length problem.now.cells ≡ 3 }
{
    let drawn = drawn_at(alloc, x)?;
    let judged = verdict(alloc, problem, &drawn);
    drop(drawn);
    match judged? {
        Judged::Legal(placement) => Ok(Ok(first_segment(&placement))),
        Judged::Breaks { rule, subject } => Ok(Err((rule, subject))),
    }
}

fn first_segment(placement: &Placement) -> u32
    requires { 1 ≤ length placement.now.spots }
{
    placement.spot(CellId(0)).segment
}

/// The first cell at this x on the top die's lower row, the last one on its upper row, and the second one on the bottom die, with a
/// terminal for the net that joins the dies.
fn drawn_at(alloc: Global, x: u8) -> Result<Drawn, NoMemory> {
    let mut drawn = Drawn::new(alloc);
    push(&mut drawn, Die::Top, 0, x, 4)?;
    push(&mut drawn, Die::Bottom, 1, 3, 4)?;
    push(&mut drawn, Die::Top, 2, 0, 9)?;
    drawn.push_terminal(DrawnTerminal {
        net: NetId(0),
        x: 5,
        y: 6,
    })?;
    Ok(drawn)
}

fn push(drawn: &mut Drawn, die: Die, cell: u32, x: u8, y: u8) -> Result<(), NoMemory> {
    let line = DrawnCell {
        cell: CellId(cell),
        x: i64::from(x),
        y: i64::from(y),
    };
    drawn.push_cell(die, line)
}
