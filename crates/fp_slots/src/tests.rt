//! What no clause says: that memory is enough, and that the clauses mean what was meant.

ghost use Rattle.std.specs.Prelude.{◌≡◌, ◌∷◌, [], IfOk, length};
ghost use Rattle.fp_place.specs.Placed.{IsPlacementOf};
ghost use Rattle.fp_tech.specs.Slots.{slot_count};

use crate::SlotCosts;
use fp_base::{Bottom, CellId, Die, LibId, NetId, NoMemory, SegId, TechId, Top};
use fp_match::{Costs, Matcher};
use fp_netlist::{Problem, ProblemBuilder};
use fp_place::{Lanes, Placement};
use fp_tech::{BuildFault, DieSpec, Dies, Frame, Grid, TechBook, TermSpec};
use std::alloc::Global;
use std::process::Abort;
use std::test::Fail;

// A technology with a library cell of this width, 10 high, whose pin is at (x, x + 1).
fn add_tech(
    rt: &impl Abort,
    book: &mut TechBook,
    name: &[u8],
    width: u32,
    x: u32,
) -> Result<LibId, BuildFault> {
    assert!(rt; width > 0 && width < 10);
    assert!(rt; x < 10);
    let tech = book.add_tech(name)?;
    assert!(rt; tech.0 < book.techs());
    let lib = book.add_lib(tech, b"MC1", width, 10)?;
    assert!(rt; tech.0 < book.techs());
    assert!(rt; book.has(tech, lib));
    book.add_pin(tech, lib, b"P1", x, x + 1)?;
    Ok(lib)
}

fn add_technologies(rt: &impl Abort, book: &mut TechBook) -> Result<LibId, BuildFault> {
    let lib = add_tech(rt, book, b"TA", 4, 1)?;
    add_tech(rt, book, b"TB", 5, 2)?;
    Ok(lib)
}

fn two_technologies(rt: &impl Abort, alloc: Global) -> Result<(TechBook, LibId), BuildFault> {
    let mut book = TechBook::new(alloc);
    match add_technologies(rt, &mut book) {
        Ok(lib) => Ok((book, lib)),
        Err(fault) => {
            drop(book);
            Err(fault)
        }
    }
}

// Two rows on each die, in a frame of 20 by 20 with 36 slots.
fn small_dies(rt: &impl Abort, alloc: Global, book: TechBook) -> Result<Dies, Fail> {
    let frame = Frame {
        llx: 0,
        lly: 0,
        urx: 20,
        ury: 20,
    };
    let terminal = TermSpec {
        size_x: 2,
        size_y: 2,
        spacing: 1,
        cost: 0,
    };
    let top = DieSpec {
        percent: 50,
        tech: TechId(0),
        start_x: 0,
        start_y: 0,
        length: 20,
        height: 10,
        repeat: 2,
    };
    let bottom = DieSpec {
        tech: TechId(1),
        ..top
    };
    assert!(rt; book.techs() == 2);
    Ok(Dies::new(alloc, book, frame, top, bottom, terminal, &[])?)
}

// Two cells, and a net that joins them.
fn fill(builder: &mut ProblemBuilder, lib: LibId) -> Result<(), BuildFault> {
    let first = builder.add_inst(b"C1", lib)?;
    let second = builder.add_inst(b"C2", lib)?;
    let net = builder.add_net(b"N1")?;
    builder.connect(net, first, b"P1")?;
    builder.connect(net, second, b"P1")?;
    Ok(())
}

fn small_problem(rt: &impl Abort, alloc: Global) -> Result<Problem, Fail> {
    let (book, lib) = two_technologies(rt, alloc)?;
    let dies = small_dies(rt, alloc, book)?;
    let mut builder = ProblemBuilder::new(alloc, dies);
    match fill(&mut builder, lib) {
        Ok(()) => Ok(builder.finish()?),
        Err(fault) => {
            drop(builder);
            Err(Fail::new(fault))
        }
    }
}

// The first cell on the top die's lower row.
fn top_lanes(alloc: Global) -> Result<Lanes<Top>, NoMemory>
    ensures { IfOk result (λ lanes. lanes ≡ (record { 0 = 0 } ∷ []) ∷ [] ∷ []) }
{
    let mut lanes = Lanes::new(alloc, 2)?;
    lanes.push(SegId::new(0), CellId(0))?;
    Ok(lanes)
}

// The second cell on the bottom die's lower row.
fn bottom_lanes(alloc: Global) -> Result<Lanes<Bottom>, NoMemory>
    ensures { IfOk result (λ lanes. lanes ≡ (record { 0 = 1 } ∷ []) ∷ [] ∷ []) }
{
    let mut lanes = Lanes::new(alloc, 2)?;
    lanes.push(SegId::new(0), CellId(1))?;
    Ok(lanes)
}

// Both cells at x 0, the first on the top die.
fn placed(rt: &impl Abort, alloc: Global, problem: &Problem) -> Result<Placement, NoMemory>
    ensures { IfOk result (IsPlacementOf problem.now) }
{
    let top = top_lanes(alloc)?;
    let bottom = bottom_lanes(alloc)?;
    assert!(rt; problem.cells() == 2);
    assert!(rt; problem.dies().segments_of(Die::Top).len() == 2);
    assert!(rt; problem.dies().segments_of(Die::Bottom).len() == 2);
    Placement::build(alloc, problem, top, bottom, &[0, 0])
}

// The costs of a problem's cut nets over its grid, with its cells placed.
fn costs_of(rt: &impl Abort, alloc: Global, problem: &Problem) -> Result<SlotCosts, NoMemory> {
    let placement = placed(rt, alloc, problem)?;
    let grid = Grid::of(problem.dies());
    let costs = SlotCosts::new(alloc, problem, &placement, &grid);
    drop(placement);
    costs
}

// The costs of the small problem: one row and 36 slots.
fn small_costs(rt: &impl Abort, alloc: Global) -> Result<SlotCosts, Fail> {
    let problem = small_problem(rt, alloc)?;
    let costs = costs_of(rt, alloc, &problem);
    drop(problem);
    Ok(costs?)
}

#[test]
fn costs_and_floors_by_hand(rt: HostRuntime) -> Result<(), Fail> {
    let costs = small_costs(&rt, rt.alloc())?;
    let done = expect_all(&rt, rt.alloc(), &costs);
    drop(costs);
    Ok(done?)
}

fn expect_all(rt: &impl Abort, alloc: Global, costs: &SlotCosts) -> Result<(), NoMemory> {
    assert!(rt; costs.rows() == 1);
    assert!(rt; costs.columns() == 36);
    expect_costs(rt, costs);
    expect_floors(rt, costs);
    expect_near(rt, costs);
    assert!(rt; solved(alloc, costs)? == (0, 2));
    Ok(())
}

// The row's net, and what slots 0 and 7 cost it.
fn expect_costs(rt: &impl Abort, costs: &SlotCosts)
    requires row { length costs.now.rows ≡ 1 }
    requires slots { slot_count costs.now.grid ≡ 36 }
{
    assert!(rt; costs.net_of(0) == NetId(0));
    assert!(rt; costs.cost(0, 0) == 2);
    assert!(rt; costs.cost(0, 7) == 12);
}

// The row's floors in six stripes.
fn expect_floors(rt: &impl Abort, costs: &SlotCosts)
    requires row { length costs.now.rows ≡ 1 }
    requires slots { slot_count costs.now.grid ≡ 36 }
{
    assert!(rt; costs.stripe() == 6);
    for (stripe, floor) in [2, 6, 12, 18, 24, 30].iter().enumerate() {
        assert!(rt; costs.floor(0, stripe as u32) == *floor);
    }
}

// The slots of the second stripe that may cost the row less than these limits: none, the two at x 2 and 5, and all.
fn expect_near(rt: &impl Abort, costs: &SlotCosts)
    requires row { length costs.now.rows ≡ 1 }
    requires slots { slot_count costs.now.grid ≡ 36 }
{
    assert!(rt; costs.stripe() == 6);
    for (limit, near) in [(4, 6..6), (14, 6..8), (u64::MAX, 6..12)].iter() {
        assert!(rt; costs.near(0, 1, *limit) == *near);
    }
}

// The row's slot and its cost, at least cost.
fn solved(alloc: Global, costs: &SlotCosts) -> Result<(u32, u64), NoMemory>
    requires row { length costs.now.rows ≡ 1 }
    requires slots { slot_count costs.now.grid ≡ 36 }
{
    let mut matcher = Matcher::with_room(alloc, 1, 36)?;
    matcher.solve(costs);
    let slot = matcher.column_of(0);
    drop(matcher);
    Ok((slot, costs.cost(0, slot)))
}
