//! What no clause says: that targets are those that are meant.

ghost use Rattle.std.specs.Prelude.{IfOk};
ghost use Rattle.fp_place.specs.Placed.{IsPlacementOf};

use crate::fixtures::{Design, Shape, Standing, problem_of};
use crate::targets;
use fp_base::{CellId, Die, NetId, NoMemory, Point};
use fp_netlist::Problem;
use fp_place::{Drawn, DrawnCell, DrawnTerminal, Judged, Placement, verdict};
use std::alloc::Global;
use std::process::Abort;
use std::test::Fail;

fn cell_on(name: &'static [u8], die: Die, x: i64, joined: bool) -> Standing {
    Standing {
        name,
        die,
        x,
        joined,
    }
}

/// Draws the cells where they stand, with a terminal where the net is cut.
fn draw(
    rt: &impl Abort,
    drawn: &mut Drawn,
    cells: &[Standing],
    is_cut: bool,
) -> Result<(), NoMemory> {
    assert!(rt; cells.len() < 10);
    for (number, standing) in cells.iter().enumerate() {
        let x = standing.x;
        assert!(rt; x >= 0);
        assert!(rt; x < 50);
        let cell = CellId(number as u32);
        drawn.push_cell(standing.die, DrawnCell { cell, x, y: 0 })?;
    }
    if is_cut {
        let net = NetId(0);
        drawn.push_terminal(DrawnTerminal { net, x: 4, y: 4 })?;
    }
    Ok(())
}

fn placed(
    rt: &impl Abort,
    alloc: Global,
    problem: &Problem,
    drawn: &Drawn,
) -> Result<Placement, NoMemory>
    ensures { IfOk result (IsPlacementOf problem.now) }
{
    match verdict(alloc, problem, drawn)? {
        Judged::Legal(placement) => Ok(placement),
        Judged::Breaks { .. } => panic!(rt; "it is legal"),
    }
}

/// The targets over a base, with each cell on a new die.
fn targets_over(
    rt: &impl Abort,
    alloc: Global,
    problem: &Problem,
    drawn: &Drawn,
    dies: &[Die],
) -> Result<Vec<Point>, NoMemory> {
    let base = placed(rt, alloc, problem, drawn)?;
    assert!(rt; problem.cells() as usize == dies.len());
    let found = targets(alloc, problem, &base, dies);
    drop(base);
    found
}

fn targets_drawn(
    rt: &impl Abort,
    alloc: Global,
    problem: &Problem,
    drawn: &mut Drawn,
    design: Design<'_>,
    is_cut: bool,
    dies: &[Die],
) -> Result<Vec<Point>, NoMemory> {
    draw(rt, drawn, design.cells, is_cut)?;
    targets_over(rt, alloc, problem, drawn, dies)
}

/// The targets of the cells of a design, each on a new die.
fn targets_of(
    rt: &impl Abort,
    alloc: Global,
    design: Design<'_>,
    is_cut: bool,
    dies: &[Die],
) -> Result<Vec<Point>, Fail> {
    let problem = problem_of(rt, alloc, design)?;
    let mut drawn = Drawn::new(alloc);
    let found = targets_drawn(rt, alloc, &problem, &mut drawn, design, is_cut, dies);
    drop(drawn);
    drop(problem);
    Ok(found?)
}

#[test]
fn on_the_new_dies(rt: HostRuntime) -> Result<(), Fail> {
    let design = Design {
        top: Shape {
            width: 4,
            pin_x: 1,
            pin_y: 2,
        },
        bottom: Shape {
            width: 5,
            pin_x: 2,
            pin_y: 3,
        },
        length: 50,
        repeat: 1,
        blocks: &[],
        cells: &[
            cell_on(b"C1", Die::Top, 0, true),
            cell_on(b"C2", Die::Bottom, 0, true),
        ],
    };
    let dies = [Die::Bottom, Die::Bottom];
    let found = targets_of(&rt, rt.alloc(), design, true, &dies)?;
    let expected = [Point { x: 0, y: 0 }, Point { x: -1, y: -1 }];
    assert!(&rt; found.as_slice() == expected.as_slice());
    Ok(())
}

#[test]
fn medians_and_cells_without_nets(rt: HostRuntime) -> Result<(), Fail> {
    let shape = Shape {
        width: 10,
        pin_x: 5,
        pin_y: 5,
    };
    let design = Design {
        top: shape,
        bottom: shape,
        length: 50,
        repeat: 1,
        blocks: &[],
        cells: &[
            cell_on(b"X1", Die::Top, 0, true),
            cell_on(b"X2", Die::Top, 10, true),
            cell_on(b"F", Die::Top, 20, false),
            cell_on(b"G", Die::Top, 30, false),
            cell_on(b"Y", Die::Top, 40, true),
        ],
    };
    let found = targets_of(&rt, rt.alloc(), design, false, &[Die::Top; 5])?;
    let expected = [10, 0, 20, 30, 0].map(|x| Point { x, y: 0 });
    assert!(&rt; found.as_slice() == expected.as_slice());
    Ok(())
}
