//! The placement of lined up cells.

ghost use Rattle.std.specs.Prelude.{◌≡◌, ◌<◌, ◌^◌, IfOk, length, map};
ghost use Rattle.fp_place.specs.Joining.{AreInRange};
ghost use Rattle.fp_place.specs.LinedUp.{AreLinedUp, AreNamed, IsLaid};

use crate::lined::Lined;
use crate::place::Place;
use crate::placement::Placement;
use fp_base::{CellId, NetId, NoMemory, Point};
use fp_netlist::Problem;
use std::alloc::Global;

// The x of each place.
fn xs_of(alloc: Global, places: &[Place]) -> Result<Vec<i64>, NoMemory>
    ensures { IfOk result (λ xs. xs.items ≡ map (λ place. place.x) places.now) }
{
    let mut xs = Vec::with_capacity(alloc, places.len())?;
    for place in places {
        xs.push(place.x)?;
    }
    Ok(xs)
}

// What every placement keeps: each spot's lane has its cell.
fn see_named(placement: &Placement, cells: u32)
    requires { length placement.now.spots ≡ cells }
    ensures { AreNamed placement.now }
{
    if cells > 0 {
        placement.spot(CellId(0));
    }
}

// Sets the terminals of the nets.
fn set_terminals(placement: &mut Placement, centres: &[Option<Point>])
    requires few { length centres.now < 2 ^ 32 }
    requires many { length placement.old.terminals ≡ length centres.now }
    ensures { placement.new ≡ record placement.old { terminals = centres.now } }
{
    for net in 0..centres.len() {
        placement.set_terminal(NetId(net as u32), centres[net]);
    }
}

/// The placement of lined up cells at these places, with the terminals of these centres.
pub fn lay(
    alloc: Global,
    problem: &Problem,
    lined: Lined,
    places: &[Place],
    centres: &[Option<Point>],
) -> Result<Placement, NoMemory>
    requires places { length places.now ≡ length problem.now.cells }
    requires lined { AreLinedUp problem.now places.now lined.top lined.bottom }
    requires centres { length centres.now ≡ length problem.now.nets }
    requires range { AreInRange centres.now }
    ensures { IfOk result (IsLaid problem.now places.now centres.now) }
{
    let cells = problem.cells();
    let xs = xs_of(alloc, places)?;
    let mut placement = Placement::build(alloc, problem, lined.top, lined.bottom, &xs)?;
    see_named(&placement, cells);
    set_terminals(&mut placement, centres);
    Ok(placement)
}
