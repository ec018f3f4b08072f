//! The length of a cell's own nets, by where the cell stands.

ghost use Rattle.std.specs.Prelude.{◌≡◌, ◌<◌, ◌^◌, ◌≤ℤ◌, ◌+ℤ◌, ◌-ℤ◌, length, pos, IfSome};
ghost use Rattle.fp_netlist.specs.Points.{offset};
ghost use Rattle.fp_place.specs.Cut.{conn_at};
ghost use Rattle.fp_place.specs.Placed.{places_of, IsPlacementOf};
ghost use Rattle.fp_score.specs.Score.{point};
ghost use Rattle.fp_score.specs.Target.{along, others_at, own};
ghost use Rattle.fp_score.specs.Ends.{widened, ends_of, length_to, AreNearEnds};

use crate::lengths::pin;
use fp_base::{CellId, ConnId, Die, NetId, Point};
use fp_netlist::Problem;
use fp_place::Placement;

/// An axis of the die.
#[derive(Clone, Copy, Debug, PartialEq, Eq)]
pub enum Axis {
    X,
    Y,
}

impl Axis {
    /// A point's coordinate on the axis.
    pub fn of(self, point: Point) -> i64
        ensures { result ≡ along self point }
    {
        match self {
            Axis::X => point.x,
            Axis::Y => point.y,
        }
    }
}

/// Where the pin of a connection is on an axis, from 0 to 2^31.
pub fn pin_along(problem: &Problem, placement: &Placement, conn: ConnId, axis: Axis) -> i64
    requires conn { conn.0 < length problem.now.conns }
    requires of_problem { IsPlacementOf problem.now placement.now }
    ensures at { result ≡ along axis (point problem.now (places_of placement.now) conn.0) }
    ensures range { (pos 0 ≤ℤ result) × (result ≤ℤ pos (2 ^ 31)) }
{
    axis.of(pin(problem, placement, conn).point)
}

/// The offset of a connection's pin on a die from its cell's corner, on an axis, from 0 to 2^30.
pub fn offset_along(problem: &Problem, conn: ConnId, die: Die, axis: Axis) -> i64
    requires { conn.0 < length problem.now.conns }
    ensures offset { result ≡ along axis (offset problem.now (conn_at problem.now conn.0) die) }
    ensures range { (pos 0 ≤ℤ result) × (result ≤ℤ pos (2 ^ 30)) }
{
    axis.of(problem.offset(conn, die))
}

/// The least and the greatest of some places on an axis.
#[derive(Clone, Copy)]
pub struct Ends {
    pub low: i64,
    pub high: i64,
}

// The ends of some places and one more, or of that place alone.
fn widened(ends: Option<Ends>, at: i64) -> Ends
    requires at { (pos 0 ≤ℤ at) × (at ≤ℤ pos (2 ^ 31)) }
    requires ends { IfSome ends AreNearEnds }
    ensures widened { result ≡ widened ends at }
    ensures near { AreNearEnds result }
{
    match ends {
        Some(ends) => Ends {
            low: ends.low.min(at),
            high: ends.high.max(at),
        },
        None => Ends { low: at, high: at },
    }
}

// The ends of the pins of a net's other cells on an axis; None where it has none.
fn others(problem: &Problem, base: &Placement, cell: CellId, net: NetId, axis: Axis) -> Option<Ends>
    requires net { net.0 < length problem.now.nets }
    requires of_problem { IsPlacementOf problem.now base.now }
    ensures ends { result ≡ ends_of (others_at problem.now (places_of base.now) cell.0 axis net.0) }
    ensures near { IfSome result AreNearEnds }
{
    let mut ends = None;
    for conn in problem.conns_of_net(net) {
        if problem.conn(*conn).cell.0 != cell.0 {
            ends = Some(widened(ends, pin_along(problem, base, *conn, axis)));
        }
    }
    ends
}

// The length of a net from these ends to one more pin; 0 without ends.
fn length_to(ends: Option<Ends>, pin: i64) -> u64
    requires ends { IfSome ends AreNearEnds }
    requires pin { ((pos 0 -ℤ pos (2 ^ 33)) ≤ℤ pin) × (pin ≤ℤ pos (2 ^ 33)) }
    ensures length { pos result ≡ length_to ends pin }
    ensures small { result < 2 ^ 35 }
{
    match ends {
        Some(ends) => ends.high.max(pin).abs_diff(ends.low.min(pin)),
        None => 0,
    }
}

/// A cell's own length on an axis: the lengths of the nets of its connections with the cell on a die, its corner at a place within 2^32
/// of 0, and all other cells as they stand. A connection whose net has no other cell adds nothing; terminals do not count. It is below
/// 2^56.
pub fn own_length(
    problem: &Problem,
    base: &Placement,
    cell: CellId,
    die: Die,
    axis: Axis,
    at: i64,
) -> u64
    requires cell { cell.0 < length problem.now.cells }
    requires of_problem { IsPlacementOf problem.now base.now }
    requires near { ((pos 0 -ℤ pos (2 ^ 32)) ≤ℤ at) × (at ≤ℤ pos (2 ^ 32)) }
    ensures length { pos result ≡ own problem.now (places_of base.now) cell.0 die axis at }
    ensures small { result < 2 ^ 56 }
{
    let _few = problem.conns();
    let mut total = 0;
    for conn in problem.conns_of_cell(cell) {
        let net = problem.conn(*conn).net;
        let pin = at + offset_along(problem, *conn, die, axis);
        total += length_to(others(problem, base, cell, net, axis), pin);
    }
    total
}
