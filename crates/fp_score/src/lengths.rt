//! The lengths of nets, and the score.

ghost use Rattle.std.specs.Prelude.{◌≡◌, ◌≤◌, ◌<◌, ◌^◌, length, pos};
ghost use Rattle.fp_place.specs.Places.{dies_of};
ghost use Rattle.fp_place.specs.Placed.{places_of, IsPlacementOf};
ghost use Rattle.fp_score.specs.Score.{point, net_length, cost_at, score};
ghost use Rattle.fp_score.specs.Reaches.{die_of, pins_reached, IsNear, AreNear};
ghost use Rattle.fp_score.specs.Terminals.{AreOnCuts};

use crate::reaches::Reaches;
use fp_base::{ConnId, Die, NetId, Point};
use fp_netlist::Problem;
use fp_place::Placement;

/// A pin: the die of its cell, and where it is there.
#[derive(Clone, Copy)]
pub(crate) struct PinPlace {
    pub die: Die,
    pub point: Point,
}

/// The pin of a connection, from 0 to 2^31 on each axis.
pub(crate) fn pin(problem: &Problem, placement: &Placement, conn: ConnId) -> PinPlace
    requires conn { conn.0 < length problem.now.conns }
    requires of_problem { IsPlacementOf problem.now placement.now }
    ensures die { result.die ≡ die_of problem.now (places_of placement.now) conn.0 }
    ensures point { result.point ≡ point problem.now (places_of placement.now) conn.0 }
    ensures near { IsNear result.point }
{
    let spot = placement.spot(problem.conn(conn).cell);
    let offset = problem.offset(conn, spot.die);
    PinPlace {
        die: spot.die,
        point: Point {
            x: spot.x + offset.x,
            y: spot.y + offset.y,
        },
    }
}

/// The bounding box of a net's pins on each die, without its terminal: from 0 to 2^31 on each axis, or none where the net has no pin
/// there.
pub fn net_reaches(problem: &Problem, placement: &Placement, net: NetId) -> Reaches
    requires net { net.0 < length problem.now.nets }
    requires of_problem { IsPlacementOf problem.now placement.now }
    ensures reaches { result ≡ pins_reached problem.now (places_of placement.now) net.0 }
    ensures near { AreNear result }
{
    let mut reaches = Reaches::none();
    for conn in problem.conns_of_net(net) {
        let pin = pin(problem, placement, *conn);
        reaches = reaches.with(pin.die, pin.point);
    }
    reaches
}

/// The length of a net: its half-perimeter wirelength on both dies, where the terminal is one more pin on each. Exactly the cut nets have
/// a terminal, and its cost is no part of the length. It is below 2^34.
pub fn net_length(problem: &Problem, placement: &Placement, net: NetId) -> u64
    requires net { net.0 < length problem.now.nets }
    requires of_problem { IsPlacementOf problem.now placement.now }
    requires terminals { AreOnCuts problem.now (dies_of (places_of placement.now)) placement.now.terminals }
    ensures length { pos result ≡ net_length problem.now (places_of placement.now) placement.now.terminals net.0 }
    ensures small { result < 2 ^ 34 }
{
    net_reaches(problem, placement, net)
        .with_terminal(placement.terminal(net))
        .length()
}

// What the terminal of a net costs: the cost that the problem states, and nothing where the net has no terminal.
fn terminal_cost(problem: &Problem, placement: &Placement, net: NetId) -> u64
    requires net { net.0 < length problem.now.nets }
    requires of_problem { IsPlacementOf problem.now placement.now }
    requires terminals { AreOnCuts problem.now (dies_of (places_of placement.now)) placement.now.terminals }
    ensures cost { result ≡ cost_at problem.now (places_of placement.now) net.0 }
    ensures most { result ≤ 2 ^ 30 }
{
    match placement.terminal(net) {
        Some(_) => u64::from(problem.dies().terminal().cost),
        None => 0,
    }
}

/// The score: the sum of the lengths of all nets, and the problem's cost of a terminal once for each cut net. It is below 2^53.
pub fn score(problem: &Problem, placement: &Placement) -> u64
    requires of_problem { IsPlacementOf problem.now placement.now }
    requires terminals { AreOnCuts problem.now (dies_of (places_of placement.now)) placement.now.terminals }
    ensures score { pos result ≡ score problem.now (places_of placement.now) placement.now.terminals }
    ensures small { result < 2 ^ 53 }
{
    let mut total = 0;
    for net in 0..problem.nets() {
        let net = NetId(net);
        total += net_length(problem, placement, net) + terminal_cost(problem, placement, net);
    }
    total
}
