//! The ends of a net's pins on an axis, without those of any one cell.

ghost use Rattle.std.specs.Prelude.{◌≡◌, ◌<◌, ◌^◌, ◌≤ℤ◌, ◌-ℤ◌, ℕ, ℤ, All, Some, IfOk, IfSome, length, not, nat_eq, pos};
ghost use Rattle.fp_place.specs.Placed.{places_of, IsPlacementOf};
ghost use Rattle.fp_score.specs.Ends.{AreNearEnds};
ghost use Rattle.fp_coarse.specs.EndsOfNets.{lesser, with_pin, kept_for, ends_without, IsOrdered, IsWithin, AreSmall, AreInRange, IsNetEnds, AreEndsOfNets};

use fp_base::{CellId, NetId, NoMemory};
use fp_netlist::Problem;
use fp_place::Placement;
use fp_score::{Axis, Ends, pin_along};
use std::alloc::Global;

/// The least of some pins' places with its cell, and the least of the pins of other cells, where there are any.
#[derive(Clone, Copy)]
struct Least {
    cell: CellId,
    first: i64,
    second: Option<i64>,
}

// The lesser of two places, where there are two.
fn lesser(least: Option<i64>, at: i64) -> i64
    ensures { result ≡ lesser least at }
{
    match least {
        Some(least) => least.min(at),
        None => at,
    }
}

// The least without the pins of a cell, None where there are no others.
fn kept_for(least: Option<Least>, cell: CellId) -> Option<i64>
    ensures { result ≡ kept_for least cell.0 }
{
    match least {
        Some(least) if least.cell.0 == cell.0 => least.second,
        Some(least) => Some(least.first),
        None => None,
    }
}

impl Least {
    // With one pin more.
    fn with(self, cell: CellId, at: i64) -> Least
        requires { IsOrdered self }
        ensures kept { (other : ℕ) → kept_for (Some result) other ≡ with_pin (kept_for (Some self) other) (not (nat_eq cell.0 other)) at }
        ensures ordered { IsOrdered result }
        ensures within { (from to : ℤ) → IsWithin from to self → from ≤ℤ at → at ≤ℤ to → IsWithin from to result }
    {
        if cell.0 == self.cell.0 {
            Least {
                first: self.first.min(at),
                ..self
            }
        } else if at < self.first {
            Least {
                cell,
                first: at,
                second: Some(self.first),
            }
        } else {
            Least {
                second: Some(lesser(self.second, at)),
                ..self
            }
        }
    }
}

// With one pin more, which may be the first.
fn joined(least: Option<Least>, cell: CellId, at: i64) -> Least
    requires { IfSome least IsOrdered }
    ensures kept { (other : ℕ) → kept_for (Some result) other ≡ with_pin (kept_for least other) (not (nat_eq cell.0 other)) at }
    ensures ordered { IsOrdered result }
    ensures within { (from to : ℤ) → IfSome least (IsWithin from to) → from ≤ℤ at → at ≤ℤ to → IsWithin from to result }
{
    match least {
        Some(least) => least.with(cell, at),
        None => Least {
            cell,
            first: at,
            second: None,
        },
    }
}

/// Of a net's pins on an axis what their ends are without those of any one cell: the least place, and the least of the places' negatives.
#[derive(Clone, Copy)]
pub struct NetEnds {
    low: Option<Least>,
    high: Option<Least>,
}

impl NetEnds {
    /// The ends of the pins of other cells than this, None where the net has no other cell.
    pub fn without(self, cell: CellId) -> Option<Ends>
        requires { AreSmall self }
        ensures ends { result ≡ ends_without self cell.0 }
        ensures range { IfSome result AreInRange }
    {
        match (kept_for(self.low, cell), kept_for(self.high, cell)) {
            (Some(low), Some(high)) => Some(Ends { low, high: -high }),
            _ => None,
        }
    }
}

// What is kept of a net's pins on an axis.
fn net_ends(problem: &Problem, base: &Placement, axis: Axis, net: NetId) -> NetEnds
    requires net { net.0 < length problem.now.nets }
    requires of_problem { IsPlacementOf problem.now base.now }
    ensures ends { IsNetEnds problem.now (places_of base.now) axis net.0 result }
    ensures small { AreSmall result }
{
    let mut low = None;
    let mut high = None;
    for conn in problem.conns_of_net(net) {
        let cell = problem.conn(*conn).cell;
        let at = pin_along(problem, base, *conn, axis);
        low = Some(joined(low, cell, at));
        high = Some(joined(high, cell, -at));
    }
    NetEnds { low, high }
}

/// What is kept of each net's pins on an axis, as the cells stand.
pub fn ends_of_nets(
    alloc: Global,
    problem: &Problem,
    base: &Placement,
    axis: Axis,
) -> Result<Vec<NetEnds>, NoMemory>
    requires { IsPlacementOf problem.now base.now }
    ensures { IfOk result (λ nets. AreEndsOfNets problem.now (places_of base.now) axis nets.items) }
{
    let mut nets = Vec::with_capacity(alloc, problem.nets() as usize)?;
    for net in 0..problem.nets() {
        nets.push(net_ends(problem, base, axis, NetId(net)))?;
    }
    Ok(nets)
}
