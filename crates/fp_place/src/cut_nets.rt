//! The nets that are cut: those with cells on both dies.

ghost use Rattle.std.specs.Prelude.{◌≡◌, ◌<◌, ◌≤◌, ◌^◌, All, length};
ghost use Rattle.std.specs.List.{list_any};
ghost use Rattle.fp_place.specs.Cut.{cut, is_cut, is_on};

use fp_base::{ConnId, Die, NetId};
use fp_netlist::Problem;

// Whether a connection's cell stands on the die.
fn is_on(problem: &Problem, dies: &[Die], conn: ConnId, die: Die) -> bool
    requires cells { length dies.now ≡ length problem.now.cells }
    requires conn { conn.0 < length problem.now.conns }
    ensures { result ≡ is_on problem.now dies.now die conn.0 }
{
    dies[problem.conn(conn).cell.0 as usize] == die
}

// Whether one of these connections is to a cell on the die.
fn touches(problem: &Problem, dies: &[Die], conns: &[ConnId], die: Die) -> bool
    requires cells { length dies.now ≡ length problem.now.cells }
    requires conns { All (λ conn. conn.0 < length problem.now.conns) conns.now }
    ensures { result ≡ list_any (λ conn. is_on problem.now dies.now die conn.0) conns.now }
{
    conns.iter().any(|conn| is_on(problem, dies, *conn, die))
}

/// Whether a net has cells on both dies, where each cell stands on its die of the list. By the contest's rules such a net has a terminal,
/// and every other net none.
pub fn is_cut(problem: &Problem, dies: &[Die], net: NetId) -> bool
    requires cells { length dies.now ≡ length problem.now.cells }
    requires net { net.0 < length problem.now.nets }
    ensures { result ≡ is_cut problem.now dies.now net.0 }
{
    let conns = problem.conns_of_net(net);
    touches(problem, dies, conns, Die::Top) && touches(problem, dies, conns, Die::Bottom)
}

/// The number of nets with cells on both dies, where each cell stands on its die of the list; at most 2^18.
pub fn cut(problem: &Problem, dies: &[Die]) -> u32
    requires { length dies.now ≡ length problem.now.cells }
    ensures count { result ≡ cut problem.now dies.now }
    ensures few { result ≤ 2 ^ 18 }
{
    let mut count = 0;
    for net in 0..problem.nets() {
        if is_cut(problem, dies, NetId(net)) {
            count += 1;
        }
    }
    count
}
