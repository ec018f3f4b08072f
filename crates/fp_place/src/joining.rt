//! The terminals of a drawing: one for each cut net, away from the edges and from each other.

ghost use Rattle.std.specs.Prelude.{◌≡◌, ◌<◌, ◌≤◌, ◌+◌, ◌*◌, ◌+ℤ◌, ◌≤ℤ◌, ◌⊎◌, ◌↔◌, ℕ, pos, All, IfOk, IfSome, IsTrue, MatchResult, length};
ghost use Rattle.fp_tech.specs.Plan.{IsTermSpec};
ghost use Rattle.fp_tech.specs.Slots.{KeepsEdges, AreApart};
ghost use Rattle.fp_place.specs.Places.{dies_of};
ghost use Rattle.fp_place.specs.Drawing.{IsCoordinate, IsTerminalInRange};
ghost use Rattle.fp_place.specs.Placed.{IsCentre};
ghost use Rattle.fp_place.specs.FirstFaults.{IsFaultOf, IsFirstFault, FindsFirst, HoldBelow, earlier, net_subject};
ghost use Rattle.fp_place.specs.Joining.{is_joined, strangers, IsJoined, AreJoined, AreInRange, CentreKeepsEdges, IsApartFrom, IsAlone, AreTerminals};

use crate::close::first_close;
use crate::cut_nets::is_cut;
use crate::drawn::{Drawn, DrawnTerminal};
use crate::fault::Fault;
use crate::judge::Subject;
use crate::place::Place;
use crate::seen::{Seen, centre, seen_terminals};
use fp_base::{Die, NetId, NoMemory, Point};
use fp_netlist::Problem;
use fp_tech::{Frame, TermSpec};
use std::alloc::Global;

// A rule is broken by a net.
fn broken_by(rule: u8, net: u32) -> Fault
    ensures { result ≡ Fault.Breaks rule (net_subject net) }
{
    Fault::Breaks {
        rule,
        subject: Subject::Net(NetId(net)),
    }
}

// The dies of the cells.
fn dies_of(alloc: Global, places: &[Place]) -> Result<Vec<Die>, NoMemory>
    ensures { IfOk result (λ dies. dies.items ≡ dies_of places.now) }
{
    let mut dies = Vec::with_capacity(alloc, places.len())?;
    for place in places {
        dies.push(place.die)?;
    }
    Ok(dies)
}

// Whether a net has the terminal that it needs: one if it is cut, and none otherwise.
fn is_joined(seen: Seen, cut: bool) -> bool
    ensures { result ≡ is_joined seen cut }
{
    match seen {
        Seen::Never => !cut,
        Seen::Once(_) => cut,
        Seen::Often => false,
    }
}

// Rule 7: the centre of each net's terminal, where exactly the cut nets have one, and one.
fn find_centres(
    alloc: Global,
    problem: &Problem,
    dies: &[Die],
    lines: &[DrawnTerminal],
) -> Result<Vec<Option<Point>>, Fault>
    requires { length dies.now ≡ length problem.now.cells }
    ensures { MatchResult result (λ centres. AreJoined problem.now dies.now lines.now centres.items) (IsFaultOf (length problem.now.nets) (IsJoined problem.now dies.now lines.now) 7 net_subject) }
{
    let seen = seen_terminals(alloc, problem.nets(), lines)?;
    let mut centres = Vec::with_capacity(alloc, problem.nets() as usize)?;
    for net in 0..problem.nets() {
        let of_net = seen[net as usize];
        if !is_joined(of_net, is_cut(problem, dies, NetId(net))) {
            return Err(broken_by(7, net));
        }
        centres.push(of_net.place())?;
    }
    Ok(centres)
}

// Whether a terminal of this size at a place of an axis keeps its distance from the edge before it.
fn keeps_low(at: i64, low: u32, size: u32, spacing: u32) -> bool
    requires { IsCoordinate at }
    ensures { IsTrue result ↔ pos (2 * low + size + 2 * spacing) ≤ℤ (at +ℤ at) }
{
    2 * i64::from(low) + (i64::from(size) + 2 * i64::from(spacing)) <= at + at
}

fn is_at_most(a: i64, b: i64) -> bool
    ensures { IsTrue result ↔ a ≤ℤ b }
{
    a <= b
}

// Whether a terminal of this size at a place of an axis keeps its distance from the edge behind it.
fn keeps_high(at: i64, high: u32, size: u32, spacing: u32) -> bool
    requires { IsCoordinate at }
    ensures { IsTrue result ↔ (at +ℤ at +ℤ pos (size + 2 * spacing)) ≤ℤ pos (2 * high) }
{
    let reach = i64::from(size) + 2 * i64::from(spacing);
    is_at_most(at + at + reach, 2 * i64::from(high))
}

// Whether a terminal of this size at a place of an axis keeps its distance from both edges.
fn keeps_ends(at: i64, low: u32, high: u32, size: u32, spacing: u32) -> bool
    requires { IsCoordinate at }
    ensures { IsTrue result ↔ (pos (2 * low + size + 2 * spacing) ≤ℤ (at +ℤ at)) × ((at +ℤ at +ℤ pos (size + 2 * spacing)) ≤ℤ pos (2 * high)) }
{
    keeps_low(at, low, size, spacing) && keeps_high(at, high, size, spacing)
}

// Whether a terminal with this centre keeps its distance from each edge.
fn keeps_edges(frame: Frame, terminal: TermSpec, centre: Point) -> bool
    requires terminal { IsTermSpec terminal }
    requires centre { IsCentre centre }
    ensures { IsTrue result ↔ KeepsEdges frame terminal centre }
{
    let spacing = terminal.spacing;
    keeps_ends(centre.x, frame.llx, frame.urx, terminal.size_x, spacing)
        && keeps_ends(centre.y, frame.lly, frame.ury, terminal.size_y, spacing)
}

// Whether a net's terminal, if it has one, keeps its distance from each edge.
fn centre_keeps_edges(frame: Frame, terminal: TermSpec, centre: Option<Point>) -> bool
    requires terminal { IsTermSpec terminal }
    requires centre { IfSome centre IsCentre }
    ensures { IsTrue result ↔ IfSome centre (KeepsEdges frame terminal) }
{
    match centre {
        Some(centre) => keeps_edges(frame, terminal, centre),
        None => true,
    }
}

// Rule 8: terminals keep their distance from the edges.
fn check_edges(problem: &Problem, centres: &[Option<Point>]) -> Result<(), Fault>
    requires many { length centres.now ≡ length problem.now.nets }
    requires range { AreInRange centres.now }
    ensures { MatchResult result (λ _. (net : ℕ) → net < length problem.now.nets → CentreKeepsEdges problem.now.plan.frame problem.now.plan.terminal centres.now net)
        (IsFaultOf (length problem.now.nets) (CentreKeepsEdges problem.now.plan.frame problem.now.plan.terminal centres.now) 8 net_subject) }
{
    let frame = problem.dies().frame();
    let terminal = problem.dies().terminal();
    for net in 0..problem.nets() {
        if !centre_keeps_edges(frame, terminal, centres[net as usize]) {
            return Err(broken_by(8, net));
        }
    }
    Ok(())
}

// The centres of the terminals of nets that the problem does not have.
fn strangers(alloc: Global, nets: u32, lines: &[DrawnTerminal]) -> Result<Vec<Point>, NoMemory>
    ensures { IfOk result (λ others. others.items ≡ strangers nets lines.now) }
{
    let mut others = Vec::new(alloc);
    for line in lines {
        if nets <= line.net.0 {
            others.push(centre(line))?;
        }
    }
    Ok(others)
}

// Whether a place of an axis is at least a size and a spacing behind another.
fn is_behind(a: i64, b: i64, size: u32, spacing: u32) -> bool
    requires a { IsCoordinate a }
    requires b { IsCoordinate b }
    ensures { IsTrue result ↔ (a +ℤ pos (size + spacing)) ≤ℤ b }
{
    a + (i64::from(size) + i64::from(spacing)) <= b
}

// Whether two terminals of this size are far enough from each other on an axis.
fn are_far(a: i64, b: i64, size: u32, spacing: u32) -> bool
    requires a { IsCoordinate a }
    requires b { IsCoordinate b }
    ensures { IsTrue result ↔ (((a +ℤ pos (size + spacing)) ≤ℤ b) ⊎ ((b +ℤ pos (size + spacing)) ≤ℤ a)) }
{
    is_behind(a, b, size, spacing) || is_behind(b, a, size, spacing)
}

// Whether two terminals are apart.
fn are_apart(terminal: TermSpec, a: Point, b: Point) -> bool
    requires terminal { IsTermSpec terminal }
    requires a { IsCentre a }
    requires b { IsCentre b }
    ensures { IsTrue result ↔ AreApart terminal a b }
{
    let spacing = terminal.spacing;
    are_far(a.x, b.x, terminal.size_x, spacing) || are_far(a.y, b.y, terminal.size_y, spacing)
}

// Whether a terminal is apart from all of these.
fn is_apart_from(terminal: TermSpec, centre: Point, others: &[Point]) -> bool
    requires terminal { IsTermSpec terminal }
    requires centre { IsCentre centre }
    requires others { All IsCentre others.now }
    ensures { IsTrue result ↔ All (AreApart terminal centre) others.now }
{
    for other in others {
        if !are_apart(terminal, centre, *other) {
            return false;
        }
    }
    true
}

// Whether a net's terminal, if it has one, is apart from all of these.
fn centre_is_apart(terminal: TermSpec, centre: Option<Point>, others: &[Point]) -> bool
    requires terminal { IsTermSpec terminal }
    requires centre { IfSome centre IsCentre }
    requires others { All IsCentre others.now }
    ensures { IsTrue result ↔ IfSome centre (λ centre. All (AreApart terminal centre) others.now) }
{
    match centre {
        Some(centre) => is_apart_from(terminal, centre, others),
        None => true,
    }
}

// The first net whose terminal is too close to one of these.
fn first_beside(terminal: TermSpec, centres: &[Option<Point>], others: &[Point]) -> Option<usize>
    requires terminal { IsTermSpec terminal }
    requires range { AreInRange centres.now }
    requires others { All IsCentre others.now }
    ensures { FindsFirst (length centres.now) (IsApartFrom terminal others.now centres.now) result }
{
    for net in 0..centres.len() {
        if !centre_is_apart(terminal, centres[net], others) {
            return Some(net);
        }
    }
    None
}

// The lesser of two numbers that may be there.
fn earlier(a: Option<usize>, b: Option<usize>) -> Option<usize>
    ensures { result ≡ earlier a b }
{
    match (a, b) {
        (Some(a), Some(b)) => Some(if a <= b { a } else { b }),
        (Some(a), None) => Some(a),
        (None, b) => b,
    }
}

// Rule 9: terminals are apart from those of other nets.
fn check_apart(
    alloc: Global,
    problem: &Problem,
    centres: &[Option<Point>],
    lines: &[DrawnTerminal],
) -> Result<(), Fault>
    requires many { length centres.now ≡ length problem.now.nets }
    requires range { AreInRange centres.now }
    requires lines { All IsTerminalInRange lines.now }
    ensures { MatchResult result (λ _. (net : ℕ) → net < length problem.now.nets → IsAlone problem.now lines.now centres.now net)
        (IsFaultOf (length problem.now.nets) (IsAlone problem.now lines.now centres.now) 9 net_subject) }
{
    let terminal = problem.dies().terminal();
    let others = strangers(alloc, problem.nets(), lines)?;
    let close = first_close(alloc, terminal, centres)?;
    let beside = first_beside(terminal, centres, &others);
    match earlier(close, beside) {
        Some(net) => Err(broken_by(9, net as u32)),
        None => Ok(()),
    }
}

/// Rules 7 to 9: the centre of each net's terminal, or the first break, where the rules before hold.
pub fn join(
    alloc: Global,
    problem: &Problem,
    drawn: &Drawn,
    places: &[Place],
) -> Result<Vec<Option<Point>>, Fault>
    requires { length places.now ≡ length problem.now.cells }
    ensures { MatchResult result (λ centres. AreTerminals problem.now drawn.now places.now centres.items)
        (λ fault. HoldBelow problem.now drawn.now places.now 7 → IsFirstFault problem.now drawn.now places.now fault) }
{
    let dies = dies_of(alloc, places)?;
    let centres = find_centres(alloc, problem, &dies, drawn.terminals())?;
    check_edges(problem, &centres)?;
    check_apart(alloc, problem, &centres, drawn.terminals())?;
    Ok(centres)
}
