//! A placement whose cells name their segments.

ghost use Rattle.std.specs.Prelude.{◌≡◌, ◌<◌, ◌≤◌, ◌^◌, All, IfOk, Some, None, length, map, replicate, set, slice_get};
ghost use Rattle.fp_base.specs.declared.ids.Die.TheVariants as sides;
ghost use Rattle.fp_tech.specs.Plan.{segments};
ghost use Rattle.fp_place.specs.Drawing.{IsCoordinate};
ghost use Rattle.fp_place.specs.Laying.{AreLaid, AreApart, AreLanesLaid, StandApart, IsLaneLaid};
ghost use Rattle.fp_place.specs.Placed.{lanes_of, DoAgree, StandOnce, IsPlacementOf};

use crate::lanes::Lanes;
use fp_base::{Bottom, CellId, Die, NetId, NoMemory, Point, SegId, Side, Top};
use fp_netlist::Problem;
use fp_tech::{Dies, Segment};
use std::alloc::Global;
use std::marker::Model;

/// Where a cell stands: its die, the number of its segment there, its rank on it from 0, and its lower left corner.
#[derive(Clone, Copy, Debug, PartialEq, Eq)]
pub struct Spot {
    pub die: Die,
    pub segment: u32,
    pub rank: u32,
    pub x: i64,
    pub y: i64,
}

/// A spot for each cell, a lane for each segment of both dies, and a terminal or none for each net: our own form of a placement. Each spot
/// and its lane's entry name each other. Whether it keeps the contest's rules is told elsewhere.
#[derive(Drop)]
pub struct Placement {
    spots: Vec<Spot>,
    top: Lanes<Top>,
    bottom: Lanes<Bottom>,
    terminals: Vec<Option<Point>>,
}

impl Model for Placement {
    ghost use Rattle.fp_place.specs.Placed.{Placed, Agree};

    ghost Value = { Placed };

    ghost view = { λ p. record { spots = p.spots.items; top = p.top; bottom = p.bottom; terminals = p.terminals.items } };

    ghost invariant = { λ p. Agree p.spots.items p.top p.bottom };
}

impl Placement {
    /// The placement of these lanes, in which each cell stands once, with the x of each cell, from 0 to 2^30. It has no terminals. A
    /// cell's y is its segment's. A refusal drops both lanes.
    pub fn build(
        alloc: Global,
        problem: &Problem,
        top: Lanes<Top>,
        bottom: Lanes<Bottom>,
        xs: &[i64],
    ) -> Result<Placement, NoMemory>
        requires top_lanes { length top ≡ length (segments problem.now.plan sides.Top) }
        requires bottom_lanes { length bottom ≡ length (segments problem.now.plan sides.Bottom) }
        requires once { StandOnce (length problem.now.cells) top bottom }
        requires xs { length xs.now ≡ length problem.now.cells }
        requires range { All IsCoordinate xs.now }
        ensures of_problem { IfOk result (IsPlacementOf problem.now) }
        ensures top { IfOk result (λ p. p.top ≡ top) }
        ensures bottom { IfOk result (λ p. p.bottom ≡ bottom) }
        ensures xs { IfOk result (λ p. map (λ spot. spot.x) p.spots ≡ xs.now) }
        ensures terminals { IfOk result (λ p. p.terminals ≡ replicate (length problem.now.nets) None) }
        ensures agree { IfOk result DoAgree }
    {
        let nets = problem.nets() as usize;
        let mut spots = vec![in alloc; NO_SPOT; xs.len()]?;
        lay_both(problem.dies(), &top, &bottom, xs, &mut spots);
        let terminals = vec![in alloc; None; nets]?;
        Ok(Placement {
            spots,
            top,
            bottom,
            terminals,
        })
    }

    /// Where a cell stands.
    pub fn spot(&self, cell: CellId) -> Spot
        requires { cell.0 < length self.now.spots }
        ensures spot { slice_get self.now.spots cell.0 ≡ Some result }
        ensures agree { DoAgree self.now }
    {
        self.spots[cell.0 as usize]
    }

    /// The cells of a segment of a die, in their order.
    pub fn lane(&self, die: Die, segment: u32) -> &[CellId]
        requires { segment < length (lanes_of self.now die) }
        ensures lane { slice_get (lanes_of self.now die) segment ≡ Some result.now }
        ensures agree { DoAgree self.now }
    {
        match die {
            Die::Top => self.top.lane(SegId::new(segment)),
            Die::Bottom => self.bottom.lane(SegId::new(segment)),
        }
    }

    /// The centre of a net's terminal, or None exactly where it has none.
    pub fn terminal(&self, net: NetId) -> Option<Point>
        requires { net.0 < length self.now.terminals }
        ensures { slice_get self.now.terminals net.0 ≡ Some result }
    {
        self.terminals[net.0 as usize]
    }

    /// Sets a net's terminal, or takes it away; all else stays.
    pub fn set_terminal(&mut self, net: NetId, centre: Option<Point>)
        requires { net.0 < length self.old.terminals }
        ensures { self.new ≡ record self.old { terminals = set self.old.terminals net.0 centre } }
    {
        self.terminals[net.0 as usize] = centre;
    }
}

// What stands in a cell's place before its spot is laid.
const NO_SPOT: Spot = Spot {
    die: Die::Top,
    segment: 0,
    rank: 0,
    x: 0,
    y: 0,
};

// Lays the spots of the cells of both dies.
fn lay_both(dies: &Dies, top: &Lanes<Top>, bottom: &Lanes<Bottom>, xs: &[i64], spots: &mut [Spot])
    requires top_lanes { length top.now ≡ length (segments dies.now sides.Top) }
    requires bottom_lanes { length bottom.now ≡ length (segments dies.now sides.Bottom) }
    requires few_cells { length spots.old ≤ 2 ^ 18 }
    requires xs { length xs.now ≡ length spots.old }
    requires once { StandOnce (length spots.old) top.now bottom.now }
    ensures many { length spots.new ≡ length spots.old }
    ensures laid { AreLaid dies.now top.now bottom.now xs.now spots.new }
{
    lay(top, dies.segments::<Top>(), xs, spots);
    lay(bottom, dies.segments::<Bottom>(), xs, spots);
}

// Lays the spots of the cells of a die.
fn lay<S: Side>(lanes: &Lanes<S>, segments: &[Segment], xs: &[i64], spots: &mut [Spot])
    requires lanes { length lanes.now ≡ length segments.now }
    requires few_lanes { length segments.now ≤ 2 ^ 16 }
    requires few_cells { length spots.old ≤ 2 ^ 18 }
    requires xs { length xs.now ≡ length spots.old }
    requires apart { AreApart (length spots.old) lanes.now }
    ensures { AreLanesLaid S.DIE segments.now xs.now lanes.now (length segments.now) spots.old spots.new }
{
    for (number, segment) in segments.iter().enumerate() {
        let number = number as u32;
        let lane = lanes.lane(SegId::new(number));
        lay_lane(lane, S::DIE, number, segment.y, xs, spots);
    }
}

// Lays the spots of the cells of a segment, in which each stands once.
fn lay_lane(lane: &[CellId], die: Die, segment: u32, y: i64, xs: &[i64], spots: &mut [Spot])
    requires few_cells { length spots.old ≤ 2 ^ 18 }
    requires xs { length xs.now ≡ length spots.old }
    requires within { All (λ cell. cell.0 < length spots.old) lane.now }
    requires apart { StandApart lane.now }
    ensures { IsLaneLaid die segment y xs.now lane.now (length lane.now) spots.old spots.new }
{
    for (rank, cell) in lane.iter().enumerate() {
        let place = cell.0 as usize;
        spots[place] = Spot {
            die,
            segment,
            rank: rank as u32,
            x: xs[place],
            y,
        };
    }
}
