//! What each slot costs each cut net.

ghost use Rattle.std.specs.Prelude.{◌≡◌, ◌<◌, ◌≤◌, ◌*◌, ◌^◌, All, IfOk, length, pos};
ghost use Rattle.fp_tech.specs.Slots.{slot_count, stripe_of, row_y, IsGrid};
ghost use Rattle.fp_place.specs.Placed.{places_of, IsPlacementOf};
ghost use Rattle.fp_match.specs.Prices.{IsFloor, IsNear};
ghost use Rattle.fp_slots.specs.CutNets.{cut_nets, IsNearNet, IsLeastAt};
ghost use Rattle.fp_slots.specs.Table.{row_at, net_of, cost_of, AreShort, IsCostsOf};

use crate::columns::Columns;
use crate::cut_net::CutNet;
use fp_base::{NetId, NoMemory, Point, SlotId};
use fp_match::Costs;
use fp_netlist::Problem;
use fp_place::Placement;
use fp_score::net_reaches;
use fp_tech::Grid;
use std::alloc::Global;
use std::marker::Model;
use std::ops::Range;

/// What it costs to give a cut net's terminal a slot: the net's length with its terminal there. Rows are the cut nets in file order, columns
/// the slots of a grid, and a stripe is the slots of one y. No cost is kept: each is computed from the bounding boxes of the net's pins.
#[derive(Drop)]
pub struct SlotCosts {
    rows: Vec<CutNet>,
    grid: Grid,
}

impl Model for SlotCosts {
    ghost use Rattle.fp_slots.specs.Table.{SlotTable};

    ghost Value = { SlotTable };

    ghost use Rattle.fp_slots.specs.KeptTable.{table_of, IsKept};

    ghost view = { table_of };

    ghost invariant = { IsKept };
}

impl SlotCosts {
    /// The costs of a placement's cut nets over its problem's grid of slots. Terminals that the placement has do not count.
    pub fn new(
        alloc: Global,
        problem: &Problem,
        placement: &Placement,
        grid: &Grid,
    ) -> Result<SlotCosts, NoMemory>
        requires of_problem { IsPlacementOf problem.now placement.now }
        requires grid { IsGrid problem.now.plan.frame problem.now.plan.terminal grid.now }
        ensures { IfOk result (IsCostsOf problem.now placement.now grid.now) }
    {
        let _ranges = problem.dies().frame();
        let rows = cut_nets(alloc, problem, placement)?;
        Ok(SlotCosts { rows, grid: *grid })
    }

    /// The net of a row.
    pub fn net_of(&self, row: u32) -> NetId
        requires { row < length self.now.rows }
        ensures { result.0 ≡ net_of self.now row }
    {
        self.rows[row as usize].net
    }
}

// The cut nets in file order, with their bounding boxes.
fn cut_nets(
    alloc: Global,
    problem: &Problem,
    placement: &Placement,
) -> Result<Vec<CutNet>, NoMemory>
    requires { IsPlacementOf problem.now placement.now }
    ensures nets { IfOk result (λ rows. rows.items ≡ cut_nets problem.now (places_of placement.now) (length problem.now.nets)) }
    ensures near { IfOk result (λ rows. All IsNearNet rows.items) }
    ensures few { length problem.now.nets ≤ 2 ^ 18 }
{
    let mut rows = Vec::new(alloc);
    for net in 0..problem.nets() {
        let net = NetId(net);
        if let Some(row) = CutNet::of(net, net_reaches(problem, placement, net)) {
            rows.push(row)?;
        }
    }
    Ok(rows)
}

impl Costs for SlotCosts {
    ghost row_count = { λ costs. length costs.rows };

    ghost column_count = { λ costs. slot_count costs.grid };

    ghost cost_of = { cost_of };

    ghost stripe_width = { λ costs. stripe_of costs.grid };

    fn rows(&self) -> u32 {
        self.rows.len() as u32
    }

    fn columns(&self) -> u32 {
        self.grid.slots()
    }

    fn cost(&self, row: u32, column: u32) -> u64 {
        let centre = self.grid.centre(SlotId(column));
        self.rows[row as usize].length_with(centre)
    }

    /// The number of slots of one y, 1 where there is no slot.
    fn stripe(&self) -> u32 {
        self.grid.across()
    }

    /// What the row's net is long with its terminal at the stripe's y and at the best whole-number x.
    fn floor(&self, row: u32, stripe: u32) -> u64
        requires row_in { row < length self.now.rows }
        requires stripe_in { stripe * stripe_of self.now.grid < slot_count self.now.grid }
        ensures exact { IsLeastAt (row_at self.now row) (pos (row_y self.now.grid stripe)) result }
        ensures floor { IsFloor (cost_of self.now row) (slot_count self.now.grid) (stripe_of self.now.grid) stripe result }
    {
        let first = self.grid.centre(SlotId(stripe * self.grid.across()));
        let row = self.rows[row as usize];
        row.length_with(Point {
            x: row.best_x(),
            y: first.y,
        })
    }

    /// The slots of the stripe that stand where the row's net may be shorter than the limit.
    fn near(&self, row: u32, stripe: u32, limit: u64) -> Range<u32>
        requires row_in { row < length self.now.rows }
        requires stripe_in { stripe * stripe_of self.now.grid < slot_count self.now.grid }
        ensures near { IsNear (cost_of self.now row) (slot_count self.now.grid) (stripe_of self.now.grid) stripe limit result.start result.end }
        ensures short { AreShort self.now row stripe limit result.start result.end }
    {
        let columns = Columns::of(&self.grid);
        let from = stripe * columns.count;
        let first = self.grid.centre(SlotId(from));
        let window = self.rows[row as usize].window(first.y, limit);
        let start = from + columns.before(window.start);
        let end = from + columns.before(window.end);
        start..end
    }

    /// The stripes that stand where the row's net may be shorter than the limit with its terminal at the best whole-number x.
    fn near_stripes(&self, row: u32, limit: u64) -> Range<u32> {
        let net = self.rows[row as usize];
        let stripes = Columns::stripes_of(&self.grid);
        let window = net.turned().window(net.best_x(), limit);
        stripes.before(window.start)..stripes.before(window.end)
    }

    /// The first stripe at or past the further one of the low ends of both dies' bounding boxes, or the last one.
    fn first_stripe(&self, row: u32) -> u32 {
        let best = self.rows[row as usize].turned().best_x();
        let stripes = Columns::stripes_of(&self.grid);
        stripes.before(best.unsigned_abs()).min(stripes.count - 1)
    }
}
