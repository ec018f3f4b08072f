//! One engine for the cells of a row with any convex costs: positions that cost the least, and duals that show it.
#![tactic(auto)]

ghost use Rattle.std.specs.Prelude.{◌≡◌, ◌+◌, ◌^◌, ◌≤◌, All, length};
ghost use Rattle.fp_absrow.specs.ConvexCells.{HasRoom, ConvexFeasible, ConvexBest, ConvexDuals};

mod absolute;
mod cost;
mod duals;
mod placing;
mod shown;
mod span;
mod squared;

pub use absolute::Absolute;
pub use cost::RowCost;
pub use shown::convex_shown;
pub use span::Span;
pub use squared::Squared;

/// Places the cells of a row where they cost the least, and gives duals that show it.
///
/// `lo` and `hi` are the row's ends, from 0 to 2^31, with room for the cells between them. `work` is scratch, of one entry for each
/// cell; what it holds before and after does not matter. Afterwards `xs` has the position of each cell, and `duals` has one dual
/// before the first cell and one behind each, none above 2^57. It asks for each cell's rise about as often as the ends' distance can
/// be halved, takes no memory and refuses nothing.
pub fn place_convex<C: RowCost>(
    costs: &C,
    lo: i64,
    hi: i64,
    work: &mut [Span],
    xs: &mut [i64],
    duals: &mut [u64],
)
    requires row { HasRoom (C.cells_of costs.now) lo hi }
    requires work { length work.old ≡ length (C.cells_of costs.now) }
    requires xs { length xs.old ≡ length (C.cells_of costs.now) }
    requires duals { length duals.old ≡ length (C.cells_of costs.now) + 1 }
    ensures feasible { ConvexFeasible (C.cells_of costs.now) lo hi xs.new }
    ensures best { ConvexBest (C.cells_of costs.now) lo hi xs.new }
    ensures duals { ConvexDuals (C.cells_of costs.now) lo hi xs.new duals.new }
    ensures small { All (λ dual. dual ≤ 2 ^ 57) duals.new }
{
    placing::place_cells(costs, lo, hi, work, xs);
    duals::set_needs(costs, xs, duals);
    duals::raise_to_least(costs, xs, duals);
}

#[cfg(test)]
mod tests;
