//! What a row's cells cost by their positions.

ghost use Rattle.std.specs.Prelude.{◌≡◌, ◌<◌, List, length};
ghost use Rattle.fp_absrow.specs.ConvexCells.{ConvexCell, AreConvexCells, IsTold, cell_at};

/// The cells of a row, in order, each with a width and a convex cost by its position.
///
/// Costs are told at the positions from -2^33 to 2^33. A cost is convex where it rises no less from each position than from the one
/// before. The interface is our own.
pub trait RowCost {
    ghost cells_of: { Self → List ConvexCell };

    /// How many cells there are. The laws that hold of all of them stand here.
    fn cells(&self) -> u32
        ensures count { result ≡ length (cells_of self.now) }
        ensures convex { AreConvexCells (cells_of self.now) };

    /// How far the cell reaches to the right of its position, from 1 to 2^30.
    fn width(&self, cell: u32) -> i64
        requires { cell < length (cells_of self.now) }
        ensures { result ≡ (cell_at (cells_of self.now) cell).width };

    /// What the cell costs at the position.
    fn cost(&self, cell: u32, at: i64) -> i128
        requires cell { cell < length (cells_of self.now) }
        requires told { IsTold at }
        ensures { result ≡ (cell_at (cells_of self.now) cell).cost at };

    /// What the cell's cost rises by from the position to the next.
    fn rise(&self, cell: u32, at: i64) -> i128
        requires cell { cell < length (cells_of self.now) }
        requires told { IsTold at }
        ensures { result ≡ (cell_at (cells_of self.now) cell).rise at };

    /// The most that the cell's cost rises or falls by from a position to the next. These sum to at most 2^57.
    fn most(&self, cell: u32) -> u64
        requires { cell < length (cells_of self.now) }
        ensures { result ≡ (cell_at (cells_of self.now) cell).most };
}
