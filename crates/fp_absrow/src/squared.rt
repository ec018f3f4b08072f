//! Squared distances from targets.

ghost use Rattle.std.specs.Prelude.{◌≡◌, ◌↔◌, ◌<◌, ℕ, ℤ, List, length};
ghost use Rattle.fp_rows.specs.Squares.{AreCells, IsBest, AreDuals, IsRow};
ghost use Rattle.fp_absrow.specs.ConvexCells.{IsTold, HasRoom, ConvexBest, ConvexDuals};
ghost use Rattle.fp_absrow.specs.Measures.{squared_cells};

use crate::cost::RowCost;
use fp_rows::RowCell;
use std::marker::Model;

/// The most that the square of a distance rises or falls by from a position to the next.
const STEEPEST: u64 = 1 << 35;

/// Cells of which each costs its weight times the square of its distance from its target, as in Abacus (Spindler, Schlichtmann,
/// Johannes, ISPD 2008).
#[derive(Drop)]
pub struct Squared<'a> {
    cells: &'a [RowCell],
}

impl<'a> Model for Squared<'a> {
    ghost use Rattle.std.specs.Prelude.{List};
    ghost use Rattle.fp_rows.specs.Squares.{AreCells};
    ghost use Rattle.fp_rows.specs.declared.RowCell.{RowCell};

    ghost Value = { List RowCell };

    ghost view = { λ s. s.cells.now };

    ghost invariant = { λ s. AreCells s.cells.now };
}

impl<'a> Squared<'a> {
    /// The costs of these cells. What is best and what are duals is as `fp_rows` says of them.
    pub fn new(cells: &'a [RowCell]) -> Squared<'a>
        requires { AreCells cells.now }
        ensures cells { result ≡ cells.now }
        ensures count { length (squared_cells result) ≡ length cells.now }
        ensures row { (lo hi : ℤ) → IsRow cells.now lo hi → HasRoom (squared_cells result) lo hi }
        ensures best { (lo hi : ℤ) (xs : List ℤ)
            → ConvexBest (squared_cells result) lo hi xs ↔ IsBest cells.now lo hi xs }
        ensures duals { (lo hi : ℤ) (xs : List ℤ) (duals : List ℕ)
            → ConvexDuals (squared_cells result) lo hi xs duals ↔ AreDuals cells.now lo hi xs duals }
    {
        Squared { cells }
    }
}

impl RowCost for Squared<'_> {
    ghost cells_of = { squared_cells };

    fn cells(&self) -> u32 {
        self.cells.len() as u32
    }

    fn width(&self, cell: u32) -> i64 {
        self.cells[cell as usize].width
    }

    fn cost(&self, cell: u32, at: i64) -> i128 {
        let cell = self.cells[cell as usize];
        let distance = i128::from(at - cell.target);
        i128::from(cell.weight) * distance * distance
    }

    fn rise(&self, cell: u32, at: i64) -> i128 {
        let cell = self.cells[cell as usize];
        let distance = i128::from(at - cell.target);
        i128::from(cell.weight) * (2 * distance + 1)
    }

    fn most(&self, cell: u32) -> u64 {
        self.cells[cell as usize].weight.unsigned_abs() * STEEPEST
    }
}
