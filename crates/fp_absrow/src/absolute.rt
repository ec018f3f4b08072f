//! Distances from targets.

ghost use Rattle.std.specs.Prelude.{◌≡◌, ◌<◌, ℤ, length};
ghost use Rattle.fp_rows.specs.Squares.{AreCells, IsRow};
ghost use Rattle.fp_absrow.specs.ConvexCells.{IsTold, HasRoom};
ghost use Rattle.fp_absrow.specs.Measures.{absolute_cells};

use crate::cost::RowCost;
use fp_rows::RowCell;
use std::marker::Model;

/// Cells of which each costs its weight times its distance from its target.
#[derive(Drop)]
pub struct Absolute<'a> {
    cells: &'a [RowCell],
}

impl<'a> Model for Absolute<'a> {
    ghost use Rattle.std.specs.Prelude.{List};
    ghost use Rattle.fp_rows.specs.Squares.{AreCells};
    ghost use Rattle.fp_rows.specs.declared.RowCell.{RowCell};

    ghost Value = { List RowCell };

    ghost view = { λ s. s.cells.now };

    ghost invariant = { λ s. AreCells s.cells.now };
}

impl<'a> Absolute<'a> {
    /// The costs of these cells.
    pub fn new(cells: &'a [RowCell]) -> Absolute<'a>
        requires { AreCells cells.now }
        ensures cells { result ≡ cells.now }
        ensures count { length (absolute_cells result) ≡ length cells.now }
        ensures row { (lo hi : ℤ) → IsRow cells.now lo hi → HasRoom (absolute_cells result) lo hi }
    {
        Absolute { cells }
    }
}

impl RowCost for Absolute<'_> {
    ghost cells_of = { absolute_cells };

    fn cells(&self) -> u32 {
        self.cells.len() as u32
    }

    fn width(&self, cell: u32) -> i64 {
        self.cells[cell as usize].width
    }

    fn cost(&self, cell: u32, at: i64) -> i128 {
        let cell = self.cells[cell as usize];
        i128::from(cell.weight) * i128::from((at - cell.target).unsigned_abs())
    }

    fn rise(&self, cell: u32, at: i64) -> i128 {
        let cell = self.cells[cell as usize];
        let weight = i128::from(cell.weight);
        if at < cell.target { -weight } else { weight }
    }

    fn most(&self, cell: u32) -> u64 {
        self.cells[cell as usize].weight.unsigned_abs()
    }
}
