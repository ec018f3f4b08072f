//! What a trial shows of a cell, of a cut net and of a segment.

ghost use Rattle.std.specs.Prelude.{◌≡◌, ◌++◌, ◌∷◌, [], MatchResult};
ghost use Rattle.fp_cert.specs.Shown.{with_cell};

use fp_base::{CellId, NetId, NoMemory, Point, SlotId};
use std::alloc::Global;
use std::marker::Model;

/// How a trial ended: as the first one, made of the seed; with a score strictly below its base's, or not; or at a cell for which the
/// choice of rows found no segment.
#[derive(Clone, Copy, Debug, PartialEq, Eq)]
pub enum Ending {
    Start,
    Better,
    NotBetter,
    NoRow(CellId),
}

/// A cell of a segment: its x, its target, and the dual of the room between it and the next cell of the segment, or the segment's end
/// behind the last one. In a run of a problem x is from 0 to 2^30, a target within 2^32 of 0 on each axis and a dual at most 2^60.
#[derive(Clone, Copy, Debug, PartialEq, Eq)]
pub struct CellShown {
    pub cell: CellId,
    pub x: i64,
    pub target: Point,
    pub dual: u64,
}

/// A cut net, the slot of its terminal, and the slot's price, at most 2^60 in a run of a problem. A slot that no line names has the
/// price 0.
#[derive(Clone, Copy, Debug, PartialEq, Eq)]
pub struct CutShown {
    pub net: NetId,
    pub slot: SlotId,
    pub price: u64,
}

/// A segment: the dual of the room between its start and its first cell, and its cells in order of x.
#[derive(Drop)]
pub struct RowShown {
    first: u64,
    cells: Vec<CellShown>,
}

impl Model for RowShown {
    ghost use Rattle.fp_cert.specs.Shown.{ShownRow};

    ghost Value = { ShownRow };

    ghost view = { λ r. record { first = r.first; cells = r.cells.items } };
}

impl RowShown {
    /// A segment without cells, by its one dual. It takes no memory.
    pub fn new(alloc: Global, first: u64) -> RowShown
        ensures { result ≡ record { first = first; cells = [] } }
    {
        RowShown {
            first,
            cells: Vec::new(alloc),
        }
    }

    /// The dual before the first cell.
    pub fn first(&self) -> u64
        ensures { result ≡ self.now.first }
    {
        self.first
    }

    /// The cells in their order.
    pub fn cells(&self) -> &[CellShown]
        ensures { result.now ≡ self.now.cells }
    {
        self.cells.as_slice()
    }

    /// Adds a cell behind the others. Without memory nothing changes.
    pub fn push(&mut self, cell: CellShown) -> Result<(), NoMemory>
        ensures { MatchResult result (λ _. self.new ≡ with_cell self.old cell) (λ _. self.new ≡ self.old) }
    {
        self.cells.push(cell)?;
        Ok(())
    }
}
