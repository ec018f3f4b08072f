//! The cells of each segment of one die.

ghost use Rattle.std.specs.Prelude.{◌≡◌, ◌<◌, ◌++◌, ◌∷◌, [], Some, IfOk, MatchResult, length, replicate, slice_get, set, get_or};

use fp_base::{CellId, NoMemory, SegId, Side};
use std::alloc::Global;
use std::marker::{Model, PhantomData};

/// The cells of one segment, in their order.
#[derive(Drop)]
struct Lane {
    cells: Vec<CellId>,
}

impl Model for Lane {
    ghost use Rattle.std.specs.Prelude.{List};
    ghost use Rattle.fp_base.specs.declared.ids.CellId.{CellId};

    ghost Value = { List CellId };

    ghost view = { λ l. l.cells.items };
}

/// The lanes of a die: for each segment the cells on it, in their order. Those of one die do not take the segments of the other.
#[derive(Drop)]
pub struct Lanes<S: Side> {
    lanes: Vec<Lane>,
    side: PhantomData<S>,
}

impl<S: Side> Model for Lanes<S> {
    ghost use Rattle.fp_place.specs.Placed.{LaneList};

    ghost Value = { LaneList };

    ghost view = { λ l. l.lanes.items };
}

impl<S: Side> Lanes<S> {
    /// So many lanes without cells, one for each segment.
    pub fn new(alloc: Global, segments: u32) -> Result<Lanes<S>, NoMemory>
        ensures { IfOk result (λ lanes. lanes ≡ replicate segments []) }
    {
        let mut lanes = Vec::with_capacity(alloc, segments as usize)?;
        for _ in 0..segments {
            lanes.push(Lane {
                cells: Vec::new(alloc),
            })?;
        }
        Ok(Lanes {
            lanes,
            side: PhantomData,
        })
    }

    /// The number of lanes.
    pub fn len(&self) -> usize
        ensures { result ≡ length self.now }
    {
        self.lanes.len()
    }

    /// Adds a cell at the end of a segment's lane. Without memory nothing changes.
    pub fn push(&mut self, seg: SegId<S>, cell: CellId) -> Result<(), NoMemory>
        requires { seg < length self.old }
        ensures { MatchResult result (λ _. self.new ≡ set self.old seg (get_or self.old seg [] ++ cell ∷ [])) (λ _. self.new ≡ self.old) }
    {
        self.lanes[seg.index() as usize].cells.push(cell)?;
        Ok(())
    }

    /// The cells of a segment, in the order of adding.
    pub fn lane(&self, seg: SegId<S>) -> &[CellId]
        requires { seg < length self.now }
        ensures { slice_get self.now seg ≡ Some result.now }
    {
        self.lanes[seg.index() as usize].cells.as_slice()
    }
}
