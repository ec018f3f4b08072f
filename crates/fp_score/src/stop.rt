//! Why a first fit stops.

use fp_base::CellId;

/// Why a first fit stops: at the first cell for which no segment has room, or, where all cells are in, for want of slots.
#[derive(Clone, Copy, Debug, PartialEq, Eq)]
pub enum Stop {
    NoRoom(CellId),
    NoSlots { cut: u32, slots: u32 },
}
