//! Technologies, the two dies with their rows, and the grid of slots for terminals.
#![tactic(auto)]

mod book;
mod cutting;
mod dies;
mod fault;
mod grid;
mod library;
mod names;
mod rows;

pub use book::TechBook;
pub use dies::{Block, DieSpec, Dies, DiesFault, Frame, Segment, TermSpec};
pub use fault::BuildFault;
pub use grid::Grid;
pub use names::Names;
pub use rows::rows_lie;

#[cfg(test)]
mod tests;
