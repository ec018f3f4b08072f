//! Fiduccia-Mattheyses gains of moves between the two dies: for each cell how many nets fewer are cut after its move, and the base cell of
//! the next move, a free cell of greatest gain that fits its other die and has room there.
#![tactic(auto)]

mod gains;
mod links;
mod lists;
mod order;
mod places;
mod ranks;
mod sides;
mod state;
mod tournament;

pub use gains::Gains;

#[cfg(test)]
mod tests;
