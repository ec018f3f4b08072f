//! Dies settled by Fiduccia-Mattheyses passes: single moves of cells between the two dies, of which each pass keeps its best prefix.
#![tactic(auto)]

mod areas;
mod dies;
mod partition;
mod passes;

pub use dies::dies_of;
pub use passes::settle;

#[cfg(test)]
mod tests;
