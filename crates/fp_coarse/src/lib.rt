//! The coarse step of placing: for each cell where its own nets are shortest, and which row of its die it goes to.
#![tactic(auto)]

mod ends;
mod median;
mod median_targets;
mod nearest;
mod order;
mod picking;
mod rooms;

pub use median_targets::targets;
pub use picking::{Picked, pick};

#[cfg(test)]
mod fixtures;
#[cfg(test)]
mod tests_of_picks;
#[cfg(test)]
mod tests_of_targets;
