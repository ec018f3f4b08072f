//! The seed: a legalization of the cells over both dies by first fit.
#![tactic(auto)]

mod filled_segments;
mod fit;
mod seat;
mod seating;
mod seeding;

pub use seeding::{SeedFault, Seeded, seed};

#[cfg(test)]
mod tests;
