//! The generator of contest inputs: a text from a number, of as many cells as wanted, to try the program without an input.
#![tactic(auto)]

mod cells;
mod dies;
mod generator;
mod lines;
mod nets;
mod techs;

pub use generator::make;

#[cfg(test)]
mod tests;
