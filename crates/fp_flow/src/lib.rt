//! Trials: placements made one from the other, each shown by what a certificate says of it.
#![tactic(auto)]

mod buffers;
mod chain;
mod first;
mod lanes;
mod layout;
mod placing;
mod rowless;
mod rows;
mod step;
mod still;
mod terminals;

pub use placing::{FlowFault, Outcome, place};

#[cfg(test)]
mod tests;
