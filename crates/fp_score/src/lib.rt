//! The score of a placement, which is its half-perimeter wirelength and the cost of its terminals; what a first fit is, and what the best
//! slots of terminals are.
#![tactic(auto)]

mod lengths;
mod own;
mod reach;
mod reaches;
mod stop;

pub use lengths::{net_length, net_reaches, score};
pub use own::{Axis, Ends, offset_along, own_length, pin_along};
pub use reach::Reach;
pub use reaches::Reaches;
pub use stop::Stop;

#[cfg(test)]
mod tests;
