//! The checker: whether an output file and a certificate show a placement that was made as it should be, without trust in the program that
//! made it.
#![tactic(auto)]

mod answer;
mod checking;
mod cuts;
mod dies;
mod going;
mod listing;
mod picks;
mod rows;
mod scores;
mod start;
mod views;

pub use checking::check;
