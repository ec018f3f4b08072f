//! The output file of a placement: its writer and its reader.
#![tactic(auto)]

mod counts;
mod lines;
mod output;
mod reader;

pub use output::write_out;
pub use reader::read_out;

#[cfg(test)]
mod tests;
