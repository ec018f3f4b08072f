//! The netlist: cells, nets and connections over two dies, cross-linked by numbers.
#![tactic(auto)]

mod builder;
mod groups;
mod kept;
mod problem;

pub use builder::ProblemBuilder;
pub use problem::{Conn, Problem};

#[cfg(test)]
mod tests;
