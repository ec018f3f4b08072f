//! The reader and the printer of contest input files.
#![tactic(auto)]

mod blocks;
mod insts;
mod lines;
mod nets;
mod print_blocks;
mod print_nets;
mod print_techs;
mod printing;
mod reading;
mod section;
mod sections;
mod steps;
mod techs;

pub use printing::print_problem;
pub use reading::read_problem;

#[cfg(test)]
mod tests;
#[cfg(test)]
mod tests_of_printing;
