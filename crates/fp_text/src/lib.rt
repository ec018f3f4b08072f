//! Tokens, numbers and names of a text, reading a grammar up to its first fault, whole files, and a
//! writer of files.
#![tactic(auto)]

mod cursor;
mod fault;
mod numbers;
mod whole;
mod writing;

pub use cursor::{Token, Tokens, Word, is_name};
pub use fault::{Kind, TextFault};
pub use numbers::{NumberFault, number, signed};
pub use whole::{WholeFault, read_whole};
pub use writing::Writer;

#[cfg(test)]
mod tests;
