//! Linear assignment: for each row a column of its own, at least total cost, with prices of columns, the dual variables, that show it.
#![tactic(auto)]

mod assign;
mod choice;
mod closed;
mod costs;
mod labels;
mod matcher;
mod matching;
mod scan;
mod shown;
mod stripes;

pub use choice::{Choice, ChoiceFault};
pub use costs::Costs;
pub use matcher::Matcher;
pub use shown::prices_shown;

#[cfg(test)]
mod tests;
