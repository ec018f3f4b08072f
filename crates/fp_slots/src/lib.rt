//! What it costs to give a cut net's terminal a slot.
#![tactic(auto)]

mod columns;
mod cut_net;
mod slot_costs;

pub use slot_costs::SlotCosts;

#[cfg(test)]
mod tests;
