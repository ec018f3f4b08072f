//! Placements: drawn ones, as an output file says them, and legal ones that name their segments; the rules of legality, the areas that
//! cells take, and the nets that are cut.
#![tactic(auto)]

mod caps;
mod close;
mod cut_nets;
mod drawn;
mod facing;
mod fault;
mod joining;
mod judge;
mod lanes;
mod laying;
mod lined;
mod overlap;
mod percents;
mod place;
mod placement;
mod rules;
mod seen;
mod settling;
mod standing;

pub use caps::Caps;
pub use cut_nets::{cut, is_cut};
pub use drawn::{Drawn, DrawnCell, DrawnTerminal};
pub use facing::other;
pub use judge::{Judged, Subject, verdict};
pub use lanes::Lanes;
pub use placement::{Placement, Spot};
pub use rules::keeps_rules;

#[cfg(test)]
mod tests;
