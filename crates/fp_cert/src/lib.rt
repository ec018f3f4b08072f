//! Certificates: what a run of trials shows of itself, its file, and the file's writer and reader.
#![tactic(auto)]

mod by_cell;
mod certificate;
mod finding;
mod lines;
mod lines_reader;
mod numbers;
mod reader;
mod run;
mod shown;
mod trial;
mod trial_lines;

pub use by_cell::{targets_of, xs_of};
pub use certificate::write_cert;
pub use finding::Finding;
pub use lines_reader::read_lines;
pub use reader::read_cert;
pub use run::Run;
pub use shown::{CellShown, CutShown, Ending, RowShown};
pub use trial::Trial;
pub use trial_lines::write_lines;

#[cfg(test)]
mod tests;
#[cfg(test)]
mod tests_of_reading;
