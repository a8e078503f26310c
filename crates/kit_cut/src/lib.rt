//! The sequential simulation cut at a time, and resumed from such a cut.
#![tactic(auto)]

mod cut;
mod cutting;
mod laws;
mod numbers;
mod order;
mod postings;
mod restoring;
mod resume;
mod upto;
mod valid;

pub use cut::{Cut, Standing};
pub use cutting::cut_at;
pub use laws::{cuts_are_valid, simulation_is_cut_in_two};
pub use resume::resume_from;
pub use valid::valid_cut;

#[cfg(test)]
mod tests;
