//! Runs of a federation's nodes over a plain floor, turn by turn as a schedule says.
#![tactic(auto)]

mod laws;
mod replays;
mod stage;

pub use laws::whole_parts_merge;
pub use replays::{Replayed, replay};

#[cfg(test)]
mod tests;
