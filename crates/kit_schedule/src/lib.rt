//! Schedules of turns, as the words of a command line write them.
#![tactic(auto)]

mod repetition;
mod schedule;
mod word;

pub use schedule::{Schedule, one_schedule, schedule_of};
pub use word::Word;

#[cfg(test)]
mod tests;
