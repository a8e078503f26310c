//! A queue of messages that wait, in buckets by their times.
#![tactic(auto)]

mod calendar;
mod row;
mod rows;
mod spot;

pub use calendar::Calendar;
