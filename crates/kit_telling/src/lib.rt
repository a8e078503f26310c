//! The text of what nodes did, straight from the journals that they report.
#![tactic(auto)]

mod telling;

pub use telling::histories_text;
