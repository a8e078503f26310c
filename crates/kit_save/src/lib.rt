//! The writer of a saved file: a federation with a cut of its simulation as JSON, which the reader
//! gives back.
#![tactic(auto)]

mod action_values;
mod condition_values;
mod federate_values;
mod group_values;
mod laws;
mod messages;
mod objects;
mod requests;
mod rule_values;
mod saved_values;
mod standing_values;
mod text;
mod texts;
mod variable_values;
mod widths;

pub use laws::{cuts_come_back, federations_come_back, pieces_come_back};
pub use text::{SaveEnd, save_text};
