//! The reader of a saved file: a federation file with a cut of its simulation.
#![tactic(auto)]

mod cut;
mod laws;
mod own_events;
mod pending_events;
mod requests;
mod rows;
mod saved;
mod seen;
mod standing;
mod variables;

pub use laws::read_cuts_are_valid;
pub use saved::read_cut;
