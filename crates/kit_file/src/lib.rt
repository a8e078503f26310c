//! The reader of a federation file: JSON bytes to a federation, and to the plan that it
//! is lowered from where it has regions, or the first fault and its place.
#![tactic(auto)]

mod actions;
mod content;
mod federate_names;
mod federates;
mod groups;
mod known;
mod laws;
mod lookaheads;
mod names;
mod operands;
mod plans;
mod reading;
mod regions;
mod rules;
mod sends;
mod subscribers;
mod variables;

pub use federates::wish_in;
pub use laws::{keys_mean, places_take_their_range, plans_mean};
pub use reading::{federation_of, read_federation, read_plan};
