//! Federations for trials, each made of a number.
#![tactic(auto)]

mod federates;
mod generator;
mod groups;
mod laws;
mod picks;
#[cfg(test)]
mod tests;

pub use generator::federation_of;
pub use laws::generated_is_federation;
