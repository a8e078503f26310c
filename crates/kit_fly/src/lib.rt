//! Reductions: how the shares of all federates come together, by registers alone.
#![tactic(auto)]

mod butterfly;
mod flat;
mod laws;
mod reduction;
mod registers;

pub use butterfly::{Butterfly, partner};
pub use flat::FlatReduction;
pub use laws::{butterflies_are_small, registers_differ, whole_rounds_show};
pub use reduction::{Poll, Reduction};
