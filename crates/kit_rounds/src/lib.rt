//! Mattern's counts of copies by their colours, and the rounds of a reduction, over what each
//! federate has written down: laws alone, with no floor and no federation.
#![tactic(auto)]

mod contribution;
mod laws;

pub use contribution::Contribution;
pub use laws::{
    bounds_last, copies_balance, federates_know, lists_serve, rounds_close, rounds_keep,
    rounds_open, rounds_with_the_least,
};
