//! Work dealt to workers by a queue: each item is in one place only, and comes back once, worked to
//! its end.
#![tactic(auto)]

mod backoff;
mod dealing;
mod laws;
mod rule;
mod serve;
mod table;
#[cfg(test)]
mod tests;

pub use dealing::{Activity, Deal, Gate, Hand, Shop, Through};
pub use laws::each_is_there;
pub use table::{Table, deal};
