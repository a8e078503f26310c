//! A floor on words that threads share: each step of a seat is one atomic step on one word.
#![tactic(auto)]

mod account;
mod floor;
mod guests;
mod stand;

pub use account::FloorAccount;
pub use floor::{TableFloor, Whole};
pub use kit_pool::{GuestSeat, TableSeat as FloorSeat};
pub use stand::FloorGround;

#[cfg(test)]
mod tests;
