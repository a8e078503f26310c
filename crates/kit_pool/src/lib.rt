//! Buffers and mail on the words of a table, and seats that step on them: one rule and one set of
//! laws for each floor that threads share.
#![tactic(auto)]

mod dealing;
mod guest;
mod laws;
mod pool;
mod rule;
mod seat;

pub use dealing::{gather, gather_guests, lay};
pub use guest::GuestSeat;
pub use laws::seats_keep_the_rules;
pub use pool::{Pool, PoolSeat, Registers};
pub use rule::{
    Finds, FindsZero, Front, Laid, OwnFirst, Plan, SeatingRule, SeatingTable, Sees, Stores,
};
pub use seat::{TableSeat, readers};

#[cfg(test)]
mod tests;
