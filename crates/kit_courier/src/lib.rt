//! A small client of the floor: federates that learn each other's clocks and send each other
//! letters. It is the example of how a client is written.
#![tactic(auto)]

mod clocks;
mod couriers;
mod laws;
mod letters;
mod pair;
mod view;

pub use clocks::advance;
pub use couriers::{Couriers, Deliveries};
pub use laws::guests_learn;
pub use letters::{receive, send};
pub use pair::{exchange, hand_over};
pub use view::{CourierView, Letter, Reading, Receipt, Sent};

#[cfg(test)]
mod tests;
