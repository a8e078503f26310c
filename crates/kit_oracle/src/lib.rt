//! The sequential simulation of a federation.
#![tactic(auto)]

mod desk;
mod end;
mod grants;
mod needs;
mod observer;
mod opening;
mod pending;
mod posting;
mod simulation;
mod times;

pub use desk::{Desk, next_of};
pub use end::{OracleEnd, end_of};
pub use grants::{grant, turn};
pub use observer::Observer;
pub use opening::open_all;
pub use pending::{Key, PendingMessages};
pub use simulation::{need, observe, simulate, vars_of};

#[cfg(test)]
mod tests;
