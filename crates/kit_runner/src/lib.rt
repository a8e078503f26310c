//! Runs of a federation by workers that share its nodes.
#![tactic(auto)]

mod ends;
mod hall;
mod lock;
mod runs;
mod stage;

pub use kit_deal::{Gate, Through};
pub use kit_passing::PassingGround;
pub use lock::{Locked, lock_run};
pub use runs::{Ran, run};
