//! A queue of messages that wait, for thousands of them: what comes waits as it came, and is put in
//! order with much else at once.
#![tactic(auto)]

mod batch_queue;
mod order;
mod places;

pub use batch_queue::BatchQueue;
