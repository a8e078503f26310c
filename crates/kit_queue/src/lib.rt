//! Queues of messages that wait, in the order of their timestamps.
#![tactic(auto)]

mod entry;
mod order;
mod ts_queue;

pub use entry::Entry;
pub use order::Order;
pub use ts_queue::TsQueue;
