//! Nodes: each runs one federate of a federation over a seat of a floor, turn by turn.
//!
//! A node keeps its federate's logical time, its pending request to advance, the messages that are
//! to be delivered and those that are still to be posted, and what it needs for its part in the
//! computation of the bound (LBTS). A turn receives transient messages, posts, takes part in a
//! round, and grants the request where its due time is below the bound.
#![tactic(auto)]

mod course;
mod ends;
mod grant;
mod inbox;
mod node;
mod openings;
mod outbox;
mod posts;
mod receipts;
mod receive;
mod reduce;
mod rounds;
mod send;
mod settle;
mod start;
mod steps;
mod turns;

pub use ends::{End, NodeEnd, Turn};
pub use node::{Node, NodeReport};
pub use openings::opening;
