use crate::{Items, Message};

/// One line of a history: what a federate was given, and when, in the federation's logical time.
#[derive(Clone, Copy, Debug, PartialEq, Eq)]
pub enum Line {
    /// An Event was delivered to a federate.
    Deliver {
        /// The time of the grant with which it was delivered: the message's own time or a later
        /// one.
        granted: u64,
        /// The federate that received it, by its number.
        federate: u8,
        /// The Event.
        message: Message,
    },
    /// A federate's request to advance was granted.
    Grant {
        /// The federate's new logical time.
        time: u64,
        /// The federate, by its number.
        federate: u8,
    },
}

/// One federate's share of a history.
#[derive(Debug, Drop)]
pub struct Part {
    /// The federate's own lines, in the order in which they came.
    pub lines: Items<Line>,
    /// The closing values of its variables, in the order of its table, and 0 in the places that are
    /// left.
    pub vars: [u32; 8],
}

/// What a whole run of a federation left.
#[derive(Debug, Drop)]
pub struct History {
    /// The lines of all federates, in the order of the run.
    pub lines: Items<Line>,
    /// The closing values of each federate's variables, in the order of the federates.
    pub vars: Items<[u32; 8]>,
}
