use kit_base::{Items, Message};
use kit_rules::{Own, Request, Wish};

/// What a cut keeps of a federate.
#[derive(Debug, Drop)]
pub struct Standing {
    /// Its last grant, or 0.
    pub now: u64,
    /// The values of its variables, in the order of the table, and 0 in the places that are left.
    pub vars: [u32; 8],
    /// How it asks to advance.
    pub wish: Wish,
    /// Its request, and none exactly where it stands at the end.
    pub request: Option<Request>,
    /// Its Events that it may still take back, in the order of their numbers: those that no
    /// Retraction names, timed from now and its lookahead to the end.
    pub own: Items<Own>,
    /// The messages that are pending for it, in the order of time, sender and number.
    pub pending: Items<Message>,
}

/// The sequential simulation cut at a time: what is left to do follows from this.
#[derive(Debug, Drop)]
pub struct Cut {
    /// The time, which is the end time at most.
    pub at: u64,
    /// The number that each federate's next message gets.
    pub next: Items<u16>,
    /// The federates.
    pub federates: Items<Standing>,
}
