//! What a federate knows. Contracts alone see it: no value of these types is made, but for
//! `Scheme`.
use kit_base::Message;
use kit_model::{JournalEntry, Share};
use kit_queue::Entry;
use kit_rounds::Contribution;
use kit_rules::{Federation, Request, State};
use std::collections::LinkedList;

/// How the shares of a round come together.
#[derive(Clone, Copy, Debug, PartialEq, Eq)]
pub enum Scheme {
    /// Each federate looks at the share of every other one.
    Flat,
    /// Shares go from stage to stage of a butterfly.
    Butterfly,
}

/// An entry of the journal, with the colour of the message where it was received, and 0 elsewhere.
pub struct Noted {
    pub entry: JournalEntry,
    pub colour: u64,
}

/// A message that an own buffer was charged with, and the colour that its head carries.
pub struct Filled {
    pub message: Message,
    pub colour: u64,
}

/// A copy that was posted, and its receiver.
pub struct Posting {
    pub to: u64,
    pub filled: Filled,
}

/// A copy that was collected and is still to be received: its sender, its buffer, and its head
/// where that was read.
pub struct InHand {
    pub from: u64,
    pub buffer: u64,
    pub head: Option<u64>,
}

/// An Event that is still to come, whose Retraction came already: its sender and number.
pub struct Orphan {
    pub from: u64,
    pub number: u64,
}

/// A buffer that is held and is to be released: its message is a Retraction, or was taken back.
pub struct Spent {
    pub from: u64,
    pub buffer: u64,
}

/// A federate's view.
pub struct LbtsView {
    pub federation: Federation,
    pub scheme: Scheme,
    pub journal: LinkedList<Noted>,
    pub state: State,
    /// What it asks for; nothing before its start's rules have run.
    pub request: Option<Request>,
    /// The transported messages that are not posted whole, in the order of their numbers.
    pub outbox: LinkedList<Message>,
    /// The own buffer that is charged with the first of these, where that is not posted whole.
    pub sending: Option<u64>,
    /// The copies that it posted, in order.
    pub posted: LinkedList<Posting>,
    /// What each own buffer was last charged with.
    pub filled: LinkedList<Option<Filled>>,
    pub queue: LinkedList<Entry>,
    pub in_hand: LinkedList<InHand>,
    pub orphans: LinkedList<Orphan>,
    /// The buffers that are still to be released, but for those of the queue.
    pub spent: LinkedList<Spent>,
    /// Its contributions, one for each round from the first on.
    pub contributions: LinkedList<Contribution>,
    /// The shares that it took in since its last contribution.
    pub taken: LinkedList<Share>,
    /// The results that it knows, one for each round from the first on.
    pub results: LinkedList<Share>,
}
