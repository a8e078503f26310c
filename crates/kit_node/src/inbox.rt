//! What a federate received and was not delivered yet.

ghost use Rattle.std.specs.Prelude.{◌≡◌, ◌<◌, ◌≤◌, [], filter, not, ◌==◌, ◌&&◌, true, false, IfOk};
ghost use Rattle.std.specs.Prelude.{OnOk, vec_capacity, length};
ghost use Rattle.std.specs.List.{list_any};
ghost use Rattle.kit_node.specs.Fields.{is_named_so, no_receipts};

use crate::receipts::Receipts;
use kit_base::Head;
use kit_queue::Order;
use std::alloc::{AllocError, Global};

/// A transient message that was collected and is still to be received: its head, once that was
/// read, and the buffer of its sender that it lies in.
#[derive(Clone, Copy, Debug)]
pub(crate) struct Arrival {
    pub(crate) head: Head,
    pub(crate) buffer: u16,
}

/// The target of a Retraction that came before it.
#[derive(Clone, Copy, Debug, PartialEq, Eq)]
pub(crate) struct Orphan {
    pub(crate) sender: u8,
    pub(crate) number: u16,
}

/// Whether two orphans are one.
fn is_same(a: &Orphan, b: &Orphan) -> bool
    ensures { result ≡ is_named_so a.now b.now }
{
    a.sender == b.sender && a.number == b.number
}

/// The messages that are to be delivered, in timestamp order, and what is kept of the others.
#[derive(Drop)]
pub(crate) struct Inbox<Q> {
    pub(crate) queue: Q,
    pub(crate) orphans: Vec<Orphan>,
    pub(crate) receipts: Receipts,
    /// What was collected from one sender; empty between senders.
    pub(crate) arrivals: Vec<Arrival>,
    /// No message timed below it still has its buffer.
    pub(crate) settled: u64,
}

impl<Q: Order + Drop> Inbox<Q> {
    ghost use Rattle.kit_node.specs.Fields.{IsEmptyInbox};
    ghost use Rattle.kit_node.specs.Receiving.{HasRoom};

    /// An inbox with no message.
    pub(crate) fn new(alloc: Global) -> Inbox<Q>
        ensures { IsEmptyInbox Q.entries result }
    {
        Inbox {
            queue: Q::empty(alloc),
            orphans: Vec::new(alloc),
            receipts: Receipts::none(),
            arrivals: Vec::new(alloc),
            settled: 0,
        }
    }

    /// Sets memory aside for all that one sender may have posted: so many messages, each of which
    /// may become an entry of the queue or an orphan.
    pub(crate) fn reserve(&mut self, most: usize) -> Result<(), AllocError>
        ensures room { OnOk result (HasRoom Q.spare most self.new) }
        ensures queue { Q.entries self.new.queue ≡ Q.entries self.old.queue }
        ensures orphans { self.new.orphans.items ≡ self.old.orphans.items }
        ensures arrivals { self.new.arrivals.items ≡ self.old.arrivals.items }
        ensures receipts { self.new.receipts ≡ self.old.receipts }
        ensures settled { self.new.settled ≡ self.old.settled }
    {
        self.queue.reserve(most)?;
        self.orphans.reserve(most)?;
        self.arrivals.reserve(most)?;
        Ok(())
    }

    /// Forgets an orphan, and says whether there was one.
    pub(crate) fn adopt(&mut self, orphan: Orphan) -> bool
        ensures named { result ≡ list_any (is_named_so orphan) self.old.orphans.items }
        ensures orphans { result ≡ true
            → self.new.orphans.items ≡ filter
            (λ o. not (is_named_so orphan o)) self.old.orphans.items }
        ensures unknown { result ≡ false → self.new.orphans ≡ self.old.orphans }
        ensures fewer { length self.new.orphans.items ≤ length self.old.orphans.items }
        ensures room { vec_capacity self.new.orphans ≡ vec_capacity self.old.orphans }
        ensures queue { self.new.queue ≡ self.old.queue }
        ensures receipts { self.new.receipts ≡ self.old.receipts }
        ensures arrivals { self.new.arrivals ≡ self.old.arrivals }
        ensures settled { self.new.settled ≡ self.old.settled }
    {
        let named = self.orphans.iter().any(|other| is_same(&orphan, other));
        if named {
            self.orphans.retain(|other| !is_same(&orphan, other));
        }
        named
    }
}
