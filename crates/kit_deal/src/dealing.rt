//! What is dealt, and who works it.
ghost use Rattle.std.specs.Prelude.{◌≡◌, ℕ, List, Bool, false};

use std::collections::LinkedList;

/// What is dealt. Contracts alone see all but the type of an item.
pub trait Deal {
    /// What workers take from the queue, work for a turn, and put back.
    type Item;

    // The number of an item. Working it does not change it.
    ghost number: { Self.Item → ℕ };

    // The numbers that are dealt.
    ghost all: { List ℕ };

    // An item that may be worked.
    ghost Fits: { Self.Item → Type 0 };

    // Whether an item has been worked to its end.
    ghost has_ended: { Self.Item → Bool };
}

/// What a turn did with an item.
#[derive(Clone, Copy, Debug, PartialEq, Eq)]
pub enum Activity {
    /// Something was done.
    Worked,
    /// There was nothing to do for now. A worker whose turns are all idle waits before the next.
    Idle,
    /// The item has been worked to its end, and gets no further turn.
    Ended,
}

/// What the caller has done as its workers go: each worker has one.
pub trait Gate {
    /// It is called by the worker right before each turn that it gives, with the number of the
    /// item. The worker then holds the item, and holds no lock. The turns that the caller of
    /// [`deal`](crate::deal) gives itself, after its workers have returned, call no gate.
    fn pass(&mut self, number: u8);

    /// It is called within a turn, right before each step on memory that workers share, with the
    /// number of the item. A shop whose turns make no such steps calls it never.
    fn step(&self, number: u8);
}

/// The gate that does nothing.
#[derive(Drop)]
pub struct Through;

impl Gate for Through {
    fn pass(&mut self, _: u8) {}

    fn step(&self, _: u8) {}
}

/// Where items are worked. Workers share it.
pub trait Shop<D: Deal> {
    ghost use Rattle.kit_deal.specs.Dealings.{is_last_turn};

    /// Works an item for one turn: it calls `pass` of the gate, and then does something, or finds
    /// nothing to do.
    fn work<G: Gate>(&self, gate: &mut G, item: D::Item) -> (D::Item, Activity)
        requires fits { D.Fits item }
        requires goes_on { D.has_ended item ≡ false }
        ensures number { D.number result.0 ≡ D.number item }
        ensures fits { D.Fits result.0 }
        ensures ended { D.has_ended result.0 ≡ is_last_turn result.1 };
}

/// What a worker holds, and its parts of the right to know the whole. No value of it is made.
pub struct Hand {
    /// Its parts. All parts together are 1024, so there are at most as many workers.
    pub parts: u64,
    /// The numbers of the items that the worker holds, kept ones among them.
    pub held: LinkedList<u64>,
}
