//! What a federate knows. Contracts alone see it: no value of these types is made, but for
//! `Letter`.
use std::collections::LinkedList;

/// What a buffer carries: its two content words.
#[derive(Clone, Copy, Debug, PartialEq, Eq)]
pub struct Letter {
    pub head: u64,
    pub body: u64,
}

/// A buffer whose head was read, and whose body is still to be read.
pub struct Reading {
    pub from: u64,
    pub buffer: u64,
    pub head: u64,
}

/// A letter that was read whole, and the federate that it came from.
pub struct Receipt {
    pub from: u64,
    pub letter: Letter,
}

/// A letter that a federate charged a buffer with, and for whom: the mask of its receivers.
pub struct Sent {
    pub to: u64,
    pub letter: Letter,
}

/// A federate's view.
pub struct CourierView {
    /// The clock of each federate, as it was last looked at; 0 before.
    pub known: LinkedList<u64>,
    /// The letters that it charged a buffer with, in order.
    pub sent: LinkedList<Sent>,
    /// The buffer that it is reading.
    pub reading: Option<Reading>,
    /// The letters that it read, in order.
    pub got: LinkedList<Receipt>,
}
