use kit_queue::Entry;

/// An entry, and where it stands: its row and its place there.
#[derive(Clone, Copy, Debug, PartialEq, Eq)]
pub(crate) struct Spot {
    pub(crate) row: usize,
    pub(crate) at: usize,
    pub(crate) entry: Entry,
}

/// Which entries are looked for.
#[derive(Clone, Copy, Debug, PartialEq, Eq)]
pub(crate) enum Sought {
    Any,
    /// Timed below this, with a buffer.
    Settleable(u64),
    /// Of this sender and number.
    Numbered(u8, u16),
}
