use kit_base::Message;

/// A message that waits.
#[derive(Clone, Copy, Debug, PartialEq, Eq)]
pub struct Entry {
    /// What waits, and what the order of the entries goes by.
    pub message: Message,
    /// The number of the sender's buffer that the message still lies in, until it is settled.
    pub buffer: Option<u16>,
}
