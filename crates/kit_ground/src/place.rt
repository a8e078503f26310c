//! What a seat knows. Contracts alone see it: no value of these types is made, but for `Deed`.
use crate::Reg;
use std::collections::LinkedList;

/// What a step did.
#[derive(Clone, Copy)]
pub enum Deed {
    /// It looked at a register and found this word.
    Looked {
        reg: Reg,
        word: u64,
    },
    /// It published this word in an own register.
    Published {
        reg: Reg,
        word: u64,
    },
    /// It set the stop word.
    Stopped,
    /// It looked whether the stop word was set.
    SawStop {
        set: bool,
    },
    /// It looked whether the count of an own buffer was 0.
    SawFree {
        buffer: u16,
        free: bool,
    },
    /// It wrote a content word of an own buffer.
    Wrote {
        buffer: u16,
        part: u8,
        word: u64,
    },
    /// It charged an own buffer with the federates of this mask.
    Charged {
        buffer: u16,
        mask: u16,
    },
    /// It posted an own buffer to this federate.
    PostedTo {
        buffer: u16,
        to: u8,
    },
    /// It collected this mail word of this federate.
    Collected {
        from: u8,
        word: u8,
        mail: u64,
    },
    /// It read a content word of a buffer of this federate.
    ReadPart {
        from: u8,
        buffer: u16,
        part: u8,
        word: u64,
    },
    /// It released a buffer of this federate.
    Released {
        from: u8,
        buffer: u16,
    },
}

/// A look at a word: at which of the seat's steps, counted from 1, and what it gave. 0 before the
/// first.
pub struct Glance<T> {
    pub step: u64,
    pub gave: T,
}

/// What the owner knows of one of its buffers.
pub struct Buffer {
    /// It was seen free, and not charged since.
    pub free: bool,
    /// The content words that were last written; 0 before.
    pub head: u64,
    pub body: u64,
    /// Whether they were written since the buffer was last charged.
    pub has_head: bool,
    pub has_body: bool,
    /// The federates that it is still to be posted to, as a mask.
    pub to_post: u64,
}

/// What a seat has in hand: its own buffers, and for each federate which of its buffers the seat is
/// holding, as a mask with a bit for each buffer, however many there are.
pub struct SeatBuffers {
    pub buffers: LinkedList<Buffer>,
    pub holds: LinkedList<u64>,
}

/// What a seat knows of itself, whatever its client is.
pub struct SeatState {
    pub number: u64,
    pub federates: u64,
    pub buffers: u64,
    /// How many steps it has made, how many of them were looks at a register, and how many set the
    /// stop word.
    pub steps: u64,
    pub looks: u64,
    pub stops: u64,
    /// The last look at each register of each federate, 13 for each.
    pub registers: LinkedList<Glance<u64>>,
    /// The last look at the count of each own buffer: whether it was free.
    pub counts: LinkedList<Glance<bool>>,
    /// The last collect of each mail word of each federate, those of one federate side by side.
    pub mail: LinkedList<Glance<u64>>,
    /// The last look at the stop word: whether it was set.
    pub stop: Glance<bool>,
    /// The word that it last published in each own register; 0 before.
    pub shown: LinkedList<u64>,
    /// How often it has collected each mail word of each federate.
    pub collects: LinkedList<u64>,
    pub stock: SeatBuffers,
}

/// A seat's place in the world: what it knows of itself, and what its client's view is.
pub struct Place<V> {
    pub own: SeatState,
    pub client: V,
}
