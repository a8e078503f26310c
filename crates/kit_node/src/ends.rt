ghost use Rattle.std.specs.Prelude.{◌≡◌};
ghost use Rattle.kit_node.specs.Ends.{answer_of};

use kit_rules::ApplyEnd;
use std::alloc::{AllocError, AllocFailed};

/// What a turn came to.
#[derive(Clone, Copy, Debug, PartialEq, Eq)]
pub enum Turn {
    /// Something was done.
    Worked,
    /// There was nothing to do.
    Idle,
    /// The end time was granted, now or in an earlier turn.
    Finished,
    /// The stop word is set; nothing was done.
    Stopped,
    /// No buffer could be had for the message of this number.
    NoBuffer { number: u16 },
    /// A message would have taken number 16,385.
    SendsSpent,
    /// Another round would have gone past the limit.
    RoundsSpent,
    /// There was no memory.
    NoMemory,
}

/// Why a node takes no further steps.
#[derive(Clone, Copy, Debug, PartialEq, Eq, thiserror::Error)]
pub enum NodeEnd {
    /// The end time was granted.
    #[error("the end time was granted")]
    Finished,
    /// No buffer could be had for the message of this number.
    #[error("no buffer could be had for message {number}")]
    NoBuffer { number: u16 },
    /// A message would have taken number 16,385.
    #[error("a message would have taken number 16,385")]
    SendsSpent,
    /// Another round would have gone past the limit.
    #[error("another round would have gone past the limit")]
    RoundsSpent,
    /// There was no memory.
    #[error("memory ran out")]
    NoMemory,
}

impl NodeEnd {
    /// What a turn of a node answers that ended so.
    pub(crate) fn turn(self) -> Turn
        ensures { result ≡ answer_of self }
    {
        match self {
            NodeEnd::Finished => Turn::Finished,
            NodeEnd::NoBuffer { number } => Turn::NoBuffer { number },
            NodeEnd::SendsSpent => Turn::SendsSpent,
            NodeEnd::RoundsSpent => Turn::RoundsSpent,
            NodeEnd::NoMemory => Turn::NoMemory,
        }
    }
}

impl From<AllocError> for NodeEnd {
    ghost use Rattle.std.specs.Prelude.{◌≡◌};
    ghost use Rattle.kit_node.specs.declared.ends.NodeEnd.TheVariants.{NoMemory};

    ghost from_gives = { λ _ e. e ≡ NoMemory };

    fn from(_: AllocError) -> NodeEnd {
        NodeEnd::NoMemory
    }
}

impl<T: Drop> From<AllocFailed<T>> for NodeEnd {
    ghost use Rattle.std.specs.Prelude.{◌≡◌};
    ghost use Rattle.kit_node.specs.declared.ends.NodeEnd.TheVariants.{NoMemory};

    ghost from_gives = { λ _ e. e ≡ NoMemory };

    fn from(_: AllocFailed<T>) -> NodeEnd {
        NodeEnd::NoMemory
    }
}

impl From<ApplyEnd> for NodeEnd {
    ghost use Rattle.std.specs.Prelude.{◌≡◌};
    ghost use Rattle.kit_node.specs.Ends.{end_of_rules};

    ghost from_gives = { λ a e. e ≡ end_of_rules a };

    fn from(end: ApplyEnd) -> NodeEnd {
        match end {
            ApplyEnd::SendsSpent => NodeEnd::SendsSpent,
            ApplyEnd::NoMemory => NodeEnd::NoMemory,
        }
    }
}

/// What a run of a federation came to.
#[derive(Clone, Copy, Debug, PartialEq, Eq, thiserror::Error)]
pub enum End {
    /// Every federate was granted the end time.
    #[error("every federate was granted the end time")]
    Done,
    /// This federate, the least of those, was not granted the end time.
    #[error("federate {federate} was not granted the end time")]
    Unfinished { federate: u8 },
    /// No buffer could be had for this message of this federate.
    #[error("federate {federate} had no buffer for message {number}")]
    NoBuffer { federate: u8, number: u16 },
    /// This federate would have taken number 16,385.
    #[error("federate {federate} would have taken number 16,385 for a message")]
    SendsSpent { federate: u8 },
    /// This federate would have gone past the limit of rounds.
    #[error("federate {federate} would have gone past the limit of rounds")]
    RoundsSpent { federate: u8 },
    /// There was no memory.
    #[error("memory ran out")]
    NoMemory,
}
