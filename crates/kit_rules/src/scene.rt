ghost use Rattle.std.specs.Prelude.{◌≡◌};
ghost use Rattle.kit_rules.specs.declared.scene.ApplyEnd.TheVariants.{NoMemory};

use crate::Wish;
use kit_base::{Items, Message};
use std::alloc::{AllocError, AllocFailed};

/// Where a rule runs.
#[derive(Clone, Copy, Debug)]
pub struct Scene {
    /// The federation's end time.
    pub end: u64,
    /// The federate whose rule it is, by its number.
    pub sender: u8,
    /// How far past its time that federate sends nothing: its lookahead, or more than the end time
    /// where it is not regulating.
    pub lookahead: u32,
    /// That federate's logical time.
    pub time: u64,
    /// The value of the message that was delivered, or 0.
    pub value: u32,
}

/// What the rules of a federate change, as contracts see it in a [`FedState`](crate::FedState).
#[derive(Debug, Drop)]
pub struct State {
    /// The variables, in the order of the table, and 0 in the places that are left.
    pub vars: [u32; 8],
    /// How the federate asks to advance.
    pub wish: Wish,
    /// The number that its next message gets, from 1 to 16,385.
    pub next: u16,
    /// All that it has sent, in the order of their numbers, transported or not.
    pub sends: Items<Message>,
}

/// Why rules were not applied.
#[derive(Clone, Copy, Debug, PartialEq, Eq, thiserror::Error)]
pub enum ApplyEnd {
    /// A message would have taken number 16,385.
    #[error("a federate has sent 16,384 messages, and has no number for one more")]
    SendsSpent,
    /// There was no memory.
    #[error("memory ran out")]
    NoMemory,
}

impl From<AllocError> for ApplyEnd {
    ghost from_gives = { λ _ e. e ≡ NoMemory };

    fn from(_: AllocError) -> ApplyEnd {
        ApplyEnd::NoMemory
    }
}

impl<T: Drop> From<AllocFailed<T>> for ApplyEnd {
    ghost from_gives = { λ _ e. e ≡ NoMemory };

    fn from(_: AllocFailed<T>) -> ApplyEnd {
        ApplyEnd::NoMemory
    }
}
