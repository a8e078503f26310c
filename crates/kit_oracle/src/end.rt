ghost use Rattle.std.specs.Prelude.{◌≡◌};
ghost use Rattle.kit_oracle.specs.declared.end.OracleEnd.TheVariants.{NoMemory};
ghost use Rattle.kit_oracle.specs.Ends.{oracle_end};

use kit_rules::ApplyEnd;
use std::alloc::{AllocError, AllocFailed};

/// How a simulation ends without a history.
#[derive(Clone, Copy, Debug, PartialEq, Eq, thiserror::Error)]
pub enum OracleEnd {
    /// A federate takes number 16,385: it is the first in the order of the simulation.
    #[error("federate {federate} would take number 16,385 for a message")]
    SendsSpent { federate: u8 },
    /// Memory ran out.
    #[error("memory ran out")]
    NoMemory,
}

impl From<AllocError> for OracleEnd {
    ghost from_gives = { λ _ e. e ≡ NoMemory };

    fn from(_: AllocError) -> OracleEnd {
        OracleEnd::NoMemory
    }
}

impl<T: Drop> From<AllocFailed<T>> for OracleEnd {
    ghost from_gives = { λ _ e. e ≡ NoMemory };

    fn from(_: AllocFailed<T>) -> OracleEnd {
        OracleEnd::NoMemory
    }
}

/// The end of a simulation in which this federate could not go on.
pub fn end_of(end: ApplyEnd, federate: u8) -> OracleEnd
    ensures { result ≡ oracle_end end federate }
{
    match end {
        ApplyEnd::SendsSpent => OracleEnd::SendsSpent { federate },
        ApplyEnd::NoMemory => OracleEnd::NoMemory,
    }
}
