//! The generator of federations.
ghost use Rattle.std.specs.Prelude.{◌≡◌, IfOk};
ghost use Rattle.kit_gen.specs.Generator.{generated};

use crate::federates::federates_of;
use crate::groups::groups_of;
use crate::picks::pick;
use kit_rules::Federation;
use std::alloc::{AllocError, Global};

/// The end time of each generated federation.
const END: u64 = 2000;

/// The buffers of each federate: a delay is at most 8, so no more than 16 of its sends, and
/// Retractions, are timed after any of its grants.
const BUFFERS: u16 = 32;

/// The federation that the generator makes of a number, of which the last 32 bits count.
///
/// It has from 4 to 16 federates `f0`, `f1` and so on, which stand in a ring, and as many groups
/// `g0`, `g1` and so on. The members of a group are the federates one and three after its own.
/// Federates of even number ask by Time Advance Request, the others by Next Event Request. Each
/// sends to its group at each grant, adds up the values that come, and takes its last send back at
/// every third value from the federate three before. Lookaheads, steps and delays come from the
/// number. The end time is 2,000, and each federate has 32 buffers, which are enough.
///
/// It fails only for want of memory.
#[tactic(auto, unfolding(crate::specs::Generator::generated))]
pub fn federation_of(alloc: Global, number: u64) -> Result<Federation, AllocError>
    ensures { IfOk result (λ federation. federation ≡ generated number) }
{
    let seed = (number % (1 << 32)) as u32;
    let count = 4 + pick(seed, 1, 13) as u8;
    let groups = groups_of(alloc, count)?;
    let federates = federates_of(alloc, seed, count)?;
    Ok(Federation::new(END, BUFFERS, groups, federates))
}
