//! Whether what a run came to is what the sequential simulation allows.
ghost use Rattle.kit_replay.specs.Reports.{AreWholeParts};
ghost use Rattle.kit_runner.specs.Runs.{IsRan};

use kit_node::{End, NodeReport};
use kit_oracle::{OracleEnd, need, simulate};
use kit_report::text;
use kit_rules::Federation;
use kit_runner::Ran;
use kit_telling::histories_text;
use std::alloc::{AllocError, Global};

/// The text of the simulation.
fn simulated(alloc: Global, federation: &Federation) -> Result<Vec<u8>, OracleEnd> {
    let history = simulate(alloc, federation)?;
    let text = text(alloc, federation, &history)?;
    Ok(text)
}

/// Whether the text of a run that is done is that of the simulation.
fn is_same_text(
    alloc: Global,
    federation: &Federation,
    nodes: &[NodeReport],
) -> Result<bool, AllocError>
    requires { AreWholeParts federation.now nodes.now }
{
    let text = histories_text(alloc, federation, nodes)?;
    match simulated(alloc, federation) {
        Ok(wanted) => Ok(text.as_slice() == wanted.as_slice()),
        Err(OracleEnd::NoMemory) => Err(AllocError),
        Err(OracleEnd::SendsSpent { .. }) => Ok(false),
    }
}

/// Whether a federate needs more buffers than it has.
fn is_short(alloc: Global, federation: &Federation, federate: u8) -> Result<bool, AllocError> {
    match need(alloc, federation) {
        Ok(needs) => match needs.as_slice().get(usize::from(federate)) {
            Some(need) => Ok(*need > federation.buffers()),
            None => Ok(false),
        },
        // Then there is no need to compare with.
        Err(OracleEnd::SendsSpent { .. }) => Ok(true),
        Err(OracleEnd::NoMemory) => Err(AllocError),
    }
}

/// Whether the simulation spends its numbers.
fn is_spent(alloc: Global, federation: &Federation) -> Result<bool, AllocError> {
    match need(alloc, federation) {
        Ok(_) => Ok(false),
        Err(OracleEnd::SendsSpent { .. }) => Ok(true),
        Err(OracleEnd::NoMemory) => Err(AllocError),
    }
}

/// Whether a run came to what the simulation allows: to its text; or to a federate that had too few
/// buffers, where it needs more than it has; or to spent numbers, where the simulation spends them.
pub fn is_as_simulated(
    alloc: Global,
    federation: &Federation,
    ran: &Ran,
) -> Result<bool, AllocError>
    requires { IsRan federation.now ran.now.end ran.now.nodes.items ran.now.account }
{
    match ran.end {
        End::Done => is_same_text(alloc, federation, &ran.nodes),
        End::NoBuffer {
            federate,
            number: _,
        } => is_short(alloc, federation, federate),
        End::SendsSpent { federate: _ } => is_spent(alloc, federation),
        End::NoMemory => Err(AllocError),
        End::Unfinished { .. } | End::RoundsSpent { .. } => Ok(false),
    }
}
