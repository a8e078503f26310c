//! Which federates are time-regulating, and with which lookahead.

ghost use Rattle.std.specs.Prelude.{◌≡◌, IfOk, IfSome};
ghost use Rattle.serde_json.specs.View.{view};
ghost use Rattle.kit_rules.specs.Federation.{IsStep};
ghost use Rattle.kit_walk.specs.Agreement.{Gives};
ghost use Rattle.kit_file.specs.Lookaheads.{regulating_of, lookahead_of, needed_lookahead};

use kit_rules::MOST_TIME;
use kit_walk::{Fault, FaultKind, WalkEnd, number_at};
use serde_json::Value;
use std::alloc::Global;

#[tactic(auto, unfolding(crate::specs::Lookaheads::regulating_of))]
fn regulating_at(alloc: Global, version: u64, value: &Value) -> Result<bool, WalkEnd>
    ensures { Gives (λ b. b) result (regulating_of version (view value.now)) }
{
    if version == 1 {
        return Ok(true);
    }
    let Some(found) = value.get("regulating") else {
        return Ok(true);
    };
    match found.as_bool() {
        Some(regulating) => Ok(regulating),
        None => Err(WalkEnd::Fault(Fault::at_key(alloc, FaultKind::WrongKind, "regulating")?)),
    }
}

#[tactic(auto, unfolding(crate::specs::Lookaheads::lookahead_of))]
pub(crate) fn lookahead_at(
    alloc: Global,
    version: u64,
    value: &Value,
) -> Result<Option<u32>, WalkEnd>
    ensures exact { Gives (λ l. l) result (lookahead_of version (view value.now)) }
    ensures sound { IfOk result (λ l. IfSome l IsStep) }
{
    let regulating = regulating_at(alloc, version, value)?;
    if !regulating {
        return Ok(None);
    }
    let lookahead = number_at(alloc, value, "lookahead", 1, MOST_TIME)?;
    Ok(Some(lookahead as u32))
}

/// The lookahead of a federate, which an action of the kind of this key needs.
pub(crate) fn needed_at(alloc: Global, lookahead: Option<u32>, key: &str) -> Result<u32, WalkEnd>
    ensures exact { Gives (λ l. l) result (needed_lookahead key.now lookahead) }
    ensures sound { IfOk result (λ l. lookahead ≡ Some l) }
{
    match lookahead {
        Some(lookahead) => Ok(lookahead),
        None => Err(WalkEnd::Fault(Fault::at_key(alloc, FaultKind::NotRegulating, key)?)),
    }
}
