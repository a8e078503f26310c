//! The places of an action that sends.

ghost use Rattle.std.specs.Prelude.{◌≡◌, ◌<◌, ◌≤◌, codes, length, IfOk, IfSome};
ghost use Rattle.kit_rules.specs.Limits.{most_time, most_vars};
ghost use Rattle.kit_walk.specs.Agreement.{Gives};
ghost use Rattle.kit_file.specs.Names.{itself, var_name, reference};
ghost use Rattle.kit_regions.specs.Limits.{most_updates};
ghost use Rattle.kit_file.specs.Operands.{operand_of};
ghost use Rattle.kit_file.specs.Actions.{keep_of, delay_of, send_of};
ghost use Rattle.serde_json.specs.View.{view};
ghost use Rattle.serde_json.specs.Find.{get};
ghost use Rattle.kit_rules.specs.Federation.{IsAction};

use crate::lookaheads::needed_at;
use crate::names::reference_at;
use crate::operands::operand_at;
use kit_rules::{Action, MOST_TIME, Name, Var};
use kit_walk::{Fault, FaultKind, WalkEnd, number_at};
use serde_json::Value;
use std::alloc::Global;

fn keep_at(alloc: Global, value: &Value, vars: &[Var]) -> Result<Option<u8>, WalkEnd>
    requires { length vars.now ≤ most_vars }
    ensures exact { Gives (λ k. k) result
        (keep_of vars.now (view value.now) (get (codes "keep") (view value.now))) }
    ensures sound { IfOk result (λ k. IfSome k (λ v. v < length vars.now)) }
{
    match value.get("keep") {
        None => Ok(None),
        Some(_) => Ok(Some(reference_at(alloc, value, "keep", vars)?)),
    }
}

#[tactic(auto, unfolding(crate::specs::Actions::delay_of))]
fn delay_at(alloc: Global, value: &Value, least: u32) -> Result<u32, WalkEnd>
    ensures exact { Gives (λ n. n) result (delay_of least (view value.now)) }
    ensures low { IfOk result (λ n. least ≤ n) }
    ensures high { IfOk result (λ n. n ≤ most_time) }
{
    let delay = number_at(alloc, value, "delay", 0, MOST_TIME)?;
    if least as u64 <= delay {
        Ok(delay as u32)
    } else {
        Err(WalkEnd::Fault(Fault::at_key(alloc, FaultKind::SendTooSoon, "delay")?))
    }
}

#[tactic(auto, unfolding(crate::specs::Actions::send_of))]
pub(crate) fn send_in(
    alloc: Global,
    targets: &[Name],
    vars: &[Var],
    lookahead: Option<u32>,
    value: &Value,
) -> Result<Action, WalkEnd>
    requires targets { length targets.now ≤ most_updates }
    requires vars { length vars.now ≤ most_vars }
    ensures exact { Gives (λ a. a) result
        (send_of targets.now vars.now lookahead (view value.now)) }
    ensures sound { IfOk result (λ a. IsAction (length targets.now) (length vars.now) lookahead a) }
{
    let least = needed_at(alloc, lookahead, "send")?;
    let group = reference_at(alloc, value, "send", targets)?;
    let delay = delay_at(alloc, value, least)?;
    let operand = operand_at(alloc, value, "value", vars)?;
    let keep = keep_at(alloc, value, vars)?;
    Ok(Action::Send {
        group,
        delay,
        value: operand,
        keep,
    })
}
