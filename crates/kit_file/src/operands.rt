//! Operands: a number, the time, the value of the message, or a variable.

ghost use Rattle.std.specs.Prelude.{◌≡◌, ◌≤◌, length, IfOk};
ghost use Rattle.serde_json.specs.View.{view};
ghost use Rattle.kit_rules.specs.Federation.{IsOperand};
ghost use Rattle.kit_rules.specs.Limits.{most_vars};
ghost use Rattle.kit_walk.specs.Agreement.{Gives};
ghost use Rattle.kit_file.specs.Operands.{operand_text, operand_of};

use crate::names::position_in;
use kit_rules::{Operand, Var};
use kit_walk::{Fault, FaultKind, WalkEnd, are_same, member_at, number_at};
use serde_json::Value;
use std::alloc::Global;

#[tactic(auto, unfolding(crate::specs::Operands::operand_text))]
fn text_operand(alloc: Global, key: &str, vars: &[Var], s: &str) -> Result<Operand, WalkEnd>
    requires { length vars.now ≤ most_vars }
    ensures exact { Gives (λ o. o) result (operand_text key.now vars.now s.now) }
    ensures sound { IfOk result (λ o. IsOperand (length vars.now) o) }
{
    if are_same(s.as_bytes(), b"$now") {
        return Ok(Operand::Now);
    }
    if are_same(s.as_bytes(), b"$value") {
        return Ok(Operand::Value);
    }
    match position_in(vars, s) {
        Some(v) => Ok(Operand::Var(v as u8)),
        None => Err(WalkEnd::Fault(Fault::at_key(alloc, FaultKind::UnknownName, key)?)),
    }
}

#[tactic(auto, unfolding(crate::specs::Operands::operand_of))]
pub(crate) fn operand_at(
    alloc: Global,
    value: &Value,
    key: &str,
    vars: &[Var],
) -> Result<Operand, WalkEnd>
    requires { length vars.now ≤ most_vars }
    ensures exact { Gives (λ o. o) result (operand_of key.now vars.now (view value.now)) }
    ensures sound { IfOk result (λ o. IsOperand (length vars.now) o) }
{
    let found = member_at(alloc, value, key)?;
    match found.as_str() {
        Some(s) => text_operand(alloc, key, vars, s),
        None => {
            let n = number_at(alloc, value, key, 0, u32::MAX as u64)?;
            Ok(Operand::Num(n as u32))
        }
    }
}
