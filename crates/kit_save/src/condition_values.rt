//! Operands and conditions as values of JSON.

ghost use Rattle.std.specs.Prelude.{◌≡◌, length, IfOk, All};
ghost use Rattle.serde_json.specs.View.{view};
ghost use Rattle.kit_rules.specs.Federation.{AreVars, IsOperand, IsCond};
ghost use Rattle.kit_save.specs.Values.{operand_value, comparison_name, cond_value, list_value};

use crate::objects::{ObjectWriter, count};
use crate::texts::{text_value, var_name_value};
use kit_rules::{Compare, Cond, Operand, Var};
use serde_json::Value;
use std::alloc::{AllocError, Global};

/// An operand of a federate with these variables.
pub(crate) fn operand_value(
    alloc: Global,
    vars: &[Var],
    operand: Operand,
) -> Result<Value, AllocError>
    requires vars { AreVars vars.now }
    requires sound { IsOperand (length vars.now) operand }
    ensures { IfOk result (λ value. view value ≡ operand_value vars.now operand) }
{
    match operand {
        Operand::Num(number) => Ok(count(number as u64)),
        Operand::Var(place) => var_name_value(alloc, vars, place),
        Operand::Now => text_value(alloc, "$now"),
        Operand::Value => text_value(alloc, "$value"),
    }
}

/// A comparison, by its name.
fn comparison_name(test: Compare) -> &'static str
    ensures { result.now ≡ comparison_name test }
{
    match test {
        Compare::Lt => "lt",
        Compare::Le => "le",
        Compare::Eq => "eq",
        Compare::Ne => "ne",
        Compare::Ge => "ge",
        Compare::Gt => "gt",
    }
}

/// A condition of a federate with these variables.
pub(crate) fn cond_value(alloc: Global, vars: &[Var], cond: &Cond) -> Result<Value, AllocError>
    requires vars { AreVars vars.now }
    requires sound { IsCond (length vars.now) cond.now }
    ensures { IfOk result (λ value. view value ≡ cond_value vars.now cond.now) }
{
    let mut object = ObjectWriter::new(alloc);
    object.put(alloc, "is", text_value(alloc, comparison_name(cond.test))?)?;
    object.put(alloc, "left", operand_value(alloc, vars, cond.left)?)?;
    object.put(alloc, "right", operand_value(alloc, vars, cond.right)?)?;
    Ok(object.into_value())
}

/// Conditions, as a list.
pub(crate) fn conds_value(alloc: Global, vars: &[Var], conds: &[Cond]) -> Result<Value, AllocError>
    requires vars { AreVars vars.now }
    requires sound { All (IsCond (length vars.now)) conds.now }
    ensures { IfOk result (λ value. view value ≡ list_value (cond_value vars.now) conds.now) }
{
    let mut items = Vec::new(alloc);
    for cond in conds {
        items.push(cond_value(alloc, vars, cond)?)?;
    }
    Ok(Value::Array(items))
}
