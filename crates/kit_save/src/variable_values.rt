//! Variables as values of JSON.

ghost use Rattle.std.specs.Prelude.{◌≡◌, IfOk, All};
ghost use Rattle.serde_json.specs.View.{view};
ghost use Rattle.kit_rules.specs.Names.{IsName};
ghost use Rattle.kit_save.specs.Values.{var_value, list_value};

use crate::objects::{ObjectWriter, count};
use crate::texts::name_value;
use kit_rules::Var;
use serde_json::Value;
use std::alloc::{AllocError, Global};

/// A variable, with its value before anything ran.
pub(crate) fn var_value(alloc: Global, var: &Var) -> Result<Value, AllocError>
    requires { IsName var.now.name }
    ensures { IfOk result (λ value. view value ≡ var_value var.now) }
{
    let mut object = ObjectWriter::new(alloc);
    object.put(alloc, "name", name_value(alloc, &var.name)?)?;
    object.put(alloc, "value", count(var.value as u64))?;
    Ok(object.into_value())
}

/// Variables, as a list.
pub(crate) fn vars_value(alloc: Global, vars: &[Var]) -> Result<Value, AllocError>
    requires { All (λ (v : Var). IsName v.name) vars.now }
    ensures { IfOk result (λ value. view value ≡ list_value var_value vars.now) }
{
    let mut items = Vec::new(alloc);
    for var in vars {
        items.push(var_value(alloc, var)?)?;
    }
    Ok(Value::Array(items))
}
