//! Federates as values of JSON.

ghost use Rattle.std.specs.Prelude.{◌≡◌, length, IfOk, All};
ghost use Rattle.serde_json.specs.View.{view};
ghost use Rattle.kit_rules.specs.Federation.{IsFederate};
ghost use Rattle.kit_rules.specs.Names.{IsName};
ghost use Rattle.kit_save.specs.Values.{federate_value, list_value};

use crate::objects::{ObjectWriter, count};
use crate::requests::wish_value;
use crate::rule_values::rules_value;
use crate::texts::name_value;
use crate::variable_values::vars_value;
use kit_rules::{Federate, Group};
use serde_json::Value;
use std::alloc::{AllocError, Global};

/// A federate, where these are the groups: regulating where it has a lookahead.
pub(crate) fn federate_value(
    alloc: Global,
    groups: &[Group],
    federate: &Federate,
) -> Result<Value, AllocError>
    requires names { All (λ (g : Group). IsName g.name) groups.now }
    requires sound { IsFederate (length groups.now) federate.now }
    ensures { IfOk result (λ value. view value ≡ federate_value groups.now federate.now) }
{
    let mut object = ObjectWriter::new(alloc);
    object.put(alloc, "advance", wish_value(alloc, federate.advance)?)?;
    object.put(alloc, "name", name_value(alloc, &federate.name)?)?;
    object.put(
        alloc,
        "regulating",
        Value::Bool(federate.lookahead.is_some()),
    )?;
    object.put(alloc, "rules", rules_value(alloc, groups, federate)?)?;
    object.put(alloc, "vars", vars_value(alloc, federate.vars.as_slice())?)?;
    if let Some(lookahead) = federate.lookahead {
        object.put(alloc, "lookahead", count(lookahead as u64))?;
    }
    Ok(object.into_value())
}

/// Federates, as a list.
pub(crate) fn federates_value(
    alloc: Global,
    groups: &[Group],
    federates: &[Federate],
) -> Result<Value, AllocError>
    requires names { All (λ (g : Group). IsName g.name) groups.now }
    requires sound { All (IsFederate (length groups.now)) federates.now }
    ensures { IfOk result (λ value. view value ≡ list_value (federate_value groups.now) federates.now) }
{
    let mut items = Vec::new(alloc);
    for federate in federates {
        items.push(federate_value(alloc, groups, federate)?)?;
    }
    Ok(Value::Array(items))
}
