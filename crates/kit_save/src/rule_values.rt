//! Rules as values of JSON.

ghost use Rattle.std.specs.Prelude.{◌≡◌, length, IfOk, All};
ghost use Rattle.serde_json.specs.View.{view};
ghost use Rattle.kit_rules.specs.Federation.{AreVars, IsRule};
ghost use Rattle.kit_rules.specs.Names.{IsName};
ghost use Rattle.kit_save.specs.Values.{rule_value, list_value};

use crate::action_values::{actions_value, trigger_value};
use crate::condition_values::conds_value;
use crate::objects::ObjectWriter;
use kit_rules::{Federate, Group, Rule};
use serde_json::Value;
use std::alloc::{AllocError, Global};

/// A rule of this federate, where these are the groups.
pub(crate) fn rule_value(
    alloc: Global,
    groups: &[Group],
    federate: &Federate,
    rule: &Rule,
) -> Result<Value, AllocError>
    requires names { All (λ (g : Group). IsName g.name) groups.now }
    requires vars { AreVars federate.now.vars }
    requires sound { IsRule (length groups.now) (length federate.now.vars) federate.now.lookahead rule.now }
    ensures { IfOk result (λ value. view value ≡ rule_value groups.now federate.now.vars rule.now) }
{
    let mut object = ObjectWriter::new(alloc);
    object.put(
        alloc,
        "do",
        actions_value(alloc, groups, federate, rule.actions.as_slice())?,
    )?;
    object.put(
        alloc,
        "if",
        conds_value(alloc, federate.vars.as_slice(), rule.conds.as_slice())?,
    )?;
    object.put(alloc, "on", trigger_value(alloc, groups, rule.on)?)?;
    Ok(object.into_value())
}

/// The rules of this federate, as a list.
pub(crate) fn rules_value(
    alloc: Global,
    groups: &[Group],
    federate: &Federate,
) -> Result<Value, AllocError>
    requires names { All (λ (g : Group). IsName g.name) groups.now }
    requires vars { AreVars federate.now.vars }
    requires sound { All (IsRule (length groups.now) (length federate.now.vars) federate.now.lookahead)
        federate.now.rules }
    ensures { IfOk result (λ value.
        view value ≡ list_value (rule_value groups.now federate.now.vars) federate.now.rules) }
{
    let rules = federate.rules.as_slice();
    let mut items = Vec::new(alloc);
    for rule in rules {
        items.push(rule_value(alloc, groups, federate, rule)?)?;
    }
    Ok(Value::Array(items))
}
