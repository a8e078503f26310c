//! Actions and triggers as values of JSON.

ghost use Rattle.std.specs.Prelude.{◌≡◌, ◌<◌, length, IfOk, IfSome, All};
ghost use Rattle.serde_json.specs.Data.{string, object, no_members, put};
ghost use Rattle.serde_json.specs.View.{view};
ghost use Rattle.kit_rules.specs.declared.table.Action.TheVariants as variant;
ghost use Rattle.kit_rules.specs.Federation.{AreVars, IsOperand, IsAction, IsTrigger};
ghost use Rattle.kit_rules.specs.Names.{IsName};
ghost use Rattle.kit_file.specs.Names.{var_name};
ghost use Rattle.kit_save.specs.Values.{name_at, operand_value, action_value, list_value};
ghost use Rattle.kit_save.specs.Values.{trigger_value};

use crate::condition_values::operand_value;
use crate::objects::{ObjectWriter, count};
use crate::texts::{group_name_value, text_value, var_name_value};
use kit_rules::{Action, Federate, Group, Operand, Trigger, Var};
use serde_json::Value;
use std::alloc::{AllocError, Global};

/// A value alone under a key.
fn alone(alloc: Global, key: &str, value: Value) -> Result<Value, AllocError>
    ensures { IfOk result (λ made. view made ≡ object (put key.now (view value) no_members)) }
{
    let mut object = ObjectWriter::new(alloc);
    object.put(alloc, key, value)?;
    Ok(object.into_value())
}

/// A trigger where these are the groups.
pub(crate) fn trigger_value(
    alloc: Global,
    groups: &[Group],
    trigger: Trigger,
) -> Result<Value, AllocError>
    requires names { All (λ (g : Group). IsName g.name) groups.now }
    requires sound { IsTrigger (length groups.now) trigger }
    ensures { IfOk result (λ value. view value ≡ trigger_value groups.now trigger) }
{
    match trigger {
        Trigger::Start => text_value(alloc, "start"),
        Trigger::Grant => text_value(alloc, "grant"),
        Trigger::Got { group } => alone(alloc, "got", group_name_value(alloc, groups, group)?),
    }
}

/// A variable under the kind of its change, and an operand under its own word.
fn change_value(
    alloc: Global,
    vars: &[Var],
    kind: &str,
    var: u8,
    word: &str,
    operand: Operand,
) -> Result<Value, AllocError>
    requires vars { AreVars vars.now }
    requires there { var < length vars.now }
    requires sound { IsOperand (length vars.now) operand }
    ensures { let changed = put kind.now (string (name_at var_name vars.now var)) no_members in
        IfOk result (λ value.
        view value ≡ object (put word.now (operand_value vars.now operand) changed)) }
{
    let mut object = ObjectWriter::new(alloc);
    object.put(alloc, kind, var_name_value(alloc, vars, var)?)?;
    object.put(alloc, word, operand_value(alloc, vars, operand)?)?;
    Ok(object.into_value())
}

/// A send; where the number of the Event is kept, the variable for it stands under `keep`.
fn send_value(
    alloc: Global,
    groups: &[Group],
    vars: &[Var],
    group: u8,
    delay: u32,
    operand: Operand,
    keep: Option<u8>,
) -> Result<Value, AllocError>
    requires names { All (λ (g : Group). IsName g.name) groups.now }
    requires vars { AreVars vars.now }
    requires there { group < length groups.now }
    requires sound { IsOperand (length vars.now) operand }
    requires keep { IfSome keep (λ v. v < length vars.now) }
    ensures { IfOk result (λ value.
        view value ≡ action_value groups.now vars.now (variant.Send group delay operand keep)) }
{
    let mut object = ObjectWriter::new(alloc);
    object.put(alloc, "delay", count(delay as u64))?;
    object.put(alloc, "send", group_name_value(alloc, groups, group)?)?;
    object.put(alloc, "value", operand_value(alloc, vars, operand)?)?;
    if let Some(place) = keep {
        object.put(alloc, "keep", var_name_value(alloc, vars, place)?)?;
    }
    Ok(object.into_value())
}

/// An action of this federate, where these are the groups.
pub(crate) fn action_value(
    alloc: Global,
    groups: &[Group],
    federate: &Federate,
    action: Action,
) -> Result<Value, AllocError>
    requires names { All (λ (g : Group). IsName g.name) groups.now }
    requires vars { AreVars federate.now.vars }
    requires sound { IsAction (length groups.now) (length federate.now.vars) federate.now.lookahead action }
    ensures { IfOk result (λ value. view value ≡ action_value groups.now federate.now.vars action) }
{
    let vars = federate.vars.as_slice();
    match action {
        Action::Set { var, to } => change_value(alloc, vars, "set", var, "to", to),
        Action::Add { var, by } => change_value(alloc, vars, "add", var, "by", by),
        Action::Sub { var, by } => change_value(alloc, vars, "sub", var, "by", by),
        Action::Send {
            group,
            delay,
            value,
            keep,
        } => { send_value(alloc, groups, vars, group, delay, value, keep) }
        Action::Retract { var } => alone(alloc, "retract", var_name_value(alloc, vars, var)?),
        Action::Tar { step } => alone(alloc, "tar", count(step as u64)),
        Action::Ner { step } => alone(alloc, "ner", count(step as u64)),
    }
}

/// Actions of this federate, as a list.
pub(crate) fn actions_value(
    alloc: Global,
    groups: &[Group],
    federate: &Federate,
    actions: &[Action],
) -> Result<Value, AllocError>
    requires names { All (λ (g : Group). IsName g.name) groups.now }
    requires vars { AreVars federate.now.vars }
    requires sound { All (IsAction (length groups.now) (length federate.now.vars) federate.now.lookahead)
        actions.now }
    ensures { IfOk result (λ value.
        view value ≡ list_value (action_value groups.now federate.now.vars) actions.now) }
{
    let mut items = Vec::new(alloc);
    for action in actions {
        items.push(action_value(alloc, groups, federate, *action)?)?;
    }
    Ok(Value::Array(items))
}
