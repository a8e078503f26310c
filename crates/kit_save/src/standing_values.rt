//! What a cut keeps of federates as values of JSON.

ghost use Rattle.std.specs.Prelude.{◌≡◌, ◌≤◌, length, take, IfOk};
ghost use Rattle.std.specs.List.{zip};
ghost use Rattle.serde_json.specs.View.{view};
ghost use Rattle.kit_save.specs.Values.{list_value};
ghost use Rattle.kit_save.specs.CutValues.{numbers_value, own_value, message_value};
ghost use Rattle.kit_save.specs.CutValues.{standing_value, paired_value};

use crate::messages::{message_value, own_value};
use crate::objects::{ObjectWriter, count};
use crate::requests::{request_value, wish_value};
use kit_base::Message;
use kit_cut::Standing;
use kit_rules::{Federate, Federation, Own};
use serde_json::Value;
use std::alloc::{AllocError, Global};

/// The values of a federate's variables.
fn variables_value(
    alloc: Global,
    federate: &Federate,
    standing: &Standing,
) -> Result<Value, AllocError>
    requires { length federate.now.vars ≤ 8 }
    ensures { IfOk result (λ value. view value
        ≡ numbers_value (take (length federate.now.vars) standing.entry.now.vars)) }
{
    let values = &standing.vars[..federate.vars.len()];
    let mut items = Vec::new(alloc);
    for value in values {
        items.push(count(*value as u64))?;
    }
    Ok(Value::Array(items))
}

/// Own Events, as a list.
fn own_values(alloc: Global, own: &[Own]) -> Result<Value, AllocError>
    ensures { IfOk result (λ value. view value ≡ list_value own_value own.now) }
{
    let mut items = Vec::new(alloc);
    for event in own {
        items.push(own_value(alloc, event)?)?;
    }
    Ok(Value::Array(items))
}

/// Pending messages, as a list.
fn pending_values(alloc: Global, pending: &[Message]) -> Result<Value, AllocError>
    ensures { IfOk result (λ value. view value ≡ list_value message_value pending.now) }
{
    let mut items = Vec::new(alloc);
    for message in pending {
        items.push(message_value(alloc, message)?)?;
    }
    Ok(Value::Array(items))
}

/// What a cut keeps of a federate.
fn standing_value(
    alloc: Global,
    federate: &Federate,
    standing: &Standing,
) -> Result<Value, AllocError>
    requires { length federate.now.vars ≤ 8 }
    ensures { IfOk result (λ value.
        view value ≡ standing_value federate.now standing.entry.now) }
{
    let mut object = ObjectWriter::new(alloc);
    object.put(alloc, "now", count(standing.now))?;
    object.put(alloc, "own", own_values(alloc, standing.own.as_slice())?)?;
    let pending = pending_values(alloc, standing.pending.as_slice())?;
    object.put(alloc, "pending", pending)?;
    let variables = variables_value(alloc, federate, standing)?;
    object.put(alloc, "vars", variables)?;
    object.put(alloc, "wish", wish_value(alloc, standing.wish)?)?;
    if let Some(request) = standing.request {
        object.put(alloc, "request", request_value(alloc, request)?)?;
    }
    Ok(object.into_value())
}

/// What a cut keeps of each federate, as a list.
pub(crate) fn standings_value(
    alloc: Global,
    federation: &Federation,
    standings: &[Standing],
) -> Result<Value, AllocError>
    requires { length standings.now ≡ length federation.now.federates }
    ensures { IfOk result (λ value. view value
        ≡ list_value paired_value (zip federation.now.federates standings.now)) }
{
    let federates = federation.federates();
    let mut items = Vec::new(alloc);
    for (i, federate) in federates.iter().enumerate() {
        items.push(standing_value(alloc, federate, &standings[i])?)?;
    }
    Ok(Value::Array(items))
}
