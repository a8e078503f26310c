//! Groups as values of JSON.

ghost use Rattle.std.specs.Prelude.{◌≡◌, ◌≤◌, length, IfOk, All};
ghost use Rattle.serde_json.specs.Data.{string};
ghost use Rattle.serde_json.specs.View.{view};
ghost use Rattle.kit_rules.specs.Limits.{most_federates};
ghost use Rattle.kit_rules.specs.Names.{IsName};
ghost use Rattle.kit_save.specs.Values.{member_names, group_value, list_value};

use crate::objects::ObjectWriter;
use crate::texts::name_value;
use kit_rules::{Federate, Group};
use serde_json::Value;
use std::alloc::{AllocError, Global};

/// The names of a group's members, in the order of the federates.
fn members_value(alloc: Global, federates: &[Federate], group: &Group) -> Result<Value, AllocError>
    requires names { All (λ (f : Federate). IsName f.name) federates.now }
    requires few { length federates.now ≤ most_federates }
    ensures { IfOk result (λ value.
        view value ≡ list_value string (member_names group.now.members 0 federates.now)) }
{
    let mut items = Vec::new(alloc);
    for (j, federate) in federates.iter().enumerate() {
        let bit = 1u16 << j;
        if group.members & bit != 0 {
            items.push(name_value(alloc, &federate.name)?)?;
        }
    }
    Ok(Value::Array(items))
}

/// A group of these federates.
fn group_value(alloc: Global, federates: &[Federate], group: &Group) -> Result<Value, AllocError>
    requires names { All (λ (f : Federate). IsName f.name) federates.now }
    requires few { length federates.now ≤ most_federates }
    requires name { IsName group.now.name }
    ensures { IfOk result (λ value. view value ≡ group_value federates.now group.now) }
{
    let mut object = ObjectWriter::new(alloc);
    object.put(alloc, "members", members_value(alloc, federates, group)?)?;
    object.put(alloc, "name", name_value(alloc, &group.name)?)?;
    Ok(object.into_value())
}

/// Groups, as a list.
pub(crate) fn groups_value(
    alloc: Global,
    federates: &[Federate],
    groups: &[Group],
) -> Result<Value, AllocError>
    requires names { All (λ (f : Federate). IsName f.name) federates.now }
    requires few { length federates.now ≤ most_federates }
    requires sound { All (λ (g : Group). IsName g.name) groups.now }
    ensures { IfOk result (λ value.
        view value ≡ list_value (group_value federates.now) groups.now) }
{
    let mut items = Vec::new(alloc);
    for group in groups {
        items.push(group_value(alloc, federates, group)?)?;
    }
    Ok(Value::Array(items))
}
