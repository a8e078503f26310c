//! Names as values of JSON.

ghost use Rattle.std.specs.Prelude.{◌≡◌, ◌<◌, length, IfOk, All};
ghost use Rattle.serde_json.specs.Data.{string};
ghost use Rattle.serde_json.specs.View.{view};
ghost use Rattle.kit_rules.specs.Federation.{AreVars};
ghost use Rattle.kit_rules.specs.Names.{IsName};
ghost use Rattle.kit_file.specs.Names.{var_name, group_name};
ghost use Rattle.kit_save.specs.Values.{name_at};

use kit_rules::{Group, Name, Var};
use serde_json::Value;
use std::alloc::{AllocError, Global};

/// A text.
pub(crate) fn text_value(alloc: Global, text: &str) -> Result<Value, AllocError>
    ensures { IfOk result (λ value. view value ≡ string text.now) }
{
    Ok(Value::String(String::from_str(alloc, text)?))
}

/// A name: its bytes are ASCII, and so a text.
pub(crate) fn name_value(alloc: Global, name: &Name) -> Result<Value, AllocError>
    requires { IsName name.now }
    ensures { IfOk result (λ value. view value ≡ string name.now) }
{
    match str::from_utf8(name.bytes()) {
        Ok(text) => text_value(alloc, text),
        Err(_) => unreachable!(),
    }
}

/// The name of the variable at a place.
pub(crate) fn var_name_value(alloc: Global, vars: &[Var], place: u8) -> Result<Value, AllocError>
    requires vars { AreVars vars.now }
    requires there { place < length vars.now }
    ensures { IfOk result (λ value. view value ≡ string (name_at var_name vars.now place)) }
{
    name_value(alloc, &vars[place as usize].name)
}

/// The name of the group at a place.
pub(crate) fn group_name_value(
    alloc: Global,
    groups: &[Group],
    place: u8,
) -> Result<Value, AllocError>
    requires names { All (λ (g : Group). IsName g.name) groups.now }
    requires there { place < length groups.now }
    ensures { IfOk result (λ value. view value ≡ string (name_at group_name groups.now place)) }
{
    name_value(alloc, &groups[place as usize].name)
}
