//! The variables of a federate.

ghost use Rattle.std.specs.Prelude.{◌≡◌, ◌+◌, length, IfOk, OnOk, ◌++◌, ◌∷◌, [], codes};
ghost use Rattle.serde_json.specs.View.{view};
ghost use Rattle.kit_walk.specs.Agreement.{Gives};
ghost use Rattle.kit_walk.specs.Reading.{within};
ghost use Rattle.kit_file.specs.Variables.{var_of, var_step, vars_of};
ghost use Rattle.kit_file.specs.SoFar.{AreNames, IsNewName};
ghost use Rattle.kit_file.specs.Names.{var_name};
ghost use Rattle.kit_walk.specs.Paths.{item_path};
ghost use Rattle.kit_rules.specs.Federation.{AreVars};

use crate::names::new_name_at;
use kit_base::Items;
use kit_rules::{MOST_VARS, Name, Var};
use kit_walk::{WalkEnd, number_at, object_here, optional_list_at};
use serde_json::Value;
use std::alloc::Global;

#[tactic(auto, unfolding(crate::specs::Variables::var_of))]
fn var_in(alloc: Global, done: &[Var], value: &Value) -> Result<Var, WalkEnd>
    ensures exact { Gives (λ v. v) result (var_of done.now (view value.now)) }
    ensures given { IfOk result (λ v. IsNewName var_name done.now v.name) }
{
    object_here(alloc, value)?;
    let name = new_name_at(alloc, value, "name", done)?;
    let number = number_at(alloc, value, "value", 0, u32::MAX as u64)?;
    Ok(Var {
        name: Name::of(alloc, name.as_bytes())?,
        value: number as u32,
    })
}

#[tactic(auto, using(kit_walk::proofs::Ends::fails_before, crate::proofs::Pushes::one_more_name), unfolding(crate::specs::Variables::var_step))]
fn push_var(alloc: Global, i: usize, done: &mut Items<Var>, value: &Value) -> Result<(), WalkEnd>
    requires { AreNames var_name done.old }
    ensures exact { Gives (λ _. done.new) result (var_step i done.old (view value.now)) }
    ensures given { OnOk result (AreNames var_name done.new) }
    ensures count { OnOk result (length done.new ≡ length done.old + 1) }
{
    match var_in(alloc, done.as_slice(), value) {
        Ok(var) => {
            done.push(var)?;
            Ok(())
        }
        Err(end) => Err(end.under_item(alloc, "vars", i)),
    }
}

#[tactic(auto, using(crate::proofs::Pushes::no_names), unfolding(crate::specs::Variables::vars_of))]
pub(crate) fn vars_in(alloc: Global, value: &Value) -> Result<Items<Var>, WalkEnd>
    ensures exact { Gives (λ v. v) result (vars_of (view value.now)) }
    ensures sound { IfOk result (λ v. AreVars v) }
{
    let items = optional_list_at(alloc, value, "vars", MOST_VARS)?;
    let mut done = Items::new(alloc);
    for (i, item) in items.iter().enumerate() {
        push_var(alloc, i, &mut done, item)?;
    }
    Ok(done)
}
