//! The names of the federates.

ghost use Rattle.std.specs.Prelude.{◌≡◌, ◌+◌, IfOk, OnOk, ◌<◌, ◌≤◌, ◌++◌, ◌∷◌, [], codes, map};
ghost use Rattle.std.specs.Prelude.{length};
ghost use Rattle.serde_json.specs.View.{view};
ghost use Rattle.kit_walk.specs.Agreement.{Gives};
ghost use Rattle.kit_walk.specs.Reading.{within};
ghost use Rattle.kit_file.specs.SoFar.{AreNames, IsNewName};
ghost use Rattle.kit_file.specs.Names.{itself};
ghost use Rattle.kit_file.specs.FederateNames.{federate_name_of, federate_name_step};
ghost use Rattle.kit_file.specs.FederateNames.{federate_names_of};
ghost use Rattle.kit_walk.specs.Paths.{item_path};

use crate::names::new_name_at;
use kit_base::Items;
use kit_rules::Name;
use kit_walk::{WalkEnd, object_here};
use serde_json::Value;
use std::alloc::Global;

#[tactic(auto, unfolding(crate::specs::FederateNames::federate_name_of))]
fn federate_name_in<'v>(alloc: Global, done: &[Name], value: &'v Value) -> Result<&'v str, WalkEnd>
    ensures exact { Gives (λ s. s.now) result (federate_name_of done.now (view value.now)) }
    ensures given { IfOk result (λ s. IsNewName itself done.now s.now) }
{
    object_here(alloc, value)?;
    new_name_at(alloc, value, "name", done)
}

#[tactic(auto, using(kit_walk::proofs::Ends::fails_before, crate::proofs::Pushes::one_more_name), unfolding(crate::specs::FederateNames::federate_name_step))]
fn push_federate_name(
    alloc: Global,
    i: usize,
    done: &mut Items<Name>,
    value: &Value,
) -> Result<(), WalkEnd>
    requires { AreNames itself done.old }
    ensures exact { Gives (λ _. done.new) result (federate_name_step i done.old (view value.now)) }
    ensures given { OnOk result (AreNames itself done.new) }
    ensures count { OnOk result (length done.new ≡ length done.old + 1) }
{
    match federate_name_in(alloc, done.as_slice(), value) {
        Ok(name) => {
            done.push(Name::of(alloc, name.as_bytes())?)?;
            Ok(())
        }
        Err(end) => Err(end.under_item(alloc, "federates", i)),
    }
}

#[tactic(auto, using(crate::proofs::Pushes::no_names), unfolding(crate::specs::FederateNames::federate_names_of))]
pub(crate) fn federate_names_in(alloc: Global, items: &[Value]) -> Result<Items<Name>, WalkEnd>
    ensures exact { Gives (λ v. v) result (federate_names_of (map view items.now)) }
    ensures given { IfOk result (λ v. AreNames itself v) }
    ensures count { IfOk result (λ v. length v ≡ length items.now) }
{
    let mut done = Items::new(alloc);
    for (i, item) in items.iter().enumerate() {
        push_federate_name(alloc, i, &mut done, item)?;
    }
    Ok(done)
}
