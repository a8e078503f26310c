//! The groups, and the federates that are their members.

ghost use Rattle.std.specs.Prelude.{◌≡◌, ◌+◌, ◌^◌, IfOk, OnOk, ◌<◌, ◌≤◌, ◌++◌, ◌∷◌, [], codes, map};
ghost use Rattle.std.specs.Prelude.{length};
ghost use Rattle.serde_json.specs.View.{view};
ghost use Rattle.kit_rules.specs.Limits.{most_federates};
ghost use Rattle.kit_walk.specs.Agreement.{Gives};
ghost use Rattle.kit_walk.specs.Reading.{within};
ghost use Rattle.kit_file.specs.SoFar.{IsNewName, AreGroupsSoFar};
ghost use Rattle.kit_file.specs.Names.{itself, group_name};
ghost use Rattle.kit_file.specs.Groups.{member_of, member_step, members_of, group_of, group_step};
ghost use Rattle.kit_file.specs.Groups.{groups_of};
ghost use Rattle.kit_walk.specs.Paths.{item_path};
ghost use Rattle.kit_rules.specs.Federation.{IsGroup, AreGroups};

use crate::names::{new_name_at, position_in};
use kit_base::Items;
use kit_rules::{Group, MOST_FEDERATES, MOST_GROUPS, Name};
use kit_walk::{Fault, FaultKind, WalkEnd, list_at, object_here, optional_list_at};
use serde_json::Value;
use std::alloc::Global;

#[tactic(auto, using(crate::proofs::Pushes::one_more_bit), unfolding(crate::specs::Groups::member_of))]
fn with_member(alloc: Global, names: &[Name], bits: u16, value: &Value) -> Result<u16, WalkEnd>
    requires few { length names.now ≤ most_federates }
    requires fits { bits < 2 ^ length names.now }
    ensures exact { Gives (λ b. b) result (member_of names.now bits (view value.now)) }
    ensures fits { IfOk result (λ b. b < 2 ^ length names.now) }
{
    let Some(s) = value.as_str() else {
        return Err(WalkEnd::Fault(Fault::here(alloc, FaultKind::WrongKind)));
    };
    let Some(j) = position_in(names, s) else {
        return Err(WalkEnd::Fault(Fault::here(alloc, FaultKind::UnknownName)));
    };
    let bit = 1u16 << j;
    if bits & bit == 0 {
        Ok(bits | bit)
    } else {
        Err(WalkEnd::Fault(Fault::here(alloc, FaultKind::Repeated)))
    }
}

#[tactic(auto, using(kit_walk::proofs::Ends::fails_within), unfolding(crate::specs::Groups::member_step))]
fn with_item(
    alloc: Global,
    names: &[Name],
    i: usize,
    bits: u16,
    value: &Value,
) -> Result<u16, WalkEnd>
    requires few { length names.now ≤ most_federates }
    requires fits { bits < 2 ^ length names.now }
    ensures exact { Gives (λ b. b) result (member_step names.now i bits (view value.now)) }
    ensures fits { IfOk result (λ b. b < 2 ^ length names.now) }
{
    match with_member(alloc, names, bits, value) {
        Ok(b) => Ok(b),
        Err(end) => Err(end.under_item(alloc, "members", i)),
    }
}

#[tactic(auto, unfolding(crate::specs::Groups::members_of))]
fn members_in(alloc: Global, names: &[Name], value: &Value) -> Result<u16, WalkEnd>
    requires few { length names.now ≤ most_federates }
    ensures exact { Gives (λ b. b) result (members_of names.now (view value.now)) }
    ensures fits { IfOk result (λ b. b < 2 ^ length names.now) }
{
    let items = list_at(alloc, value, "members", 0, MOST_FEDERATES)?;
    let mut bits = 0u16;
    for (i, item) in items.iter().enumerate() {
        bits = with_item(alloc, names, i, bits, item)?;
    }
    Ok(bits)
}

#[tactic(auto, unfolding(crate::specs::Groups::group_of))]
fn group_in(alloc: Global, names: &[Name], done: &[Group], value: &Value) -> Result<Group, WalkEnd>
    requires { length names.now ≤ most_federates }
    ensures exact { Gives (λ g. g) result (group_of names.now done.now (view value.now)) }
    ensures sound { IfOk result (λ g. IsGroup (length names.now) g) }
    ensures given { IfOk result (λ g. IsNewName group_name done.now g.name) }
{
    object_here(alloc, value)?;
    let name = new_name_at(alloc, value, "name", done)?;
    let members = members_in(alloc, names, value)?;
    Ok(Group {
        name: Name::of(alloc, name.as_bytes())?,
        members,
    })
}

#[tactic(auto, using(kit_walk::proofs::Ends::fails_before, crate::proofs::Pushes::one_more_group), unfolding(crate::specs::Groups::group_step))]
fn push_group(
    alloc: Global,
    names: &[Name],
    i: usize,
    done: &mut Items<Group>,
    value: &Value,
) -> Result<(), WalkEnd>
    requires few { length names.now ≤ most_federates }
    requires kept { AreGroupsSoFar (length names.now) done.old }
    ensures exact { Gives (λ _. done.new) result
        (group_step names.now i done.old (view value.now)) }
    ensures kept { OnOk result (AreGroupsSoFar (length names.now) done.new) }
    ensures count { OnOk result (length done.new ≡ length done.old + 1) }
{
    match group_in(alloc, names, done.as_slice(), value) {
        Ok(group) => {
            done.push(group)?;
            Ok(())
        }
        Err(end) => Err(end.under_item(alloc, "groups", i)),
    }
}

#[tactic(auto, using(crate::proofs::Pushes::no_groups), unfolding(crate::specs::Groups::groups_of))]
pub(crate) fn groups_in(
    alloc: Global,
    names: &[Name],
    value: &Value,
) -> Result<Items<Group>, WalkEnd>
    requires { length names.now ≤ most_federates }
    ensures exact { Gives (λ v. v) result (groups_of names.now (view value.now)) }
    ensures sound { IfOk result (λ v. AreGroups (length names.now) v) }
{
    let items = optional_list_at(alloc, value, "groups", MOST_GROUPS)?;
    let mut done = Items::new(alloc);
    for (i, item) in items.iter().enumerate() {
        push_group(alloc, names, i, &mut done, item)?;
    }
    Ok(done)
}
