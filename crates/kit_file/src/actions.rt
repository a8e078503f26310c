//! The places of an action.

ghost use Rattle.std.specs.Prelude.{◌≡◌, ◌+◌, ◌<◌, ◌≤◌, ℕ, [], ◌∷◌, Option, codes, length, map};
ghost use Rattle.std.specs.Prelude.{IfOk, OnOk, All};
ghost use Rattle.serde_json.specs.View.{view};
ghost use Rattle.serde_json.specs.Find.{get};
ghost use Rattle.kit_rules.specs.Federation.{IsAction};
ghost use Rattle.kit_rules.specs.Limits.{most_actions, most_vars};
ghost use Rattle.kit_regions.specs.Limits.{most_updates};
ghost use Rattle.kit_walk.specs.Agreement.{Gives};
ghost use Rattle.kit_file.specs.Actions.{set_of, add_of, sub_of, retract_of, tar_of, ner_of};
ghost use Rattle.kit_file.specs.Actions.{last_kinds_of, action_of, action_step, actions_of};

use crate::lookaheads::needed_at;
use crate::names::reference_at;
use crate::operands::operand_at;
use crate::sends::send_in;
use kit_base::Items;
use kit_rules::{Action, MOST_ACTIONS, MOST_TIME, Name, Var};
use kit_walk::{Fault, FaultKind, WalkEnd, list_at, number_at, object_here};
use serde_json::Value;
use std::alloc::Global;

#[tactic(auto, unfolding(crate::specs::Actions::set_of))]
fn set_in(alloc: Global, vars: &[Var], value: &Value) -> Result<Action, WalkEnd>
    requires { length vars.now ≤ most_vars }
    ensures exact { Gives (λ a. a) result (set_of vars.now (view value.now)) }
    ensures sound { (groups : ℕ) (lookahead : Option ℕ) → IfOk result
        (λ a. IsAction groups (length vars.now) lookahead a) }
{
    let var = reference_at(alloc, value, "set", vars)?;
    let to = operand_at(alloc, value, "to", vars)?;
    Ok(Action::Set { var, to })
}

#[tactic(auto, unfolding(crate::specs::Actions::add_of))]
fn add_in(alloc: Global, vars: &[Var], value: &Value) -> Result<Action, WalkEnd>
    requires { length vars.now ≤ most_vars }
    ensures exact { Gives (λ a. a) result (add_of vars.now (view value.now)) }
    ensures sound { (groups : ℕ) (lookahead : Option ℕ) → IfOk result
        (λ a. IsAction groups (length vars.now) lookahead a) }
{
    let var = reference_at(alloc, value, "add", vars)?;
    let by = operand_at(alloc, value, "by", vars)?;
    Ok(Action::Add { var, by })
}

#[tactic(auto, unfolding(crate::specs::Actions::sub_of))]
fn sub_in(alloc: Global, vars: &[Var], value: &Value) -> Result<Action, WalkEnd>
    requires { length vars.now ≤ most_vars }
    ensures exact { Gives (λ a. a) result (sub_of vars.now (view value.now)) }
    ensures sound { (groups : ℕ) (lookahead : Option ℕ) → IfOk result
        (λ a. IsAction groups (length vars.now) lookahead a) }
{
    let var = reference_at(alloc, value, "sub", vars)?;
    let by = operand_at(alloc, value, "by", vars)?;
    Ok(Action::Sub { var, by })
}

#[tactic(auto, unfolding(crate::specs::Actions::retract_of))]
fn retract_in(
    alloc: Global,
    vars: &[Var],
    lookahead: Option<u32>,
    value: &Value,
) -> Result<Action, WalkEnd>
    requires { length vars.now ≤ most_vars }
    ensures exact { Gives (λ a. a) result (retract_of vars.now lookahead (view value.now)) }
    ensures sound { (groups : ℕ) → IfOk result
        (λ a. IsAction groups (length vars.now) lookahead a) }
{
    needed_at(alloc, lookahead, "retract")?;
    let var = reference_at(alloc, value, "retract", vars)?;
    Ok(Action::Retract { var })
}

#[tactic(auto, unfolding(crate::specs::Actions::tar_of))]
fn tar_in(alloc: Global, value: &Value) -> Result<Action, WalkEnd>
    ensures exact { Gives (λ a. a) result (tar_of (view value.now)) }
    ensures sound { (groups vars : ℕ) (lookahead : Option ℕ) → IfOk result
        (λ a. IsAction groups vars lookahead a) }
{
    let step = number_at(alloc, value, "tar", 1, MOST_TIME)?;
    Ok(Action::Tar { step: step as u32 })
}

#[tactic(auto, unfolding(crate::specs::Actions::ner_of))]
fn ner_in(alloc: Global, value: &Value) -> Result<Action, WalkEnd>
    ensures exact { Gives (λ a. a) result (ner_of (view value.now)) }
    ensures sound { (groups vars : ℕ) (lookahead : Option ℕ) → IfOk result
        (λ a. IsAction groups vars lookahead a) }
{
    let step = number_at(alloc, value, "ner", 1, MOST_TIME)?;
    Ok(Action::Ner { step: step as u32 })
}

#[tactic(auto, unfolding(crate::specs::Actions::last_kinds_of))]
fn last_kinds_in(
    alloc: Global,
    vars: &[Var],
    lookahead: Option<u32>,
    value: &Value,
) -> Result<Action, WalkEnd>
    requires { length vars.now ≤ most_vars }
    ensures exact { Gives (λ a. a) result (last_kinds_of vars.now lookahead (view value.now)) }
    ensures sound { (groups : ℕ) → IfOk result
        (λ a. IsAction groups (length vars.now) lookahead a) }
{
    if value.get("retract").is_some() {
        return retract_in(alloc, vars, lookahead, value);
    }
    if value.get("tar").is_some() {
        return tar_in(alloc, value);
    }
    if value.get("ner").is_some() {
        return ner_in(alloc, value);
    }
    Err(WalkEnd::Fault(Fault::here(alloc, FaultKind::Missing)))
}

#[tactic(auto, unfolding(crate::specs::Actions::action_of))]
fn action_in(
    alloc: Global,
    targets: &[Name],
    vars: &[Var],
    lookahead: Option<u32>,
    value: &Value,
) -> Result<Action, WalkEnd>
    requires targets { length targets.now ≤ most_updates }
    requires vars { length vars.now ≤ most_vars }
    ensures exact { Gives (λ a. a) result
        (action_of targets.now vars.now lookahead (view value.now)) }
    ensures sound { IfOk result (λ a. IsAction (length targets.now) (length vars.now) lookahead a) }
{
    object_here(alloc, value)?;
    if value.get("set").is_some() {
        return set_in(alloc, vars, value);
    }
    if value.get("add").is_some() {
        return add_in(alloc, vars, value);
    }
    if value.get("sub").is_some() {
        return sub_in(alloc, vars, value);
    }
    if value.get("send").is_some() {
        return send_in(alloc, targets, vars, lookahead, value);
    }
    last_kinds_in(alloc, vars, lookahead, value)
}

#[tactic(auto, using(kit_walk::proofs::Ends::fails_before, crate::proofs::Pushes::all_and_one), unfolding(crate::specs::Actions::action_step))]
fn push_action(
    alloc: Global,
    targets: &[Name],
    vars: &[Var],
    lookahead: Option<u32>,
    i: usize,
    done: &mut Items<Action>,
    value: &Value,
) -> Result<(), WalkEnd>
    requires targets { length targets.now ≤ most_updates }
    requires vars { length vars.now ≤ most_vars }
    requires kept { All (IsAction (length targets.now) (length vars.now) lookahead) done.old }
    ensures exact { Gives (λ _. done.new) result
        (action_step targets.now vars.now lookahead i done.old (view value.now)) }
    ensures kept { OnOk result
        (All (IsAction (length targets.now) (length vars.now) lookahead) done.new) }
    ensures count { OnOk result (length done.new ≡ length done.old + 1) }
{
    match action_in(alloc, targets, vars, lookahead, value) {
        Ok(one) => {
            done.push(one)?;
            Ok(())
        }
        Err(end) => Err(end.under_item(alloc, "do", i)),
    }
}

#[tactic(auto, using(crate::proofs::Pushes::all_of_none), unfolding(crate::specs::Actions::actions_of))]
pub(crate) fn actions_in(
    alloc: Global,
    targets: &[Name],
    vars: &[Var],
    lookahead: Option<u32>,
    value: &Value,
) -> Result<Items<Action>, WalkEnd>
    requires targets { length targets.now ≤ most_updates }
    requires vars { length vars.now ≤ most_vars }
    ensures exact { Gives (λ v. v) result
        (actions_of targets.now vars.now lookahead (view value.now)) }
    ensures few { IfOk result (λ v. length v ≤ most_actions) }
    ensures sound { IfOk result
        (λ v. All (IsAction (length targets.now) (length vars.now) lookahead) v) }
{
    let items = list_at(alloc, value, "do", 0, MOST_ACTIONS)?;
    let mut done = Items::new(alloc);
    for (i, item) in items.iter().enumerate() {
        push_action(alloc, targets, vars, lookahead, i, &mut done, item)?;
    }
    Ok(done)
}
