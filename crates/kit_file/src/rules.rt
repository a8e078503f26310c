//! The places of a rule.

ghost use Rattle.std.specs.Prelude.{◌≡◌, ◌+◌, ◌<◌, ◌≤◌, ℕ, [], ◌∷◌, codes, length, map, IfOk, OnOk};
ghost use Rattle.std.specs.Prelude.{All};
ghost use Rattle.serde_json.specs.View.{view};
ghost use Rattle.serde_json.specs.Find.{get};
ghost use Rattle.kit_rules.specs.Federation.{IsAction, IsCond, IsTrigger};
ghost use Rattle.kit_rules.specs.Limits.{most_conds, most_groups, most_rules, most_vars};
ghost use Rattle.kit_regions.specs.Limits.{IsPlannedRule};
ghost use Rattle.kit_walk.specs.Agreement.{Gives};
ghost use Rattle.kit_file.specs.SoFar.{AreKnown};
ghost use Rattle.kit_walk.specs.Reading.{within};
ghost use Rattle.kit_file.specs.Rules.{named_comparison, comparison_of, cond_of, cond_step};
ghost use Rattle.kit_file.specs.Rules.{conds_of, got_of, trigger_of, rule_of, rule_step, rules_of};

use crate::actions::actions_in;
use crate::known::Known;
use crate::names::reference_at;
use crate::operands::operand_at;
use kit_base::Items;
use kit_rules::{Compare, Cond, MOST_CONDS, MOST_RULES, Name, Rule, Trigger, Var};
use kit_walk::{
    Fault, FaultKind, WalkEnd, are_same, member_at, object_here, optional_list_at, text_at,
};
use serde_json::Value;
use std::alloc::Global;

#[tactic(auto, unfolding(crate::specs::Rules::named_comparison))]
fn comparison_named(s: &[u8]) -> Option<Compare>
    ensures { result ≡ named_comparison s.now }
{
    if are_same(s, b"lt") {
        return Some(Compare::Lt);
    }
    if are_same(s, b"le") {
        return Some(Compare::Le);
    }
    if are_same(s, b"eq") {
        return Some(Compare::Eq);
    }
    if are_same(s, b"ne") {
        return Some(Compare::Ne);
    }
    if are_same(s, b"ge") {
        return Some(Compare::Ge);
    }
    if are_same(s, b"gt") {
        return Some(Compare::Gt);
    }
    None
}

#[tactic(auto, unfolding(crate::specs::Rules::comparison_of))]
fn comparison_in(alloc: Global, value: &Value) -> Result<Compare, WalkEnd>
    ensures { Gives (λ t. t) result (comparison_of (view value.now)) }
{
    let s = text_at(alloc, value, "is")?;
    match comparison_named(s.as_bytes()) {
        Some(test) => Ok(test),
        None => Err(WalkEnd::Fault(Fault::at_key(alloc, FaultKind::UnknownName, "is")?)),
    }
}

#[tactic(auto, unfolding(crate::specs::Rules::cond_of))]
fn cond_in(alloc: Global, vars: &[Var], value: &Value) -> Result<Cond, WalkEnd>
    requires { length vars.now ≤ most_vars }
    ensures exact { Gives (λ c. c) result (cond_of vars.now (view value.now)) }
    ensures sound { IfOk result (λ c. IsCond (length vars.now) c) }
{
    object_here(alloc, value)?;
    let left = operand_at(alloc, value, "left", vars)?;
    let test = comparison_in(alloc, value)?;
    let right = operand_at(alloc, value, "right", vars)?;
    Ok(Cond { left, test, right })
}

#[tactic(auto, using(kit_walk::proofs::Ends::fails_before, crate::proofs::Pushes::all_and_one), unfolding(crate::specs::Rules::cond_step))]
fn push_cond(
    alloc: Global,
    vars: &[Var],
    i: usize,
    done: &mut Items<Cond>,
    value: &Value,
) -> Result<(), WalkEnd>
    requires vars { length vars.now ≤ most_vars }
    requires kept { All (IsCond (length vars.now)) done.old }
    ensures exact { Gives (λ _. done.new) result (cond_step vars.now i done.old (view value.now)) }
    ensures kept { OnOk result (All (IsCond (length vars.now)) done.new) }
    ensures count { OnOk result (length done.new ≡ length done.old + 1) }
{
    match cond_in(alloc, vars, value) {
        Ok(one) => {
            done.push(one)?;
            Ok(())
        }
        Err(end) => Err(end.under_item(alloc, "if", i)),
    }
}

#[tactic(auto, using(crate::proofs::Pushes::all_of_none), unfolding(crate::specs::Rules::conds_of))]
pub(crate) fn conds_in(alloc: Global, vars: &[Var], value: &Value) -> Result<Items<Cond>, WalkEnd>
    requires vars { length vars.now ≤ most_vars }
    ensures exact { Gives (λ v. v) result (conds_of vars.now (view value.now)) }
    ensures few { IfOk result (λ v. length v ≤ most_conds) }
    ensures sound { IfOk result (λ v. All (IsCond (length vars.now)) v) }
{
    let items = optional_list_at(alloc, value, "if", MOST_CONDS)?;
    let mut done = Items::new(alloc);
    for (i, item) in items.iter().enumerate() {
        push_cond(alloc, vars, i, &mut done, item)?;
    }
    Ok(done)
}

#[tactic(auto, unfolding(crate::specs::Rules::got_of))]
fn got_in(alloc: Global, groups: &[Name], value: &Value) -> Result<Trigger, WalkEnd>
    requires { length groups.now ≤ most_groups }
    ensures exact { Gives (λ t. t) result (got_of groups.now (view value.now)) }
    ensures sound { IfOk result (λ t. IsTrigger (length groups.now) t) }
{
    object_here(alloc, value)?;
    let group = reference_at(alloc, value, "got", groups)?;
    Ok(Trigger::Got { group })
}

#[tactic(auto, using(kit_walk::proofs::Ends::fails_within), unfolding(crate::specs::Rules::trigger_of))]
fn trigger_at(alloc: Global, groups: &[Name], value: &Value) -> Result<Trigger, WalkEnd>
    requires { length groups.now ≤ most_groups }
    ensures exact { Gives (λ t. t) result (trigger_of groups.now (view value.now)) }
    ensures sound { IfOk result (λ t. IsTrigger (length groups.now) t) }
{
    let found = member_at(alloc, value, "on")?;
    if let Some(s) = found.as_str() {
        if are_same(s.as_bytes(), b"start") {
            return Ok(Trigger::Start);
        }
        if are_same(s.as_bytes(), b"grant") {
            return Ok(Trigger::Grant);
        }
        return Err(WalkEnd::Fault(Fault::at_key(alloc, FaultKind::UnknownName, "on")?));
    }
    match got_in(alloc, groups, found) {
        Ok(trigger) => Ok(trigger),
        Err(end) => Err(end.under_key(alloc, "on")),
    }
}

#[tactic(auto, unfolding(crate::specs::Rules::rule_of))]
fn rule_in(
    alloc: Global,
    known: &Known,
    vars: &[Var],
    lookahead: Option<u32>,
    value: &Value,
) -> Result<Rule, WalkEnd>
    requires known { AreKnown known.now }
    requires vars { length vars.now ≤ most_vars }
    ensures exact { Gives (λ r. r) result (rule_of known.now vars.now lookahead (view value.now)) }
    ensures sound { IfOk result (λ r. IsPlannedRule (length known.now.groups)
        (length known.now.targets) (length vars.now) lookahead r) }
{
    object_here(alloc, value)?;
    let on = trigger_at(alloc, known.groups.as_slice(), value)?;
    let conds = conds_in(alloc, vars, value)?;
    let actions = actions_in(alloc, known.targets.as_slice(), vars, lookahead, value)?;
    Ok(Rule { on, conds, actions })
}

#[tactic(auto, using(kit_walk::proofs::Ends::fails_before, crate::proofs::Pushes::all_and_one), unfolding(crate::specs::Rules::rule_step))]
fn push_rule(
    alloc: Global,
    known: &Known,
    vars: &[Var],
    lookahead: Option<u32>,
    i: usize,
    done: &mut Items<Rule>,
    value: &Value,
) -> Result<(), WalkEnd>
    requires known { AreKnown known.now }
    requires vars { length vars.now ≤ most_vars }
    requires kept { All (IsPlannedRule (length known.now.groups) (length known.now.targets)
        (length vars.now) lookahead) done.old }
    ensures exact { Gives (λ _. done.new) result
        (rule_step known.now vars.now lookahead i done.old (view value.now)) }
    ensures kept { OnOk result
        (All (IsPlannedRule (length known.now.groups) (length known.now.targets)
        (length vars.now) lookahead) done.new) }
    ensures count { OnOk result (length done.new ≡ length done.old + 1) }
{
    match rule_in(alloc, known, vars, lookahead, value) {
        Ok(one) => {
            done.push(one)?;
            Ok(())
        }
        Err(end) => Err(end.under_item(alloc, "rules", i)),
    }
}

#[tactic(auto, using(crate::proofs::Pushes::all_of_none), unfolding(crate::specs::Rules::rules_of))]
pub(crate) fn rules_in(
    alloc: Global,
    known: &Known,
    vars: &[Var],
    lookahead: Option<u32>,
    value: &Value,
) -> Result<Items<Rule>, WalkEnd>
    requires known { AreKnown known.now }
    requires vars { length vars.now ≤ most_vars }
    ensures exact { Gives (λ v. v) result
        (rules_of known.now vars.now lookahead (view value.now)) }
    ensures few { IfOk result (λ v. length v ≤ most_rules) }
    ensures sound { IfOk result
        (λ v. All (IsPlannedRule (length known.now.groups) (length known.now.targets)
        (length vars.now) lookahead) v) }
{
    let items = optional_list_at(alloc, value, "rules", MOST_RULES)?;
    let mut done = Items::new(alloc);
    for (i, item) in items.iter().enumerate() {
        push_rule(alloc, known, vars, lookahead, i, &mut done, item)?;
    }
    Ok(done)
}
