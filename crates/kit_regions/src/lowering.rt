//! The federation of a plan.

ghost use Rattle.std.specs.Prelude.{◌≡◌, ◌↔◌, ◌≤◌, ◌++◌, ℕ, Some, None, Err, OnOk, IfOk};
ghost use Rattle.std.specs.Prelude.{length, map};
ghost use Rattle.kit_rules.specs.declared.table.Trigger.TheVariants.{Got};
ghost use Rattle.kit_regions.specs.declared.lowering.RegionEnd.TheVariants.{TooManyRules, NoMemory};
ghost use Rattle.kit_regions.specs.Limits.{most_updates};
ghost use Rattle.kit_regions.specs.Lowered.{federation_of, lowered_federate, lowered_group};
ghost use Rattle.kit_regions.specs.Lowered.{lowered_rule, lowered_rules, updates_of, with_trigger};
ghost use Rattle.kit_regions.specs.Lowered.{crowded_federate};

use crate::crowding::crowded;
use crate::matching::match_one;
use crate::{Regioned, Update};
use kit_base::Items;
use kit_rules::{Federate, Federation, Group, Name, Rule, Trigger, Var};
use std::alloc::{AllocError, AllocFailed, Global};

/// Why a plan was not lowered.
#[derive(Clone, Copy, Debug, PartialEq, Eq, thiserror::Error)]
pub enum RegionEnd {
    /// The rules of this federate, the first such, would become more than 64.
    #[error("the rules of federate {federate} would become more than 64")]
    TooManyRules {
        /// The federate, by its number.
        federate: u8,
    },
    /// There was no memory.
    #[error("memory ran out")]
    NoMemory,
}

impl From<AllocError> for RegionEnd {
    ghost from_gives = { λ _ e. e ≡ NoMemory };

    fn from(_: AllocError) -> RegionEnd {
        RegionEnd::NoMemory
    }
}

impl<T: Drop> From<AllocFailed<T>> for RegionEnd {
    ghost from_gives = { λ _ e. e ≡ NoMemory };

    fn from(_: AllocFailed<T>) -> RegionEnd {
        RegionEnd::NoMemory
    }
}

fn copy_vars(alloc: Global, vars: &[Var]) -> Result<Items<Var>, AllocError>
    ensures { IfOk result (λ copies. copies ≡ vars.now) }
{
    let mut copies = Items::new(alloc);
    for var in vars {
        copies.push(Var {
            name: Name::of(alloc, var.name.bytes())?,
            value: var.value,
        })?;
    }
    Ok(copies)
}

/// A rule on another trigger.
fn rule_on(alloc: Global, rule: &Rule, on: Trigger) -> Result<Rule, AllocError>
    ensures { IfOk result (λ made. made ≡ with_trigger rule.now on) }
{
    Ok(Rule {
        on,
        conds: Items::from_vec(Vec::from_slice(alloc, rule.conds.as_slice())?),
        actions: Items::from_vec(Vec::from_slice(alloc, rule.actions.as_slice())?),
    })
}

/// Adds a rule for each update of a group, in their order.
fn add_for_updates(
    alloc: Global,
    updates: &[Update],
    group: u8,
    rule: &Rule,
    made: &mut Items<Rule>,
) -> Result<(), AllocError>
    requires { length updates.now ≤ most_updates }
    ensures { OnOk result (made.new ≡ made.old
        ++ map (with_trigger rule.now) (map (λ u. Got u) (updates_of updates.now group))) }
{
    for (u, update) in updates.iter().enumerate() {
        if update.group == group {
            made.push(rule_on(alloc, rule, Trigger::Got { group: u as u8 })?)?;
        }
    }
    Ok(())
}

/// Adds the rules that a rule becomes.
fn add_lowered(
    alloc: Global,
    updates: &[Update],
    rule: &Rule,
    made: &mut Items<Rule>,
) -> Result<(), AllocError>
    requires { length updates.now ≤ most_updates }
    ensures { OnOk result (made.new ≡ made.old ++ lowered_rule updates.now rule.now) }
{
    match rule.on {
        Trigger::Got { group } => add_for_updates(alloc, updates, group, rule, made),
        Trigger::Start => made.push(rule_on(alloc, rule, Trigger::Start)?),
        Trigger::Grant => made.push(rule_on(alloc, rule, Trigger::Grant)?),
    }
}

fn lower_rules(alloc: Global, updates: &[Update], rules: &[Rule]) -> Result<Items<Rule>, AllocError>
    requires { length updates.now ≤ most_updates }
    ensures { IfOk result (λ made. made ≡ lowered_rules updates.now rules.now) }
{
    let mut made = Items::new(alloc);
    for rule in rules {
        add_lowered(alloc, updates, rule, &mut made)?;
    }
    Ok(made)
}

fn lower_federate(
    alloc: Global,
    updates: &[Update],
    federate: &Federate,
) -> Result<Federate, AllocError>
    requires { length updates.now ≤ most_updates }
    ensures { IfOk result (λ made. made ≡ lowered_federate updates.now federate.now) }
{
    Ok(Federate {
        name: Name::of(alloc, federate.name.bytes())?,
        lookahead: federate.lookahead,
        advance: federate.advance,
        vars: copy_vars(alloc, federate.vars.as_slice())?,
        rules: lower_rules(alloc, updates, federate.rules.as_slice())?,
    })
}

/// The federates with the rules that their own become.
fn lower_federates(
    alloc: Global,
    updates: &[Update],
    federates: &[Federate],
) -> Result<Items<Federate>, AllocError>
    requires { length updates.now ≤ most_updates }
    ensures { IfOk result (λ made. made ≡ map (lowered_federate updates.now) federates.now) }
{
    let mut made = Items::new(alloc);
    for federate in federates {
        made.push(lower_federate(alloc, updates, federate)?)?;
    }
    Ok(made)
}

/// The updates as groups, with the masks of [`match_all`].
fn lower_groups(alloc: Global, plan: &Regioned) -> Result<Items<Group>, AllocError>
    ensures { IfOk result (λ made.
        made ≡ map (lowered_group plan.now.subscriptions) plan.now.updates) }
{
    let mut made = Items::new(alloc);
    for update in plan.updates() {
        made.push(Group {
            name: Name::of(alloc, update.name.bytes())?,
            members: match_one(update, plan.subscriptions()),
        })?;
    }
    Ok(made)
}

/// The federation of a plan, which is simulated as the plan is.
///
/// Its groups are the updates, by their names, and the members of one are the federates with an
/// overlapping subscription. A rule on Got of a group becomes, in its place, one rule for each
/// update of that group, in the order of the updates. Rules are counted before a table is made, so
/// a federate with too many is named without memory being taken.
pub fn lower(alloc: Global, plan: &Regioned) -> Result<Federation, RegionEnd>
    ensures made { IfOk result (λ federation. federation ≡ federation_of plan.now) }
    ensures fits { OnOk result (crowded_federate plan.now ≡ None) }
    ensures crowded { (i : ℕ) → result ≡ Err (TooManyRules i)
        ↔ (crowded_federate plan.now ≡ Some i) }
{
    if let Some(federate) = crowded(plan) {
        return Err(RegionEnd::TooManyRules { federate });
    }
    let end = plan.end();
    let federates = lower_federates(alloc, plan.updates(), plan.federates())?;
    let groups = lower_groups(alloc, plan)?;
    Ok(Federation::new(end, plan.buffers(), groups, federates))
}
