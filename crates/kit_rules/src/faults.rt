//! Why parts make no federation.

ghost use Rattle.std.specs.Prelude.{◌≡◌, ◌↔◌, ◌≢◌, ◌<◌, ◌≤◌, ◌^◌, None, length, IsTrue, All};
ghost use Rattle.std.specs.Prelude.{MatchOption, IsSome, IfSome, IfOk, IfErr, IsOk};
ghost use Rattle.kit_rules.specs.declared.table.Federate.{Federate};
ghost use Rattle.kit_rules.specs.declared.table.Group.{Group};
ghost use Rattle.kit_rules.specs.Limits.{most_federates, most_groups, most_rules, most_buffers};
ghost use Rattle.kit_rules.specs.Limits.{most_conds, most_actions};
ghost use Rattle.kit_rules.specs.Parts.{Parts};
ghost use Rattle.kit_rules.specs.Names.{IsName};
ghost use Rattle.kit_rules.specs.Federation.{IsFederation, IsCond, IsAction, IsRule, IsFederate};
ghost use Rattle.kit_rules.specs.Federation.{IsGroup, AreGroups};
ghost use Rattle.kit_rules.specs.Faults.{IsFirstNot, IsActionFault, IsFirstWrongAction};
ghost use Rattle.kit_rules.specs.Faults.{IsRuleFault, IsFirstWrongRule, IsNameFault, AreNamed};
ghost use Rattle.kit_rules.specs.Faults.{IsFirstMisnamed, IsFederateFault, IsFirstWrongFederate};
ghost use Rattle.kit_rules.specs.Faults.{IsGroupFault, IsFirstWrongGroup, IsFirstFault};

use crate::limits::{
    is_action, is_cond, is_count, is_delay, is_fresh, is_kept, is_lookahead, is_operand, is_step,
    is_trigger, is_wish,
};
use crate::name::is_name;
use crate::{
    Action, Cond, Federate, Federation, Group, MOST_ACTIONS, MOST_BUFFERS, MOST_CONDS, MOST_GROUPS,
    MOST_RULES, MOST_TIME, MOST_VARS, Name, Named, Operand, Rule, obeys,
};
use kit_base::Items;

/// What is wrong with a name.
#[derive(Clone, Copy, Debug, PartialEq, Eq, thiserror::Error)]
pub enum NameFault {
    /// It has not 1 to 16 ASCII letters, digits, `_` and `-`.
    #[error("the name has not 1 to 16 ASCII letters, digits, _ and -")]
    NoName,
    /// An earlier one of its list has it.
    #[error("an earlier one has the same name")]
    Repeated,
}

/// What is wrong with an action.
#[derive(Clone, Copy, Debug, PartialEq, Eq, thiserror::Error)]
pub enum ActionFault {
    /// It sends or takes back, and its federate is not time-regulating.
    #[error("a federate that is not time-regulating sends nothing and takes nothing back")]
    NotRegulating,
    /// The group is not there.
    #[error("the group is not there")]
    NoGroup,
    /// The delay is above 100,000, or the step is not from 1 to 100,000.
    #[error("the delay or the step is out of its range")]
    OutOfRange,
    /// The delay is below the federate's lookahead.
    #[error("the delay is below the lookahead of the federate")]
    SendTooSoon,
    /// A variable is not there.
    #[error("a variable is not there")]
    NoVar,
}

/// What is wrong with a rule, whose conditions and actions go by their places, from 0 on.
#[derive(Clone, Copy, Debug, PartialEq, Eq, thiserror::Error)]
pub enum RuleFault {
    /// Its trigger names a group that is not there.
    #[error("the trigger names a group that is not there")]
    Trigger,
    /// It has more than 8 conditions.
    #[error("there are more than 8 conditions")]
    Conds,
    /// This condition reads a variable that is not there.
    #[error("condition {cond} reads a variable that is not there")]
    Cond { cond: u8 },
    /// It has more than 16 actions.
    #[error("there are more than 16 actions")]
    Actions,
    /// In this action.
    #[error("action {action}: {fault}")]
    InAction { action: u8, fault: ActionFault },
}

/// What is wrong with a federate but for its name. Variables and rules go by their places, from 0
/// on.
#[derive(Clone, Copy, Debug, PartialEq, Eq, thiserror::Error)]
pub enum FederateFault {
    /// It has a lookahead that is not from 1 to 100,000.
    #[error("the lookahead is not from 1 to 100,000")]
    Lookahead,
    /// The step of its first request is not from 1 to 100,000.
    #[error("the step of the first request is not from 1 to 100,000")]
    Advance,
    /// It has more than 8 variables.
    #[error("there are more than 8 variables")]
    Vars,
    /// The name of this variable.
    #[error("variable {var}: {fault}")]
    VarName { var: u8, fault: NameFault },
    /// It has more than 64 rules.
    #[error("there are more than 64 rules")]
    Rules,
    /// In this rule.
    #[error("rule {rule}: {fault}")]
    InRule { rule: u8, fault: RuleFault },
}

/// What is wrong with a group.
#[derive(Clone, Copy, Debug, PartialEq, Eq, thiserror::Error)]
pub enum GroupFault {
    /// Its name.
    #[error("{0}")]
    Name(NameFault),
    /// A member is none of the federates.
    #[error("a member is none of the federates")]
    Members,
}

/// What is wrong with parts that make no federation: the first thing, in the order in which they
/// are tested. Federates and groups go by their places, from 0 on.
#[derive(Clone, Copy, Debug, PartialEq, Eq, thiserror::Error)]
pub enum FederationFault {
    /// The end time is not from 1 to 100,000.
    #[error("the end time is not from 1 to 100,000")]
    End,
    /// The number of buffers is not from 1 to 1,024.
    #[error("the number of buffers is not from 1 to 1,024")]
    Buffers,
    /// There are not 1 to 16 federates.
    #[error("there are not 1 to 16 federates")]
    Federates,
    /// The name of this federate.
    #[error("federate {federate}: {fault}")]
    FederateName { federate: u8, fault: NameFault },
    /// There are more than 32 groups.
    #[error("there are more than 32 groups")]
    Groups,
    /// In this group.
    #[error("group {group}: {fault}")]
    InGroup { group: u8, fault: GroupFault },
    /// In this federate.
    #[error("federate {federate}: {fault}")]
    InFederate { federate: u8, fault: FederateFault },
}

fn first_wrong_cond(vars: usize, conds: &[Cond]) -> Option<u8>
    requires { length conds.now ≤ most_conds }
    ensures { MatchOption result (All (IsCond vars) conds.now)
        (λ k. IsFirstNot (IsCond vars) conds.now k) }
{
    for (k, cond) in conds.iter().enumerate() {
        if !is_cond(vars, *cond) {
            return Some(k as u8);
        }
    }
    None
}

fn send_fault(
    groups: usize,
    vars: usize,
    lookahead: Option<u32>,
    group: u8,
    delay: u32,
    value: Operand,
    keep: Option<u8>,
) -> Option<ActionFault>
    ensures { MatchOption result
        (IsAction groups vars lookahead (Action.Send group delay value keep))
        (λ what. IsActionFault groups vars lookahead (Action.Send group delay value keep) what) }
{
    if lookahead.is_none() {
        Some(ActionFault::NotRegulating)
    } else if group as usize >= groups {
        Some(ActionFault::NoGroup)
    } else if delay as u64 > MOST_TIME {
        Some(ActionFault::OutOfRange)
    } else if !is_delay(lookahead, delay) {
        Some(ActionFault::SendTooSoon)
    } else if !(is_operand(vars, value) && is_kept(vars, keep)) {
        Some(ActionFault::NoVar)
    } else {
        None
    }
}

fn retract_fault(vars: usize, lookahead: Option<u32>, var: u8) -> Option<ActionFault>
    ensures { MatchOption result (IsSome lookahead × (var < vars))
        (λ what. IsActionFault 0 vars lookahead (Action.Retract var) what) }
{
    if lookahead.is_none() {
        Some(ActionFault::NotRegulating)
    } else if var as usize >= vars {
        Some(ActionFault::NoVar)
    } else {
        None
    }
}

fn action_fault(
    groups: usize,
    vars: usize,
    lookahead: Option<u32>,
    action: Action,
) -> Option<ActionFault>
    ensures { MatchOption result (IsAction groups vars lookahead action)
        (λ what. IsActionFault groups vars lookahead action what) }
{
    match action {
        Action::Send {
            group,
            delay,
            value,
            keep,
        } => send_fault(groups, vars, lookahead, group, delay, value, keep),
        Action::Retract { var } => retract_fault(vars, lookahead, var),
        Action::Tar { .. } | Action::Ner { .. } => {
            if is_action(groups, vars, lookahead, action) {
                None
            } else {
                Some(ActionFault::OutOfRange)
            }
        }
        Action::Set { .. } | Action::Add { .. } | Action::Sub { .. } => {
            if is_action(groups, vars, lookahead, action) {
                None
            } else {
                Some(ActionFault::NoVar)
            }
        }
    }
}

fn first_wrong_action(
    groups: usize,
    vars: usize,
    lookahead: Option<u32>,
    actions: &[Action],
) -> Option<(u8, ActionFault)>
    requires { length actions.now ≤ most_actions }
    ensures { MatchOption result (All (IsAction groups vars lookahead) actions.now)
        (λ found. IsFirstWrongAction groups vars lookahead actions.now found.0 found.1) }
{
    for (k, action) in actions.iter().enumerate() {
        if let Some(fault) = action_fault(groups, vars, lookahead, *action) {
            return Some((k as u8, fault));
        }
    }
    None
}

fn rule_fault(groups: usize, vars: usize, lookahead: Option<u32>, rule: &Rule) -> Option<RuleFault>
    ensures { MatchOption result (IsRule groups vars lookahead rule.now)
        (λ fault. IsRuleFault groups vars lookahead rule.now fault) }
{
    if !is_trigger(groups, rule.on) {
        return Some(RuleFault::Trigger);
    }
    if rule.conds.len() > MOST_CONDS {
        return Some(RuleFault::Conds);
    }
    if let Some(cond) = first_wrong_cond(vars, rule.conds.as_slice()) {
        return Some(RuleFault::Cond { cond });
    }
    if rule.actions.len() > MOST_ACTIONS {
        return Some(RuleFault::Actions);
    }
    match first_wrong_action(groups, vars, lookahead, rule.actions.as_slice()) {
        Some((action, fault)) => Some(RuleFault::InAction { action, fault }),
        None => None,
    }
}

fn first_wrong_rule(
    groups: usize,
    vars: usize,
    lookahead: Option<u32>,
    rules: &[Rule],
) -> Option<(u8, RuleFault)>
    requires { length rules.now ≤ most_rules }
    ensures { MatchOption result (All (IsRule groups vars lookahead) rules.now)
        (λ found. IsFirstWrongRule groups vars lookahead rules.now found.0 found.1) }
{
    for (k, rule) in rules.iter().enumerate() {
        if let Some(fault) = rule_fault(groups, vars, lookahead, rule) {
            return Some((k as u8, fault));
        }
    }
    None
}

fn name_fault<T: Named>(name: &Name, before: &[T]) -> Option<NameFault>
    ensures { MatchOption result
        (IsName name.now × All (λ b. T.name_of b ≢ name.now) before.now)
        (λ fault. IsNameFault T.name_of before.now name.now fault) }
{
    if !is_name(name.bytes()) {
        return Some(NameFault::NoName);
    }
    if !is_fresh(name, before) {
        return Some(NameFault::Repeated);
    }
    None
}

fn first_misnamed<T: Named>(items: &[T]) -> Option<(u8, NameFault)>
    requires { length items.now ≤ most_federates }
    ensures { MatchOption result (AreNamed T.name_of items.now)
        (λ found. IsFirstMisnamed T.name_of items.now found.0 found.1) }
{
    for (k, item) in items.iter().enumerate() {
        if let Some(fault) = name_fault(item.name(), &items[..k]) {
            return Some((k as u8, fault));
        }
    }
    None
}

/// What is wrong with a federate whose name is right.
fn federate_fault(groups: usize, federate: &Federate) -> Option<FederateFault>
    requires { IsName federate.now.name }
    ensures { MatchOption result (IsFederate groups federate.now)
        (λ fault. IsFederateFault groups federate.now fault) }
{
    if !is_lookahead(federate.lookahead) {
        return Some(FederateFault::Lookahead);
    }
    if !is_wish(federate.advance) {
        return Some(FederateFault::Advance);
    }
    if federate.vars.len() > MOST_VARS {
        return Some(FederateFault::Vars);
    }
    if let Some((var, fault)) = first_misnamed(federate.vars.as_slice()) {
        return Some(FederateFault::VarName { var, fault });
    }
    if federate.rules.len() > MOST_RULES {
        return Some(FederateFault::Rules);
    }
    let vars = federate.vars.len();
    match first_wrong_rule(groups, vars, federate.lookahead, federate.rules.as_slice()) {
        Some((rule, fault)) => Some(FederateFault::InRule { rule, fault }),
        None => None,
    }
}

fn first_wrong_federate(groups: usize, federates: &[Federate]) -> Option<(u8, FederateFault)>
    requires few { length federates.now ≤ most_federates }
    requires names { All (λ (f : Federate). IsName f.name) federates.now }
    ensures { MatchOption result (All (IsFederate groups) federates.now)
        (λ found. IsFirstWrongFederate groups federates.now found.0 found.1) }
{
    for (k, federate) in federates.iter().enumerate() {
        if let Some(fault) = federate_fault(groups, federate) {
            return Some((k as u8, fault));
        }
    }
    None
}

/// What is wrong with a group of so many federates that stands behind these groups.
fn group_fault(federates: usize, before: &[Group], group: &Group) -> Option<GroupFault>
    requires { federates ≤ most_federates }
    ensures { MatchOption result (IsGroup federates group.now
        × All (λ (b : Group). b.name ≢ group.now.name) before.now)
        (λ fault. IsGroupFault federates before.now group.now fault) }
{
    if let Some(fault) = name_fault(&group.name, before) {
        return Some(GroupFault::Name(fault));
    }
    if !has_members(federates, group) {
        return Some(GroupFault::Members);
    }
    None
}

/// Whether all members of a group are federates.
fn has_members(federates: usize, group: &Group) -> bool
    requires { federates ≤ most_federates }
    ensures { IsTrue result ↔ group.now.members < 2 ^ federates }
{
    (group.members as u32) < 1u32 << federates
}

fn first_wrong_group(federates: usize, groups: &[Group]) -> Option<(u8, GroupFault)>
    requires few { federates ≤ most_federates }
    requires groups { length groups.now ≤ most_groups }
    ensures { MatchOption result (AreGroups federates groups.now)
        (λ found. IsFirstWrongGroup federates groups.now found.0 found.1) }
{
    for (k, group) in groups.iter().enumerate() {
        if let Some(fault) = group_fault(federates, &groups[..k], group) {
            return Some((k as u8, fault));
        }
    }
    None
}

fn is_pool(buffers: u16) -> bool
    ensures { IsTrue result ↔ ((1 ≤ buffers) × (buffers ≤ most_buffers)) }
{
    1 <= buffers && buffers as u64 <= MOST_BUFFERS
}

fn walk(end: u64, buffers: u16, groups: &[Group], federates: &[Federate]) -> Option<FederationFault>
    ensures { let parts : Parts = record
        { end = end; buffers = buffers; groups = groups.now; federates = federates.now } in
        MatchOption result (IsFederation parts) (λ fault. IsFirstFault parts fault) }
{
    if !is_step(end) {
        return Some(FederationFault::End);
    }
    if !is_pool(buffers) {
        return Some(FederationFault::Buffers);
    }
    if !is_count(federates.len()) {
        return Some(FederationFault::Federates);
    }
    if let Some((federate, fault)) = first_misnamed(federates) {
        return Some(FederationFault::FederateName { federate, fault });
    }
    if groups.len() > MOST_GROUPS {
        return Some(FederationFault::Groups);
    }
    if let Some((group, fault)) = first_wrong_group(federates.len(), groups) {
        return Some(FederationFault::InGroup { group, fault });
    }
    match first_wrong_federate(groups.len(), federates) {
        Some((federate, fault)) => Some(FederationFault::InFederate { federate, fault }),
        None => None,
    }
}

/// What is wrong with parts that make no federation: the first thing, in the order in which a
/// federation file is tested. `None` comes exactly where [`obeys`] says that they make one.
///
/// The order is: the end time, the buffers, the number of federates, their names, the groups one by
/// one, and the federates one by one, each by its lookahead, its first request, its variables and
/// its rules. It takes no memory.
pub fn first_fault(
    end: u64,
    buffers: u16,
    groups: &[Group],
    federates: &[Federate],
) -> Option<FederationFault>
    ensures none { result ≡ None ↔ IsFederation (record
        { end = end; buffers = buffers; groups = groups.now; federates = federates.now }) }
    ensures first { IfSome result (λ fault. IsFirstFault (record
        { end = end; buffers = buffers; groups = groups.now; federates = federates.now }) fault) }
{
    if obeys(end, buffers, groups, federates) {
        return None;
    }
    walk(end, buffers, groups, federates)
}

impl Federation {
    /// The federation with these parts, or the first thing that is wrong with them, as
    /// [`first_fault`] names it.
    pub fn try_new(
        end: u64,
        buffers: u16,
        groups: Items<Group>,
        federates: Items<Federate>,
    ) -> Result<Federation, FederationFault>
        ensures made { IfOk result (λ made. made ≡ record
            { end = end; buffers = buffers; groups = groups; federates = federates }) }
        ensures fits { IsOk result ↔ IsFederation (record
            { end = end; buffers = buffers; groups = groups; federates = federates }) }
        ensures first { IfErr result (λ fault. IsFirstFault (record
            { end = end; buffers = buffers; groups = groups; federates = federates }) fault) }
    {
        match first_fault(end, buffers, groups.as_slice(), federates.as_slice()) {
            Some(fault) => Err(fault),
            None => Ok(Federation::new(end, buffers, groups, federates)),
        }
    }
}
