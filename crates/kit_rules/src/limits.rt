ghost use Rattle.std.specs.Prelude.{◌≡◌, ◌≢◌, ◌↔◌, ◌<◌, ◌≤◌, List, ℕ, IsTrue, IfSome, IsSomeAnd};
ghost use Rattle.std.specs.Prelude.{All, AllPairs, length};
ghost use Rattle.kit_rules.specs.Federation.{IsFederation, IsStep, IsWish, IsOperand, IsTrigger};
ghost use Rattle.kit_rules.specs.Federation.{IsCond, IsAction, IsRule, IsFederate, IsGroup};
ghost use Rattle.kit_rules.specs.Federation.{AreVars, AreGroups, AreFederates};
ghost use Rattle.kit_rules.specs.Limits.{most_federates};

use crate::name::is_name;
use crate::{Action, Cond, Federate, Group, Name, Operand, Rule, Trigger, Var, Wish};

/// The latest end time, and the greatest lookahead, step and delay, in logical time.
pub const MOST_TIME: u64 = 100_000;

/// The most buffers that each federate has.
pub const MOST_BUFFERS: u64 = 1024;

/// The most federates of a federation.
pub const MOST_FEDERATES: usize = 16;

/// The most groups of a federation.
pub const MOST_GROUPS: usize = 32;

/// The most variables of a federate.
pub const MOST_VARS: usize = 8;

/// The most rules of a federate.
pub const MOST_RULES: usize = 64;

/// The most conditions of a rule.
pub const MOST_CONDS: usize = 8;

/// The most actions of a rule.
pub const MOST_ACTIONS: usize = 16;

/// Whether a step, a lookahead or an end time is from 1 to 100,000.
pub fn is_step(step: u64) -> bool
    ensures { IsTrue result ↔ IsStep step }
{
    1 <= step && step <= MOST_TIME
}

/// Whether a request's step is within its limits.
pub fn is_wish(wish: Wish) -> bool
    ensures { IsTrue result ↔ IsWish wish }
{
    match wish {
        Wish::Tar(step) => is_step(step as u64),
        Wish::Ner(step) => is_step(step as u64),
    }
}

pub(crate) fn is_operand(vars: usize, operand: Operand) -> bool
    ensures { IsTrue result ↔ IsOperand vars operand }
{
    match operand {
        Operand::Var(v) => (v as usize) < vars,
        Operand::Num(_) | Operand::Now | Operand::Value => true,
    }
}

/// Whether a trigger names a group that is there.
pub fn is_trigger(groups: usize, on: Trigger) -> bool
    ensures { IsTrue result ↔ IsTrigger groups on }
{
    match on {
        Trigger::Start | Trigger::Grant => true,
        Trigger::Got { group } => (group as usize) < groups,
    }
}

/// Whether a condition reads variables that are there.
pub fn is_cond(vars: usize, cond: Cond) -> bool
    ensures { IsTrue result ↔ IsCond vars cond }
{
    is_operand(vars, cond.left) && is_operand(vars, cond.right)
}

pub(crate) fn is_kept(vars: usize, keep: Option<u8>) -> bool
    ensures { IsTrue result ↔ IfSome keep (λ v. v < vars) }
{
    match keep {
        None => true,
        Some(v) => (v as usize) < vars,
    }
}

pub(crate) fn is_delay(lookahead: Option<u32>, delay: u32) -> bool
    ensures { IsTrue result ↔ IsSomeAnd lookahead (λ l. l ≤ delay) }
{
    match lookahead {
        None => false,
        Some(lookahead) => lookahead <= delay,
    }
}

/// Whether an action is one of a federate with so many variables and this lookahead, beside so many
/// groups.
pub fn is_action(groups: usize, vars: usize, lookahead: Option<u32>, action: Action) -> bool
    ensures { IsTrue result ↔ IsAction groups vars lookahead action }
{
    match action {
        Action::Set { var, to } => (var as usize) < vars && is_operand(vars, to),
        Action::Add { var, by } => (var as usize) < vars && is_operand(vars, by),
        Action::Sub { var, by } => (var as usize) < vars && is_operand(vars, by),
        Action::Send {
            group,
            delay,
            value,
            keep,
        } => {
            (group as usize) < groups
                && is_delay(lookahead, delay)
                && delay as u64 <= MOST_TIME
                && is_operand(vars, value)
                && is_kept(vars, keep)
        }
        Action::Retract { var } => lookahead.is_some() && (var as usize) < vars,
        Action::Tar { step } => is_step(step as u64),
        Action::Ner { step } => is_step(step as u64),
    }
}

fn is_rule(groups: usize, vars: usize, lookahead: Option<u32>, rule: &Rule) -> bool
    ensures { IsTrue result ↔ IsRule groups vars lookahead rule.now }
{
    is_trigger(groups, rule.on)
        && rule.conds.len() <= MOST_CONDS
        && rule.conds.as_slice().iter().all(|c| is_cond(vars, *c))
        && rule.actions.len() <= MOST_ACTIONS
        && rule
            .actions
            .as_slice()
            .iter()
            .all(|a| is_action(groups, vars, lookahead, *a))
}

/// What has a name, which differs from those of its like.
pub trait Named {
    ghost name_of: { Self → List ℕ };

    /// The name.
    fn name(&self) -> &Name
        ensures { result.now ≡ name_of self.now };
}

impl Named for Name {
    ghost name_of = { λ n. n };

    fn name(&self) -> &Name {
        self
    }
}

impl Named for Var {
    ghost name_of = { λ v. v.name };

    fn name(&self) -> &Name {
        &self.name
    }
}

impl Named for Group {
    ghost name_of = { λ g. g.name };

    fn name(&self) -> &Name {
        &self.name
    }
}

impl Named for Federate {
    ghost name_of = { λ f. f.name };

    fn name(&self) -> &Name {
        &self.name
    }
}

pub(crate) fn is_fresh<T: Named>(name: &Name, items: &[T]) -> bool
    ensures { IsTrue result ↔ All (λ b. T.name_of b ≢ name.now) items.now }
{
    items.iter().all(|b| !b.name().is_same(name))
}

/// Whether no name of a list stands twice.
pub fn names_differ<T: Named>(items: &[T]) -> bool
    ensures { IsTrue result ↔ AllPairs (λ a b. T.name_of a ≢ T.name_of b) items.now }
{
    for (i, a) in items.iter().enumerate() {
        if !is_fresh(a.name(), &items[..i]) {
            return false;
        }
    }
    true
}

/// Whether these are variables of a federate: at most 8, whose names are names and differ.
pub fn are_vars(vars: &[Var]) -> bool
    ensures { IsTrue result ↔ AreVars vars.now }
{
    vars.len() <= MOST_VARS && vars.iter().all(|v| is_name(v.name.bytes())) && names_differ(vars)
}

fn are_rules(groups: usize, federate: &Federate) -> bool
    ensures { IsTrue result ↔ All (IsRule groups (length federate.now.vars) federate.now.lookahead)
        federate.now.rules }
{
    let vars = federate.vars.len();
    federate
        .rules
        .as_slice()
        .iter()
        .all(|r| is_rule(groups, vars, federate.lookahead, r))
}

/// Whether a lookahead, where there is one, is from 1 to 100,000.
pub fn is_lookahead(lookahead: Option<u32>) -> bool
    ensures { IsTrue result ↔ IfSome lookahead IsStep }
{
    match lookahead {
        None => true,
        Some(lookahead) => is_step(lookahead as u64),
    }
}

fn is_federate(groups: usize, federate: &Federate) -> bool
    ensures { IsTrue result ↔ IsFederate groups federate.now }
{
    is_name(federate.name.bytes())
        && is_lookahead(federate.lookahead)
        && is_wish(federate.advance)
        && are_vars(federate.vars.as_slice())
        && federate.rules.len() <= MOST_RULES
        && are_rules(groups, federate)
}

fn is_group(federates: usize, group: &Group) -> bool
    requires { federates ≤ most_federates }
    ensures { IsTrue result ↔ IsGroup federates group.now }
{
    is_name(group.name.bytes()) && (group.members as u32) < 1u32 << federates
}

fn are_groups(federates: usize, groups: &[Group]) -> bool
    requires { federates ≤ most_federates }
    ensures { IsTrue result ↔ AreGroups federates groups.now }
{
    groups.len() <= MOST_GROUPS
        && groups.iter().all(|g| is_group(federates, g))
        && names_differ(groups)
}

/// Whether a federation has so many federates: 1 to 16.
pub fn is_count(n: usize) -> bool
    ensures { IsTrue result ↔ ((1 ≤ n) × (n ≤ most_federates)) }
{
    1 <= n && n <= MOST_FEDERATES
}

fn are_federates(groups: usize, federates: &[Federate]) -> bool
    ensures { IsTrue result ↔ AreFederates groups federates.now }
{
    is_count(federates.len())
        && federates.iter().all(|f| is_federate(groups, f))
        && names_differ(federates)
}

/// Whether the parts make a federation.
///
/// That is where each of these holds:
///
/// - The end time is from 1 to 100,000, and each federate has from 1 to 1,024 buffers.
/// - There are 1 to 16 federates and 0 to 32 groups. A federate has 0 to 8 variables and 0 to 64
///   rules, and a rule 0 to 8 conditions and 0 to 16 actions.
/// - A name has 1 to 16 ASCII letters, digits, `_` and `-`. The names of the federates differ from
///   each other, and so do those of the groups, and those of a federate's variables.
/// - A time-regulating federate has a lookahead. One that is not has none, and its rules have no
/// Send
///   and no Retract.
/// - Lookahead and steps are from 1 to 100,000, and a delay from the sender's lookahead to 100,000.
/// - The members of a group are federates, and rules name variables and groups that are there.
///
/// It takes no memory.
pub fn obeys(end: u64, buffers: u16, groups: &[Group], federates: &[Federate]) -> bool
    ensures { IsTrue result ↔ IsFederation
        (record { end = end; buffers = buffers; groups = groups.now; federates = federates.now }) }
{
    is_step(end)
        && 1 <= buffers
        && buffers as u64 <= MOST_BUFFERS
        && are_federates(groups.len(), federates)
        && are_groups(federates.len(), groups)
}
