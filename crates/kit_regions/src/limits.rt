//! The limits of a plan, and the test of them.

ghost use Rattle.std.specs.Prelude.{◌≡◌, ◌≢◌, ◌↔◌, ◌<◌, ◌≤◌, ◌==◌, ℕ, List, IsTrue, All, AllPairs};
ghost use Rattle.std.specs.Prelude.{length, count_by};
ghost use Rattle.kit_rules.specs.Names.{IsName};
ghost use Rattle.kit_regions.specs.declared.region.Subscription.{Subscription};
ghost use Rattle.kit_regions.specs.Limits.{IsRange, IsPlannedRule, IsPlannedFederate, IsUpdate};
ghost use Rattle.kit_regions.specs.Limits.{IsSubscription, AreGroupNames, AreUpdates, IsPlan};
ghost use Rattle.kit_regions.specs.Limits.{AreSubscriptions, ArePlannedFederates};
ghost use Rattle.kit_regions.specs.Limits.{most_subscriptions};

use crate::{Range, Subscription, Update};
use kit_rules::{
    Federate, MOST_ACTIONS, MOST_BUFFERS, MOST_CONDS, MOST_GROUPS, MOST_RULES, Name, Named, Rule,
    are_vars, is_action, is_cond, is_count, is_lookahead, is_name, is_step, is_trigger, is_wish,
    names_differ,
};

/// The most updates of a plan.
pub const MOST_UPDATES: usize = 32;

/// The most subscriptions to one group.
pub const MOST_SUBSCRIPTIONS: usize = 256;

fn is_planned_rule(
    groups: usize,
    updates: usize,
    vars: usize,
    lookahead: Option<u32>,
    rule: &Rule,
) -> bool
    ensures { IsTrue result ↔ IsPlannedRule groups updates vars lookahead rule.now }
{
    is_trigger(groups, rule.on)
        && rule.conds.len() <= MOST_CONDS
        && rule.conds.as_slice().iter().all(|c| is_cond(vars, *c))
        && rule.actions.len() <= MOST_ACTIONS
        && rule
            .actions
            .as_slice()
            .iter()
            .all(|a| is_action(updates, vars, lookahead, *a))
}

fn are_planned_rules(groups: usize, updates: usize, federate: &Federate) -> bool
    ensures { IsTrue result ↔ All (IsPlannedRule groups updates (length federate.now.vars)
        federate.now.lookahead) federate.now.rules }
{
    let vars = federate.vars.len();
    federate.rules.as_slice().iter().all(|r| is_planned_rule(
        groups,
        updates,
        vars,
        federate.lookahead,
        r,
    ))
}

fn is_planned_federate(groups: usize, updates: usize, federate: &Federate) -> bool
    ensures { IsTrue result ↔ IsPlannedFederate groups updates federate.now }
{
    is_name(federate.name.bytes())
        && is_lookahead(federate.lookahead)
        && is_wish(federate.advance)
        && are_vars(federate.vars.as_slice())
        && federate.rules.len() <= MOST_RULES
        && are_planned_rules(groups, updates, federate)
}

fn are_planned_federates(groups: usize, updates: usize, federates: &[Federate]) -> bool
    ensures { IsTrue result ↔ ArePlannedFederates groups updates federates.now }
{
    is_count(federates.len())
        && federates
            .iter()
            .all(|f| is_planned_federate(groups, updates, f))
        && names_differ(federates)
}

fn are_group_names(groups: &[Name]) -> bool
    ensures { IsTrue result ↔ AreGroupNames groups.now }
{
    groups.len() <= MOST_GROUPS && groups.iter().all(|g| is_name(g.bytes())) && names_differ(groups)
}

fn is_range(range: Range) -> bool
    ensures { IsTrue result ↔ IsRange range }
{
    range.from < range.to
}

fn is_update(groups: usize, update: &Update) -> bool
    ensures { IsTrue result ↔ IsUpdate groups update.now }
{
    is_name(update.name.bytes()) && (update.group as usize) < groups && is_range(update.range)
}

fn are_updates(groups: usize, updates: &[Update]) -> bool
    ensures { IsTrue result ↔ AreUpdates groups updates.now }
{
    updates.len() <= MOST_UPDATES
        && updates.iter().all(|u| is_update(groups, u))
        && names_differ(updates)
}

fn is_subscription(groups: usize, federates: usize, subscription: &Subscription) -> bool
    ensures { IsTrue result ↔ IsSubscription groups federates subscription.now }
{
    (subscription.group as usize) < groups
        && (subscription.federate as usize) < federates
        && is_range(subscription.range)
}

/// How many subscriptions are to a group.
fn count_of_group(group: usize, subscriptions: &[Subscription]) -> usize
    ensures { result ≡ count_by (λ (s : Subscription). s.group == group) subscriptions.now }
{
    subscriptions
        .iter()
        .filter(|s| s.group as usize == group)
        .count()
}

/// Whether each of so many groups has few subscriptions.
fn are_few(groups: usize, subscriptions: &[Subscription]) -> bool
    ensures { IsTrue result ↔ ((g : ℕ) → g < groups
        → count_by (λ (s : Subscription). s.group == g) subscriptions.now ≤ most_subscriptions) }
{
    for group in 0..groups {
        if count_of_group(group, subscriptions) > MOST_SUBSCRIPTIONS {
            return false;
        }
    }
    true
}

fn each_is_subscription(groups: usize, federates: usize, subscriptions: &[Subscription]) -> bool
    ensures { IsTrue result ↔ All (IsSubscription groups federates) subscriptions.now }
{
    subscriptions
        .iter()
        .all(|s| is_subscription(groups, federates, s))
}

fn are_subscriptions(groups: usize, federates: usize, subscriptions: &[Subscription]) -> bool
    ensures { IsTrue result ↔ AreSubscriptions groups federates subscriptions.now }
{
    each_is_subscription(groups, federates, subscriptions) && are_few(groups, subscriptions)
}

/// Whether the parts make a plan.
///
/// That is where each of these holds:
///
/// - The end time is from 1 to 100,000, and each federate has from 1 to 1,024 buffers.
/// - There are 1 to 16 federates, whose parts have the limits of a federation's, but that rules
///   Send to updates. Their names differ from each other.
/// - There are 0 to 32 groups and 0 to 32 updates. The names of the groups differ from each other,
///   and so do those of the updates.
/// - Updates and subscriptions are of groups that are there, and a group has at most 256
///   subscriptions, of federates that are there.
/// - A range has a number: its `from` is below its `to`.
///
/// It takes no memory.
pub fn is_plan(
    end: u64,
    buffers: u16,
    groups: &[Name],
    updates: &[Update],
    subscriptions: &[Subscription],
    federates: &[Federate],
) -> bool
    ensures { IsTrue result ↔ IsPlan (record {
      end = end;
      buffers = buffers;
      groups = groups.now;
      updates = updates.now;
      subscriptions = subscriptions.now;
      federates = federates.now;
    }) }
{
    is_step(end)
        && 1 <= buffers
        && buffers as u64 <= MOST_BUFFERS
        && are_group_names(groups)
        && are_updates(groups.len(), updates)
        && are_subscriptions(groups.len(), federates.len(), subscriptions)
        && are_planned_federates(groups.len(), updates.len(), federates)
}
