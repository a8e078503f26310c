//! How many rules a federate's own become, counted before any is made.

ghost use Rattle.std.specs.Prelude.{◌≡◌, ◌≤◌, ◌==◌, All, length, count_by};
ghost use Rattle.kit_regions.specs.declared.region.Update.{Update};
ghost use Rattle.kit_rules.specs.declared.table.Federate.{Federate};
ghost use Rattle.kit_rules.specs.Limits.{most_federates, most_rules};
ghost use Rattle.kit_regions.specs.Limits.{most_updates};
ghost use Rattle.kit_regions.specs.Lowered.{lowered_rule, lowered_rules};
ghost use Rattle.kit_regions.specs.Lowered.{crowded_federate, first_crowded};

use crate::{Regioned, Update};
use kit_rules::{Federate, MOST_RULES, Rule, Trigger};

/// How many updates a group has.
fn count_updates(updates: &[Update], group: u8) -> usize
    ensures exact { result ≡ count_by (λ (u : Update). u.group == group) updates.now }
    ensures few { result ≤ length updates.now }
{
    updates.iter().filter(|u| u.group == group).count()
}

/// How many rules a rule becomes.
#[tactic(auto, using(crate::proofs::Counting::got_counted))]
fn count_lowered(updates: &[Update], rule: &Rule) -> usize
    requires { length updates.now ≤ most_updates }
    ensures exact { result ≡ length (lowered_rule updates.now rule.now) }
    ensures few { result ≤ most_updates }
{
    match rule.on {
        Trigger::Got { group } => count_updates(updates, group),
        Trigger::Start | Trigger::Grant => 1,
    }
}

/// How many rules those of a table become.
fn count_rules(updates: &[Update], rules: &[Rule]) -> usize
    requires updates { length updates.now ≤ most_updates }
    requires rules { length rules.now ≤ most_rules }
    ensures { result ≡ length (lowered_rules updates.now rules.now) }
{
    let mut count = 0;
    for rule in rules {
        count += count_lowered(updates, rule);
    }
    count
}

/// The first federate whose rules become more than 64.
fn find_crowded(updates: &[Update], federates: &[Federate]) -> Option<u8>
    requires updates { length updates.now ≤ most_updates }
    requires federates { length federates.now ≤ most_federates }
    requires rules { All (λ (f : Federate). length f.rules ≤ most_rules) federates.now }
    ensures { result ≡ first_crowded updates.now federates.now }
{
    for (i, federate) in federates.iter().enumerate() {
        if count_rules(updates, federate.rules.as_slice()) > MOST_RULES {
            return Some(i as u8);
        }
    }
    None
}

/// The first federate of a plan whose rules become more than 64.
pub(crate) fn crowded(plan: &Regioned) -> Option<u8>
    ensures { result ≡ crowded_federate plan.now }
{
    find_crowded(plan.updates(), plan.federates())
}
