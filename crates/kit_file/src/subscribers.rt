//! The groups of a file of version 3, and the federates that subscribe to ranges of them.

ghost use Rattle.std.specs.Prelude.{◌≡◌, ◌+◌, ◌<◌, ◌≤◌, ◌++◌, ◌∷◌, [], codes, map, length, All};
ghost use Rattle.std.specs.Prelude.{IfOk, OnOk};
ghost use Rattle.serde_json.specs.View.{view};
ghost use Rattle.kit_rules.specs.Limits.{most_federates, most_groups};
ghost use Rattle.kit_regions.specs.Limits.{most_subscriptions};
ghost use Rattle.kit_walk.specs.Agreement.{Gives};
ghost use Rattle.kit_walk.specs.Paths.{item_path};
ghost use Rattle.kit_walk.specs.Reading.{within};
ghost use Rattle.kit_file.specs.SoFar.{AreNames, AreSubscribed, IsSubscriptionTo};
ghost use Rattle.kit_file.specs.Names.{itself};
ghost use Rattle.kit_file.specs.Subscribers.{subscription_of, subscription_step};
ghost use Rattle.kit_file.specs.Subscribers.{subscriptions_of, subscribed_of, subscribed_step};
ghost use Rattle.kit_file.specs.Subscribers.{subscribed_groups_of};

use crate::names::{new_name_at, reference_at};
use crate::regions::range_in;
use kit_base::Items;
use kit_regions::{MOST_SUBSCRIPTIONS, Subscription};
use kit_rules::{MOST_GROUPS, Name};
use kit_walk::{WalkEnd, list_at, object_here, optional_list_at};
use serde_json::Value;
use std::alloc::{AllocError, Global};

/// The names of groups, and all subscriptions to them.
#[derive(Debug, Drop)]
pub(crate) struct Subscribed {
    pub groups: Items<Name>,
    pub subscriptions: Items<Subscription>,
}

impl Subscribed {
    fn add(&mut self, name: Name, more: Items<Subscription>) -> Result<(), AllocError>
        ensures { OnOk result (self.new ≡ record {
          groups = self.old.groups ++ name ∷ [];
          subscriptions = self.old.subscriptions ++ more;
        }) }
    {
        self.groups.push(name)?;
        self.subscriptions.append(more)
    }
}

#[tactic(auto, unfolding(crate::specs::Subscribers::subscription_of))]
fn subscription_in(
    alloc: Global,
    names: &[Name],
    group: u8,
    value: &Value,
) -> Result<Subscription, WalkEnd>
    requires { length names.now ≤ most_federates }
    ensures exact { Gives (λ s. s) result (subscription_of names.now group (view value.now)) }
    ensures sound { IfOk result (λ s. IsSubscriptionTo group (length names.now) s) }
{
    object_here(alloc, value)?;
    let federate = reference_at(alloc, value, "federate", names)?;
    let range = range_in(alloc, value)?;
    Ok(Subscription {
        group,
        federate,
        range,
    })
}

#[tactic(auto, using(kit_walk::proofs::Ends::fails_before, crate::proofs::Pushes::all_and_one), unfolding(crate::specs::Subscribers::subscription_step))]
fn push_subscription(
    alloc: Global,
    names: &[Name],
    group: u8,
    i: usize,
    done: &mut Items<Subscription>,
    value: &Value,
) -> Result<(), WalkEnd>
    requires few { length names.now ≤ most_federates }
    requires kept { All (IsSubscriptionTo group (length names.now)) done.old }
    ensures exact { Gives (λ _. done.new) result
        (subscription_step names.now group i done.old (view value.now)) }
    ensures kept { OnOk result (All (IsSubscriptionTo group (length names.now)) done.new) }
    ensures count { OnOk result (length done.new ≡ length done.old + 1) }
{
    match subscription_in(alloc, names, group, value) {
        Ok(one) => {
            done.push(one)?;
            Ok(())
        }
        Err(end) => Err(end.under_item(alloc, "subscribers", i)),
    }
}

#[tactic(auto, using(crate::proofs::Pushes::all_of_none), unfolding(crate::specs::Subscribers::subscriptions_of))]
fn subscriptions_in(
    alloc: Global,
    names: &[Name],
    group: u8,
    value: &Value,
) -> Result<Items<Subscription>, WalkEnd>
    requires { length names.now ≤ most_federates }
    ensures exact { Gives (λ v. v) result (subscriptions_of names.now group (view value.now)) }
    ensures few { IfOk result (λ v. length v ≤ most_subscriptions) }
    ensures sound { IfOk result (λ v. All (IsSubscriptionTo group (length names.now)) v) }
{
    let items = list_at(alloc, value, "subscribers", 0, MOST_SUBSCRIPTIONS)?;
    let mut done = Items::new(alloc);
    for (i, item) in items.iter().enumerate() {
        push_subscription(alloc, names, group, i, &mut done, item)?;
    }
    Ok(done)
}

#[tactic(auto, unfolding(crate::specs::Subscribers::subscribed_of))]
fn add_group(
    alloc: Global,
    names: &[Name],
    group: u8,
    done: &mut Subscribed,
    value: &Value,
) -> Result<(), WalkEnd>
    requires few { length names.now ≤ most_federates }
    requires next { group ≡ length done.old.groups }
    requires kept { AreSubscribed (length names.now) done.old }
    ensures exact { Gives (λ _. done.new) result
        (subscribed_of names.now group done.old (view value.now)) }
    ensures kept { OnOk result (AreSubscribed (length names.now) done.new) }
    ensures count { OnOk result (length done.new.groups ≡ length done.old.groups + 1) }
{
    object_here(alloc, value)?;
    let name = new_name_at(alloc, value, "name", done.groups.as_slice())?;
    let more = subscriptions_in(alloc, names, group, value)?;
    done.add(Name::of(alloc, name.as_bytes())?, more)?;
    Ok(())
}

#[tactic(auto, using(kit_walk::proofs::Ends::fails_within), unfolding(crate::specs::Subscribers::subscribed_step))]
fn push_group(
    alloc: Global,
    names: &[Name],
    group: u8,
    done: &mut Subscribed,
    value: &Value,
) -> Result<(), WalkEnd>
    requires few { length names.now ≤ most_federates }
    requires next { group ≡ length done.old.groups }
    requires kept { AreSubscribed (length names.now) done.old }
    ensures exact { Gives (λ _. done.new) result
        (subscribed_step names.now group done.old (view value.now)) }
    ensures kept { OnOk result (AreSubscribed (length names.now) done.new) }
    ensures count { OnOk result (length done.new.groups ≡ length done.old.groups + 1) }
{
    match add_group(alloc, names, group, done, value) {
        Ok(()) => Ok(()),
        Err(end) => Err(end.under_item(alloc, "groups", group as usize)),
    }
}

#[tactic(auto, using(crate::proofs::Subscribed::no_groups), unfolding(crate::specs::Subscribers::subscribed_groups_of))]
pub(crate) fn subscribed_groups_in(
    alloc: Global,
    names: &[Name],
    value: &Value,
) -> Result<Subscribed, WalkEnd>
    requires { length names.now ≤ most_federates }
    ensures exact { Gives (λ s. s) result (subscribed_groups_of names.now (view value.now)) }
    ensures few { IfOk result (λ s. length s.groups ≤ most_groups) }
    ensures sound { IfOk result (λ s. AreSubscribed (length names.now) s) }
{
    let items = optional_list_at(alloc, value, "groups", MOST_GROUPS)?;
    let mut done = Subscribed {
        groups: Items::new(alloc),
        subscriptions: Items::new(alloc),
    };
    for (i, item) in items.iter().enumerate() {
        push_group(alloc, names, i as u8, &mut done, item)?;
    }
    Ok(done)
}
