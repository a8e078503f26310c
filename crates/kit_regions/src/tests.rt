use super::*;
use kit_base::Items;
use kit_rules::{Action, Federate, Name, Operand, Rule, Trigger, Wish};
use std::alloc::{AllocError, Global};
use std::test::Fail;

fn range(from: u32, to: u32) -> Range {
    Range { from, to }
}

fn update(alloc: Global, name: &str, group: u8, range: Range) -> Result<Update, AllocError> {
    Ok(Update {
        name: Name::of(alloc, name.as_bytes())?,
        group,
        range,
    })
}

fn subscription(group: u8, federate: u8, range: Range) -> Subscription {
    Subscription {
        group,
        federate,
        range,
    }
}

/// An Event of value 7 to an update.
fn send(update: u8) -> Action {
    Action::Send {
        group: update,
        delay: 1,
        value: Operand::Num(7),
        keep: None,
    }
}

fn rule(alloc: Global, on: Trigger, actions: &[Action]) -> Result<Rule, AllocError> {
    Ok(Rule {
        on,
        conds: Items::new(alloc),
        actions: Items::from_vec(Vec::from_slice(alloc, actions)?),
    })
}

/// A federate of lookahead 1 with as many rules, each on the same trigger.
fn federate(alloc: Global, name: &str, on: Trigger, count: usize) -> Result<Federate, AllocError> {
    let mut rules = Items::new(alloc);
    for _ in 0..count {
        rules.push(rule(alloc, on, &[])?)?;
    }
    Ok(Federate {
        name: Name::of(alloc, name.as_bytes())?,
        lookahead: Some(1),
        advance: Wish::Tar(2),
        vars: Items::new(alloc),
        rules,
    })
}

/// The parts of a plan, which a test changes.
#[derive(Drop)]
struct Parts {
    groups: Items<Name>,
    updates: Items<Update>,
    subscriptions: Items<Subscription>,
    federates: Items<Federate>,
}

fn two_updates(alloc: Global) -> Result<Items<Update>, AllocError> {
    let mut updates = Items::new(alloc);
    updates.push(update(alloc, "near", 0, range(5, 10))?)?;
    updates.push(update(alloc, "wide", 0, range(5, 11))?)?;
    Ok(updates)
}

fn two_subscriptions(alloc: Global) -> Result<Items<Subscription>, AllocError> {
    let mut subscriptions = Items::new(alloc);
    subscriptions.push(subscription(0, 1, range(0, 10)))?;
    subscriptions.push(subscription(0, 2, range(10, 20)))?;
    Ok(subscriptions)
}

/// A federate with one rule, on a trigger of its own.
fn with_rule(alloc: Global, name: &str, added: Rule) -> Result<Federate, AllocError> {
    let mut one = federate(alloc, name, Trigger::Start, 0)?;
    one.rules.push(added)?;
    Ok(one)
}

fn three_federates(alloc: Global, rules: usize) -> Result<Items<Federate>, AllocError> {
    let mut federates = Items::new(alloc);
    let start = rule(alloc, Trigger::Start, &[send(0), send(1)])?;
    federates.push(with_rule(alloc, "a", start)?)?;
    for name in ["b", "c"] {
        let on = Trigger::Got { group: 0 };
        federates.push(federate(alloc, name, on, rules)?)?;
    }
    Ok(federates)
}

impl Parts {
    /// One group with two updates; federate `a` sends to both, `b` subscribes to the numbers below
    /// 10 and `c` to those from 10 on, and both have as many rules on Got of the group.
    fn near_and_wide(alloc: Global, rules: usize) -> Result<Parts, AllocError> {
        let mut groups = Items::new(alloc);
        groups.push(Name::of(alloc, b"map")?)?;
        Ok(Parts {
            groups,
            updates: two_updates(alloc)?,
            subscriptions: two_subscriptions(alloc)?,
            federates: three_federates(alloc, rules)?,
        })
    }

    fn are_plan(&self) -> bool {
        is_plan(
            2,
            2,
            self.groups.as_slice(),
            self.updates.as_slice(),
            self.subscriptions.as_slice(),
            self.federates.as_slice(),
        )
    }
}

#[test]
fn ranges_that_only_touch_do_not_overlap(rt: HostRuntime) -> Result<(), Fail> {
    assert!(rt; !overlap(range(0, 10), range(10, 20)));
    assert!(rt; !overlap(range(10, 20), range(0, 10)));
    assert!(rt; overlap(range(0, 11), range(10, 20)));
    assert!(rt; overlap(range(12, 13), range(10, 20)));
    assert!(rt; overlap(range(10, 20), range(12, 13)));
    Ok(())
}

/// Whether there is still a plan with one more update.
fn takes_update(alloc: Global, name: &str, group: u8) -> Result<bool, AllocError> {
    let mut parts = Parts::near_and_wide(alloc, 1)?;
    let more = update(alloc, name, group, range(0, 1))?;
    parts.updates.push(more)?;
    Ok(parts.are_plan())
}

/// Whether there is still a plan with one more subscription.
fn takes_subscription(alloc: Global, more: Subscription) -> Result<bool, AllocError> {
    let mut parts = Parts::near_and_wide(alloc, 1)?;
    parts.subscriptions.push(more)?;
    Ok(parts.are_plan())
}

/// Whether there is still a plan with one more federate, which has one rule.
fn takes_rule(alloc: Global, on: Trigger, update: u8) -> Result<bool, AllocError> {
    let mut parts = Parts::near_and_wide(alloc, 1)?;
    let added = rule(alloc, on, &[send(update)])?;
    parts.federates.push(with_rule(alloc, "d", added)?)?;
    Ok(parts.are_plan())
}

#[test]
fn updates_are_new_and_of_groups(rt: HostRuntime) -> Result<(), Fail> {
    for (name, group, wanted) in [("far", 0, true), ("near", 0, false), ("far", 1, false)] {
        assert_eq!(rt;
            takes_update(rt.alloc(), name, group)?,
            wanted,
            "{name} {group}"
        );
    }
    Ok(())
}

#[test]
fn subscriptions_are_of_groups_and_federates(rt: HostRuntime) -> Result<(), Fail> {
    for (group, federate, range, wanted) in [
        (0, 2, range(0, 1), true),
        (1, 2, range(0, 1), false),
        (0, 3, range(0, 1), false),
        (0, 2, range(1, 1), false),
    ] {
        let more = subscription(group, federate, range);
        assert_eq!(rt;
            takes_subscription(rt.alloc(), more)?,
            wanted,
            "{group} {federate}"
        );
    }
    Ok(())
}

#[test]
fn rules_are_on_groups_and_send_to_updates(rt: HostRuntime) -> Result<(), Fail> {
    for (on, update, wanted) in [
        (Trigger::Start, 1, true),
        (Trigger::Start, 2, false),
        (Trigger::Got { group: 0 }, 1, true),
        (Trigger::Got { group: 1 }, 1, false),
    ] {
        assert_eq!(rt; takes_rule(rt.alloc(), on, update)?, wanted, "{update}");
    }
    Ok(())
}
