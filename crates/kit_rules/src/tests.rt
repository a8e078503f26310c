use super::*;
use kit_base::{Items, Kind, Message};
use std::alloc::{AllocError, Global};
use std::process::Abort;
use std::test::Fail;

/// An Event of value 7 to a group, whose number the first variable keeps.
fn send(group: u8, delay: u32) -> Action {
    Action::Send {
        group,
        delay,
        value: Operand::Num(7),
        keep: Some(0),
    }
}

fn rule(
    alloc: Global,
    on: Trigger,
    conds: &[Cond],
    actions: &[Action],
) -> Result<Rule, AllocError> {
    Ok(Rule {
        on,
        conds: Items::from_vec(Vec::from_slice(alloc, conds)?),
        actions: Items::from_vec(Vec::from_slice(alloc, actions)?),
    })
}

fn variables(alloc: Global) -> Result<Items<Var>, AllocError> {
    let mut vars = Items::new(alloc);
    for name in ["v", "w"] {
        vars.push(Var {
            name: Name::of(alloc, name.as_bytes())?,
            value: 0,
        })?;
    }
    Ok(vars)
}

/// A federate of lookahead 3 with two variables.
fn federate(alloc: Global, name: &str, rules: Items<Rule>) -> Result<Federate, AllocError> {
    Ok(Federate {
        name: Name::of(alloc, name.as_bytes())?,
        lookahead: Some(3),
        advance: Wish::Tar(5),
        vars: variables(alloc)?,
        rules,
    })
}

/// Up to time 20, two federates, of which the first has these rules; group 0 has both as members,
/// and group 1 the first alone.
fn federation(
    rt: &impl Abort,
    alloc: Global,
    rules: Items<Rule>,
) -> Result<Federation, AllocError> {
    let mut groups = Items::new(alloc);
    for (name, members) in [("both", 3), ("alone", 1)] {
        groups.push(Group {
            name: Name::of(alloc, name.as_bytes())?,
            members,
        })?;
    }
    let mut federates = Items::new(alloc);
    federates.push(federate(alloc, "a", rules)?)?;
    federates.push(federate(alloc, "b", Items::new(alloc))?)?;
    assert!(rt; obeys(20, 4, groups.as_slice(), federates.as_slice()));
    Ok(Federation::new(20, 4, groups, federates))
}

/// The first federate of a federation, with all that its steps sent.
#[derive(Drop)]
struct Steps {
    federation: Federation,
    state: FedState,
    sends: Vec<Message>,
}

fn begun(rt: &impl Abort, alloc: Global, rules: Items<Rule>) -> Result<Steps, AllocError> {
    let federation = federation(rt, alloc, rules)?;
    assert!(rt; federation.count() == 2);
    let state = FedState::new(alloc, &federation, 0);
    Ok(Steps {
        federation,
        state,
        sends: Vec::new(alloc),
    })
}

impl Steps {
    fn step(&mut self, rt: &impl Abort, on: Trigger, now: u64, value: u32) -> Result<(), ApplyEnd> {
        assert!(rt; self.federation.count() == 2 && now <= self.federation.end());
        apply(
            &self.federation,
            0,
            &mut self.state,
            on,
            now,
            value,
            &mut self.sends,
        )
    }
}

#[test]
fn a_message_needs_a_receiver_in_time(rt: HostRuntime) -> Result<(), Fail> {
    let federation = federation(&rt, rt.alloc(), Items::new(rt.alloc()))?;
    for (sender, group, time, members, is_sent) in [
        (0, 0, 5, 2, true),
        (1, 0, 5, 1, true),
        (0, 0, 20, 2, true),
        (0, 0, 21, 2, false),
        (0, 1, 5, 0, false),
        (1, 1, 5, 1, true),
        (0, 2, 5, 0, false),
    ] {
        let message = Message {
            time,
            sender,
            number: 1,
            kind: Kind::Event,
            group,
            value: 0,
        };
        assert_eq!(rt;
            receivers(&federation, sender, group),
            members,
            "{message:?}"
        );
        assert_eq!(rt; transported(&federation, &message), is_sent, "{message:?}");
    }
    Ok(())
}

/// Whether a federate with this lookahead may have this action, in a federation with so many
/// buffers.
fn is_allowed(
    alloc: Global,
    lookahead: Option<u32>,
    action: Action,
    buffers: u16,
) -> Result<bool, AllocError> {
    let mut rules = Items::new(alloc);
    rules.push(rule(alloc, Trigger::Start, &[], &[action])?)?;
    let mut groups = Items::new(alloc);
    groups.push(Group {
        name: Name::of(alloc, b"g")?,
        members: 1,
    })?;
    let mut one = federate(alloc, "a", rules)?;
    one.lookahead = lookahead;
    let mut federates = Items::new(alloc);
    federates.push(one)?;
    Ok(obeys(20, buffers, groups.as_slice(), federates.as_slice()))
}

#[test]
fn only_a_regulating_federate_sends(rt: HostRuntime) -> Result<(), Fail> {
    let retract = Action::Retract { var: 0 };
    let tar = Action::Tar { step: 1 };
    for (lookahead, action, buffers, wanted) in [
        (Some(3), send(0, 3), 1, true),
        (Some(3), send(0, 2), 1, false),
        (Some(3), retract, 1, true),
        (Some(3), tar, 1, true),
        (None, send(0, 3), 1, false),
        (None, send(0, 100_000), 1, false),
        (None, retract, 1, false),
        (None, tar, 1, true),
        (Some(0), tar, 1, false),
        (Some(100_000), tar, 1, true),
        (Some(100_001), tar, 1, false),
        (None, tar, 0, false),
        (None, tar, 1_024, true),
        (None, tar, 1_025, false),
    ] {
        assert_eq!(rt;
            is_allowed(rt.alloc(), lookahead, action, buffers)?,
            wanted,
            "{lookahead:?} {action:?} {buffers}"
        );
    }
    Ok(())
}

#[test]
fn an_effective_lookahead_reaches_past_the_end(rt: HostRuntime) -> Result<(), Fail> {
    for (lookahead, wanted) in [(Some(3), 3), (Some(100_000), 100_000), (None, 21)] {
        let mut one = federate(rt.alloc(), "a", Items::new(rt.alloc()))?;
        one.lookahead = lookahead;
        let mut federates = Items::new(rt.alloc());
        federates.push(one)?;
        assert!(rt; obeys(20, 4, &[], federates.as_slice()));
        let federation = Federation::new(20, 4, Items::new(rt.alloc()), federates);
        assert!(rt; federation.count() == 1);
        assert_eq!(rt; federation.effective_lookahead(0), wanted, "{lookahead:?}");
    }
    Ok(())
}

#[test]
fn a_send_is_timed_from_now_and_keeps_its_number(rt: HostRuntime) -> Result<(), Fail> {
    let mut rules = Items::new(rt.alloc());
    let actions = [send(0, 3), send(1, 9)];
    rules.push(rule(rt.alloc(), Trigger::Got { group: 0 }, &[], &actions)?)?;
    let mut steps = begun(&rt, rt.alloc(), rules)?;
    steps.step(&rt, Trigger::Got { group: 1 }, 4, 0)?;
    assert_eq!(rt; steps.sends.len(), 0, "at another group");
    steps.step(&rt, Trigger::Got { group: 0 }, 4, 0)?;
    assert_eq!(rt; steps.sends.len(), 2);
    for (at, time, number) in [(0, 7, 1), (1, 13, 2)] {
        let sent = steps.sends[at];
        assert_eq!(rt; sent.time, time);
        assert_eq!(rt; sent.number, number);
    }
    assert_eq!(rt; steps.state.vars()[0], 2);
    assert_eq!(rt; steps.state.next(), 3);
    Ok(())
}

#[test]
fn conditions_are_read_at_the_turn_of_their_rule(rt: HostRuntime) -> Result<(), Fail> {
    let set = [Action::Set {
        var: 1,
        to: Operand::Value,
    }];
    let is_seven = [Cond {
        left: Operand::Var(1),
        test: Compare::Eq,
        right: Operand::Num(7),
    }];
    for (is_set_first, sent) in [(true, 1), (false, 0)] {
        let mut rules = Items::new(rt.alloc());
        let later = if is_set_first { 1 } else { 0 };
        rules.push(rule(rt.alloc(), Trigger::Grant, &[], &set)?)?;
        let sending = rule(rt.alloc(), Trigger::Grant, &is_seven, &[send(0, 3)])?;
        assert!(rt; rules.len() == 1);
        rules.insert(later, sending)?;
        let mut steps = begun(&rt, rt.alloc(), rules)?;
        steps.step(&rt, Trigger::Grant, 5, 7)?;
        assert_eq!(rt; steps.sends.len(), sent, "set first: {is_set_first}");
    }
    Ok(())
}

#[test]
fn arithmetic_wraps(rt: HostRuntime) -> Result<(), Fail> {
    let mut rules = Items::new(rt.alloc());
    let sub = [Action::Sub {
        var: 1,
        by: Operand::Value,
    }];
    let add = [Action::Add {
        var: 1,
        by: Operand::Value,
    }];
    rules.push(rule(rt.alloc(), Trigger::Start, &[], &sub)?)?;
    rules.push(rule(rt.alloc(), Trigger::Grant, &[], &add)?)?;
    let mut steps = begun(&rt, rt.alloc(), rules)?;
    for (on, value, want) in [
        (Trigger::Start, 1, 4_294_967_295),
        (Trigger::Grant, 3, 2),
        (Trigger::Start, 4, 4_294_967_294),
    ] {
        steps.step(&rt, on, 0, value)?;
        assert_eq!(rt; steps.state.vars()[1], want);
    }
    Ok(())
}

/// Sends an Event so at time 0, then has the first variable name a number and retracts twice.
fn retracted(
    rt: &impl Abort,
    alloc: Global,
    group: u8,
    delay: u32,
    number: u32,
    now: u64,
) -> Result<Steps, Fail> {
    let set = Action::Set {
        var: 0,
        to: Operand::Value,
    };
    let mut rules = Items::new(alloc);
    rules.push(rule(alloc, Trigger::Start, &[], &[send(group, delay)])?)?;
    let retract = Action::Retract { var: 0 };
    rules.push(rule(alloc, Trigger::Grant, &[], &[set, retract, retract])?)?;
    let mut steps = begun(rt, alloc, rules)?;
    steps.step(rt, Trigger::Start, 0, 0)?;
    steps.step(rt, Trigger::Grant, now, number)?;
    Ok(steps)
}

#[test]
fn a_retraction_names_an_own_event_in_time(rt: HostRuntime) -> Result<(), Fail> {
    for (group, delay, number, now, sent) in [
        (0, 10, 1, 7, 2),
        (0, 10, 1, 8, 1),
        (1, 10, 1, 7, 2),
        (0, 20, 1, 17, 2),
        (0, 21, 1, 7, 1),
        (0, 10, 65_537, 7, 1),
        (0, 10, 0, 7, 1),
        (0, 10, 2, 7, 1),
    ] {
        let steps = retracted(&rt, rt.alloc(), group, delay, number, now)?;
        assert_eq!(rt;
            steps.sends.len(),
            sent,
            "of {number} at {now} after {delay}"
        );
        if sent == 2 {
            assert!(rt; steps.sends.len() == 2);
            let last = steps.sends[1];
            assert!(rt; matches!(last.kind, Kind::Retraction) && last.value == 1);
            assert!(rt; last.time == delay as u64 && last.group == group && last.number == 2);
        }
    }
    Ok(())
}

#[test]
fn numbers_end_at_16384(rt: HostRuntime) -> Result<(), Fail> {
    let mut rules = Items::new(rt.alloc());
    for _ in 0..64 {
        rules.push(rule(rt.alloc(), Trigger::Grant, &[], &[send(0, 3); 16])?)?;
    }
    let mut steps = begun(&rt, rt.alloc(), rules)?;
    for _ in 0..16 {
        steps.step(&rt, Trigger::Grant, 0, 0)?;
    }
    assert_eq!(rt; steps.state.next(), 16_385);
    assert_eq!(rt;
        steps.step(&rt, Trigger::Grant, 0, 0),
        Err(ApplyEnd::SendsSpent)
    );
    assert_eq!(rt; steps.sends.len(), 16_384);
    assert_eq!(rt; steps.state.next(), 16_385);
    assert_eq!(rt; steps.state.vars()[0], 16_384);
    Ok(())
}
