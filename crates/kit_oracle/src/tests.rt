use crate::{OracleEnd, need, simulate};
use kit_base::{Items, Kind, Line, Message};
use kit_rules::{
    Action, Compare, Cond, Federate, Federation, Group, Name, Operand, Rule, Trigger, Var, Wish,
    obeys,
};
use std::alloc::{AllocError, Global};
use std::process::Abort;
use std::test::*;

fn send(delay: u32, value: u32, keep: Option<u8>) -> Action {
    Action::Send {
        group: 0,
        delay,
        value: Operand::Num(value),
        keep,
    }
}

fn rule(alloc: Global, on: Trigger, actions: &[Action]) -> Result<Rule, AllocError> {
    Ok(Rule {
        on,
        conds: Items::new(alloc),
        actions: Items::from_vec(Vec::from_slice(alloc, actions)?),
    })
}

/// A federate with a variable `m`, and so many times one rule.
fn federate(
    alloc: Global,
    name: &[u8],
    advance: Wish,
    on: Trigger,
    actions: &[Action],
    times: u8,
) -> Result<Federate, AllocError> {
    let mut vars = Items::new(alloc);
    vars.push(Var {
        name: Name::of(alloc, b"m")?,
        value: 0,
    })?;
    let mut rules = Items::new(alloc);
    for _ in 0..times {
        rules.push(rule(alloc, on, actions)?)?;
    }
    Ok(Federate {
        name: Name::of(alloc, name)?,
        lookahead: Some(1),
        advance,
        vars,
        rules,
    })
}

/// These federates, with one group of these members.
fn federation(
    rt: &impl Abort,
    alloc: Global,
    end: u64,
    members: u16,
    federates: Items<Federate>,
) -> Result<Federation, AllocError> {
    let mut groups = Items::new(alloc);
    groups.push(Group {
        name: Name::of(alloc, b"g")?,
        members,
    })?;
    assert!(rt; obeys(end, 2, groups.as_slice(), federates.as_slice()));
    Ok(Federation::new(end, 2, groups, federates))
}

fn delivery(granted: u64, federate: u8, time: u64, sender: u8, value: u32) -> Line {
    Line::Deliver {
        granted,
        federate,
        message: Message {
            time,
            sender,
            number: 1,
            kind: Kind::Event,
            group: 0,
            value,
        },
    }
}

fn grant(time: u64, federate: u8) -> Line {
    Line::Grant { time, federate }
}

/// Federate a, with these actions at the start, and federate b, the one member of the group.
fn pair(
    rt: &impl Abort,
    alloc: Global,
    end: u64,
    steps: [u32; 2],
    actions: &[Action],
) -> Result<Federation, AllocError> {
    let [first, second] = steps;
    let mut federates = Items::new(alloc);
    federates.push(federate(alloc, b"a", Wish::Tar(first), Trigger::Start, actions, 1)?)?;
    federates.push(federate(alloc, b"b", Wish::Tar(second), Trigger::Start, &[], 0)?)?;
    federation(rt, alloc, end, 2, federates)
}

#[test]
fn one_message(rt: HostRuntime) -> Result<(), Fail> {
    let alloc = rt.alloc();
    let sent = [send(1, 7, None)];
    let taken_back = [send(4, 9, Some(0)), Action::Retract { var: 0 }];
    let delivered = [
        grant(1, 0),
        grant(2, 0),
        delivery(2, 1, 1, 0, 7),
        grant(2, 1),
    ];
    let undelivered = [grant(4, 0), grant(4, 1)];
    let rows = [
        (2, [1, 2], sent.as_slice(), delivered.as_slice()),
        (4, [4, 4], taken_back.as_slice(), undelivered.as_slice()),
    ];
    for (end, steps, actions, lines) in rows {
        let history = simulate(alloc, &pair(&rt, alloc, end, steps, actions)?)?;
        assert_eq!(rt; history.lines.as_slice(), lines);
    }
    Ok(())
}

#[test]
fn first_event_of_two_senders(rt: HostRuntime) -> Result<(), Fail> {
    let alloc = rt.alloc();
    let mut federates = Items::new(alloc);
    for (name, value) in [(b"a".as_slice(), 1), (b"b".as_slice(), 2)] {
        let actions = [send(3, value, None)];
        let wish = Wish::Tar(4);
        federates.push(federate(alloc, name, wish, Trigger::Start, &actions, 1)?)?;
    }
    let wish = Wish::Ner(4);
    federates.push(federate(alloc, b"c", wish, Trigger::Start, &[], 0)?)?;
    let history = simulate(alloc, &federation(&rt, alloc, 4, 4, federates)?)?;
    let lines = [
        delivery(3, 2, 3, 0, 1),
        delivery(3, 2, 3, 1, 2),
        grant(3, 2),
        grant(4, 0),
        grant(4, 1),
        grant(4, 2),
    ];
    assert_eq!(rt; history.lines.as_slice(), lines.as_slice());
    Ok(())
}

#[test]
fn numbers_are_spent(rt: HostRuntime) -> Result<(), Fail> {
    let alloc = rt.alloc();
    let wants = [
        (16, None),
        (17, Some(OracleEnd::SendsSpent { federate: 0 })),
    ];
    for (end, want) in wants {
        let mut federates = Items::new(alloc);
        let actions = [send(1, 0, None); 16];
        let wish = Wish::Tar(1);
        federates.push(federate(alloc, b"a", wish, Trigger::Grant, &actions, 64)?)?;
        let federation = federation(&rt, alloc, end, 1, federates)?;
        assert_eq!(rt; simulate(alloc, &federation).err(), want);
        assert_eq!(rt; need(alloc, &federation).err(), want);
    }
    Ok(())
}

/// A rule that sends at one grant alone, so much later.
fn send_at(alloc: Global, time: u32, delay: u32) -> Result<Rule, AllocError> {
    let mut rule = rule(alloc, Trigger::Grant, &[send(delay, 0, None)])?;
    rule.conds.push(Cond {
        left: Operand::Now,
        test: Compare::Eq,
        right: Operand::Num(time),
    })?;
    Ok(rule)
}

/// Federate a, with these actions at the start and with sends at these grants, and federate b; the
/// group has these members.
fn sender(
    rt: &impl Abort,
    alloc: Global,
    end: u64,
    members: u16,
    step: u32,
    actions: &[Action],
    sends: &[(u32, u32)],
) -> Result<Federation, AllocError> {
    let mut first = federate(alloc, b"a", Wish::Tar(step), Trigger::Start, actions, 1)?;
    for (time, delay) in sends {
        first.rules.push(send_at(alloc, *time, *delay)?)?;
    }
    let mut federates = Items::new(alloc);
    federates.push(first)?;
    federates.push(federate(alloc, b"b", Wish::Ner(5), Trigger::Start, &[], 0)?)?;
    federation(rt, alloc, end, members, federates)
}

#[test]
fn needs_are_the_most_that_is_outstanding(rt: HostRuntime) -> Result<(), Fail> {
    let alloc = rt.alloc();
    let past_the_end = [send(5, 1, None), send(6, 2, None)];
    let taken_back = [send(4, 9, Some(0)), Action::Retract { var: 0 }];
    let to_itself = [send(1, 0, None)];
    let at_once = [(1, 1)];
    let one_after_another = [(1, 5), (2, 5)];
    let rows = [
        (5, 2, 1, past_the_end.as_slice(), at_once.as_slice(), [2, 0]),
        (4, 2, 4, taken_back.as_slice(), [].as_slice(), [2, 0]),
        (1, 1, 1, to_itself.as_slice(), [].as_slice(), [0, 0]),
        (8, 2, 1, [].as_slice(), one_after_another.as_slice(), [2, 0]),
        // The one that is timed now is there no more.
        (8, 2, 1, [].as_slice(), [(1, 1), (2, 1)].as_slice(), [1, 0]),
    ];
    for (end, members, step, actions, sends, wants) in rows {
        let needs = need(
            alloc,
            &sender(&rt, alloc, end, members, step, actions, sends)?,
        )?;
        assert_eq!(rt; needs.as_slice(), wants.as_slice());
    }
    Ok(())
}
