use crate::{Cut, Standing, cut_at, resume_from, valid_cut};
use kit_base::{Items, Kind, Line, Message};
use kit_rules::{
    Action, Federate, Federation, Group, Name, Operand, Request, Rule, Trigger, Wish, obeys,
};
use std::alloc::{AllocError, Global};
use std::process::Abort;
use std::test::*;

/// A federate without variables, which does this at the start.
fn federate(
    alloc: Global,
    name: &[u8],
    step: u32,
    actions: &[Action],
) -> Result<Federate, AllocError> {
    let mut rules = Items::new(alloc);
    rules.push(Rule {
        on: Trigger::Start,
        conds: Items::new(alloc),
        actions: Items::from_vec(Vec::from_slice(alloc, actions)?),
    })?;
    Ok(Federate {
        name: Name::of(alloc, name)?,
        lookahead: Some(1),
        advance: Wish::Tar(step),
        vars: Items::new(alloc),
        rules,
    })
}

/// Federate a, which sends 7 at the start for time 1, and federate b, which alone receives it. They
/// end at time 2.
fn pair(rt: &impl Abort, alloc: Global) -> Result<Federation, AllocError> {
    let sent = [Action::Send {
        group: 0,
        delay: 1,
        value: Operand::Num(7),
        keep: None,
    }];
    let mut federates = Items::new(alloc);
    federates.push(federate(alloc, b"a", 1, &sent)?)?;
    federates.push(federate(alloc, b"b", 2, &[])?)?;
    let mut groups = Items::new(alloc);
    groups.push(Group {
        name: Name::of(alloc, b"g")?,
        members: 2,
    })?;
    assert!(rt; obeys(2, 1, groups.as_slice(), federates.as_slice()));
    Ok(Federation::new(2, 1, groups, federates))
}

fn event(time: u64, number: u16, value: u32) -> Message {
    Message {
        time,
        sender: 0,
        number,
        kind: Kind::Event,
        group: 0,
        value,
    }
}

fn standing(alloc: Global, now: u64, step: u32, pending: Items<Message>) -> Standing {
    Standing {
        now,
        vars: [0; 8],
        wish: Wish::Tar(step),
        request: Some(Request::Tar(2)),
        own: Items::new(alloc),
        pending,
    }
}

/// The cut of that federation at time 1, with this message pending for federate b.
fn cut_of_pair(alloc: Global, message: Message) -> Result<Cut, AllocError> {
    let mut pending = Items::new(alloc);
    pending.push(message)?;
    let mut federates = Items::new(alloc);
    federates.push(standing(alloc, 1, 1, Items::new(alloc)))?;
    federates.push(standing(alloc, 0, 2, pending))?;
    Ok(Cut {
        at: 1,
        next: Items::from_vec(Vec::from_slice(alloc, &[2, 1])?),
        federates,
    })
}

#[test]
fn message_on_its_way_is_pending(rt: HostRuntime) -> Result<(), Fail> {
    let alloc = rt.alloc();
    let federation = pair(&rt, alloc)?;
    let (cut, lines) = cut_at(alloc, &federation, 1)?;
    let granted = Line::Grant {
        time: 1,
        federate: 0,
    };
    assert_eq!(rt; lines.as_slice(), [granted].as_slice());
    assert_eq!(rt; cut.next.as_slice(), [2, 1].as_slice());
    for standing in cut.federates.as_slice() {
        let waits = if standing.now == 0 { 1 } else { 0 };
        assert_eq!(rt; standing.pending.len(), waits);
    }
    Ok(())
}

#[test]
fn cuts_with_one_message(rt: HostRuntime) -> Result<(), Fail> {
    let alloc = rt.alloc();
    let federation = pair(&rt, alloc)?;
    let cases = [
        (event(1, 1, 7), true),
        (event(2, 0, 8), true),
        (event(3, 1, 7), false),
        (event(1, 2, 7), false),
    ];
    for (message, valid) in cases {
        let cut = cut_of_pair(alloc, message)?;
        assert_eq!(rt; valid_cut(&federation, &cut), valid);
    }
    Ok(())
}

#[test]
fn what_is_pending_is_delivered(rt: HostRuntime) -> Result<(), Fail> {
    let alloc = rt.alloc();
    let federation = pair(&rt, alloc)?;
    let message = event(1, 1, 8);
    let cut = cut_of_pair(alloc, message)?;
    assert!(rt; valid_cut(&federation, &cut));
    let history = resume_from(alloc, &federation, &cut)?;
    let lines = [
        Line::Grant {
            time: 2,
            federate: 0,
        },
        Line::Deliver {
            granted: 2,
            federate: 1,
            message,
        },
        Line::Grant {
            time: 2,
            federate: 1,
        },
    ];
    assert_eq!(rt; history.lines.as_slice(), lines.as_slice());
    Ok(())
}
