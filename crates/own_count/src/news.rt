//! A federation in code: a writer that sends news at each of its grants, and a reader.

use crate::Failure;
use kit_base::Items;
use kit_rules::{Action, Federate, Federation, Group, Name, Operand, Rule, Trigger, Var, Wish};
use std::alloc::{AllocError, Global};

/// The place of the group `news`, and that of the variable `count`: both are first in their lists.
const NEWS: u8 = 0;

const COUNT: u8 = 0;

/// The mask of the members of `news`: the second federate alone.
const READER: u16 = 0b10;

fn rule(alloc: Global, on: Trigger, action: Action) -> Result<Rule, AllocError> {
    let mut actions = Items::new(alloc);
    actions.push(action)?;
    Ok(Rule {
        on,
        conds: Items::new(alloc),
        actions,
    })
}

/// At each grant the writer sends the time, with this delay; its lookahead is 2.
fn writer(alloc: Global, delay: u32) -> Result<Federate, AllocError> {
    let send = Action::Send {
        group: NEWS,
        delay,
        value: Operand::Now,
        keep: None,
    };
    let mut rules = Items::new(alloc);
    rules.push(rule(alloc, Trigger::Grant, send)?)?;
    Ok(Federate {
        name: Name::of(alloc, b"writer")?,
        lookahead: Some(2),
        advance: Wish::Tar(4),
        vars: Items::new(alloc),
        rules,
    })
}

/// The reader counts the news.
fn reader(alloc: Global) -> Result<Federate, AllocError> {
    let add = Action::Add {
        var: COUNT,
        by: Operand::Num(1),
    };
    let mut vars = Items::new(alloc);
    vars.push(Var {
        name: Name::of(alloc, b"count")?,
        value: 0,
    })?;
    let mut rules = Items::new(alloc);
    rules.push(rule(alloc, Trigger::Got { group: NEWS }, add)?)?;
    Ok(Federate {
        name: Name::of(alloc, b"reader")?,
        lookahead: Some(1),
        advance: Wish::Ner(10),
        vars,
        rules,
    })
}

/// The federation of a writer and a reader up to time 10, in which news take this long.
pub fn news(alloc: Global, delay: u32) -> Result<Federation, Failure> {
    let mut groups = Items::new(alloc);
    groups.push(Group {
        name: Name::of(alloc, b"news")?,
        members: READER,
    })?;
    let mut federates = Items::new(alloc);
    federates.push(writer(alloc, delay)?)?;
    federates.push(reader(alloc)?)?;
    Ok(Federation::try_new(10, 4, groups, federates)?)
}
