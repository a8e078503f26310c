//! Rules of federates, made at random.
ghost use Rattle.std.specs.Prelude.{◌<◌};

use crate::chance::Chance;
use kit_base::Items;
use kit_rules::{Action, Compare, Cond, Operand, Rule, Trigger, Wish};
use std::alloc::{AllocError, Global};

/// The variables that rules set and read as chance has it.
pub const FREE_VARS: u8 = 3;

/// The variable that counts how often rules on a delivery were run.
const COUNT: u8 = 3;

/// What a federate's rules may do: send to the groups up to a last one, with its lookahead.
#[derive(Clone, Copy, Debug)]
pub struct Scope {
    pub last_group: u8,
    pub lookahead: Option<u32>,
}

fn group(chance: &mut Chance, last: u8) -> u8 {
    chance.below(u64::from(last) + 1) as u8
}

fn variable(chance: &mut Chance) -> u8
    ensures { result < 3 }
{
    chance.below(u64::from(FREE_VARS)) as u8
}

fn operand(chance: &mut Chance) -> Operand {
    match chance.below(5) {
        0 => Operand::Num(chance.below(50) as u32),
        1 => Operand::Now,
        2 => Operand::Value,
        _ => Operand::Var(variable(chance)),
    }
}

fn compare(chance: &mut Chance) -> Compare {
    match chance.below(6) {
        0 => Compare::Lt,
        1 => Compare::Le,
        2 => Compare::Eq,
        3 => Compare::Ne,
        4 => Compare::Ge,
        _ => Compare::Gt,
    }
}

fn condition(chance: &mut Chance) -> Cond {
    Cond {
        left: operand(chance),
        test: compare(chance),
        right: operand(chance),
    }
}

pub fn step(chance: &mut Chance) -> u32 {
    1 + chance.below(20) as u32
}

pub fn wish(chance: &mut Chance) -> Wish {
    match chance.below(2) {
        0 => Wish::Tar(step(chance)),
        _ => Wish::Ner(step(chance)),
    }
}

fn delay(chance: &mut Chance, lookahead: u32) -> u32 {
    match chance.below(3) {
        0 => lookahead,
        _ => lookahead.saturating_add(chance.below(12) as u32),
    }
}

fn send(chance: &mut Chance, last_group: u8, lookahead: u32) -> Action {
    let kept = variable(chance);
    Action::Send {
        group: group(chance, last_group),
        delay: delay(chance, lookahead),
        value: operand(chance),
        keep: match chance.below(2) {
            0 => None,
            _ => Some(kept),
        },
    }
}

/// An action that sends nothing.
fn own_action(chance: &mut Chance) -> Action {
    let var = variable(chance);
    match chance.below(6) {
        0 => Action::Tar { step: step(chance) },
        1 => Action::Ner { step: step(chance) },
        2 => Action::Set {
            var,
            to: operand(chance),
        },
        3 => Action::Sub {
            var,
            by: operand(chance),
        },
        _ => Action::Add {
            var,
            by: operand(chance),
        },
    }
}

fn action(chance: &mut Chance, scope: Scope) -> Action {
    match (scope.lookahead, chance.below(6)) {
        (Some(lookahead), 0..3) => send(chance, scope.last_group, lookahead),
        (Some(_), 3) => Action::Retract {
            var: variable(chance),
        },
        _ => own_action(chance),
    }
}

fn trigger(chance: &mut Chance, last_group: u8) -> Trigger {
    match chance.below(5) {
        0 => Trigger::Start,
        1 | 2 => Trigger::Grant,
        _ => Trigger::Got {
            group: group(chance, last_group),
        },
    }
}

/// A rule. One on a delivery is run so often at most: else what comes could send ever more.
fn rule(alloc: Global, chance: &mut Chance, scope: Scope, most: u32) -> Result<Rule, AllocError> {
    let on = trigger(chance, scope.last_group);
    let mut conds = Items::new(alloc);
    let mut actions = Items::new(alloc);
    if let Trigger::Got { .. } = on {
        conds.push(Cond {
            left: Operand::Var(COUNT),
            test: Compare::Lt,
            right: Operand::Num(most),
        })?;
        actions.push(Action::Add {
            var: COUNT,
            by: Operand::Num(1),
        })?;
    }
    if chance.below(4) == 0 {
        conds.push(condition(chance))?;
    }
    for _ in 0..=chance.below(4) {
        actions.push(action(chance, scope))?;
    }
    Ok(Rule { on, conds, actions })
}

pub fn rules(alloc: Global, chance: &mut Chance, scope: Scope) -> Result<Items<Rule>, AllocError> {
    let most = chance.below(60) as u32;
    let mut rules = Items::new(alloc);
    for _ in 0..=chance.below(6) {
        rules.push(rule(alloc, chance, scope, most)?)?;
    }
    Ok(rules)
}

/// Rules that send 1,024 messages at each grant: after 16 grants no number is left.
pub fn spending_rules(alloc: Global, group: u8, lookahead: u32) -> Result<Items<Rule>, AllocError> {
    let send = Action::Send {
        group,
        delay: lookahead,
        value: Operand::Now,
        keep: None,
    };
    let mut rules = Items::new(alloc);
    for _ in 0..64u8 {
        let mut actions = Items::new(alloc);
        for _ in 0..16u8 {
            actions.push(send)?;
        }
        rules.push(Rule {
            on: Trigger::Grant,
            conds: Items::new(alloc),
            actions,
        })?;
    }
    Ok(rules)
}
