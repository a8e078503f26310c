//! The federates of a generated federation.
ghost use Rattle.std.specs.Prelude.{◌≡◌, ◌≤◌, ◌<◌, ◌+◌, ◌-◌, ◌%◌, map, IfOk};
ghost use Rattle.std.specs.List.{range_with_len};
ghost use Rattle.kit_gen.specs.Generator.{advance_of, delay_of, federate_of, lookahead_of};
ghost use Rattle.kit_gen.specs.Generator.{rules_of, variable_of, variables};

use crate::picks::{name_of, pick};
use kit_base::Items;
use kit_rules::{Action, Compare, Cond, Federate, Name, Operand, Rule, Trigger, Var, Wish};
use std::alloc::{AllocError, Global};

/// The place of the sum of the values that a federate received.
const SUM: u8 = 0;

/// The place of the count of values from the group of the third federate before.
const HITS: u8 = 1;

/// The place of the number of a federate's last send.
const LAST: u8 = 2;

fn lookahead_of(seed: u32, federate: u8) -> u32
    ensures value { result ≡ lookahead_of seed federate }
    ensures small { result ≤ 5 }
{
    1 + pick(seed, 100 + federate as u32, 5)
}

fn delay_of(seed: u32, federate: u8) -> u32
    ensures { result ≡ delay_of seed federate }
{
    lookahead_of(seed, federate) + pick(seed, 400 + federate as u32, 4)
}

fn advance_of(seed: u32, federate: u8) -> Wish
    ensures { result ≡ advance_of seed federate }
{
    let number = federate as u32;
    if federate % 2 == 0 {
        Wish::Tar(1 + pick(seed, 200 + number, 9))
    } else {
        Wish::Ner(5 + pick(seed, 300 + number, 20))
    }
}

fn variable_of(alloc: Global, name: &[u8]) -> Result<Var, AllocError>
    ensures { IfOk result (λ made. made ≡ variable_of name.now) }
{
    Ok(Var {
        name: Name::of(alloc, name)?,
        value: 0,
    })
}

fn variables(alloc: Global) -> Result<Items<Var>, AllocError>
    ensures { IfOk result (λ made. made ≡ variables) }
{
    let mut vars = Items::new(alloc);
    vars.push(variable_of(alloc, b"sum")?)?;
    vars.push(variable_of(alloc, b"hits")?)?;
    vars.push(variable_of(alloc, b"last")?)?;
    Ok(vars)
}

fn rule_of(
    alloc: Global,
    on: Trigger,
    conds: &[Cond],
    actions: &[Action],
) -> Result<Rule, AllocError>
    ensures { IfOk result (λ made. made
        ≡ record { on = on; conds = conds.now; actions = actions.now }) }
{
    Ok(Rule {
        on,
        conds: Items::from_vec(Vec::from_slice(alloc, conds)?),
        actions: Items::from_vec(Vec::from_slice(alloc, actions)?),
    })
}

/// Which federate's group it is that stands so far before one in a ring of so many.
fn group_before(count: u8, federate: u8, before: u8) -> u8
    requires count { before ≤ count × count ≤ 16 }
    requires federate { federate < count }
    ensures { result ≡ (federate + count - before) % count }
{
    (federate + count - before) % count
}

fn rules_of(alloc: Global, seed: u32, count: u8, federate: u8) -> Result<Items<Rule>, AllocError>
    requires count { 4 ≤ count × count ≤ 16 }
    requires federate { federate < count }
    ensures { IfOk result (λ made. made ≡ rules_of seed count federate) }
{
    let next = Trigger::Got {
        group: group_before(count, federate, 1),
    };
    let third = Trigger::Got {
        group: group_before(count, federate, 3),
    };
    let three_hits = Cond {
        left: Operand::Var(HITS),
        test: Compare::Ge,
        right: Operand::Num(3),
    };
    let add_value = Action::Add {
        var: SUM,
        by: Operand::Value,
    };
    let add_hit = Action::Add {
        var: HITS,
        by: Operand::Num(1),
    };
    let take_back = Action::Retract { var: LAST };
    let count_anew = Action::Set {
        var: HITS,
        to: Operand::Num(0),
    };
    let send = Action::Send {
        group: federate,
        delay: delay_of(seed, federate),
        value: Operand::Now,
        keep: Some(LAST),
    };
    let mut rules = Items::new(alloc);
    rules.push(rule_of(alloc, next, &[], &[add_value])?)?;
    rules.push(rule_of(alloc, third, &[], &[add_value, add_hit])?)?;
    rules.push(rule_of(alloc, third, &[three_hits], &[take_back, count_anew])?)?;
    rules.push(rule_of(alloc, Trigger::Grant, &[], &[send])?)?;
    Ok(rules)
}

fn federate_of(alloc: Global, seed: u32, count: u8, federate: u8) -> Result<Federate, AllocError>
    requires count { 4 ≤ count × count ≤ 16 }
    requires federate { federate < count }
    ensures { IfOk result (λ made. made ≡ federate_of seed count federate) }
{
    Ok(Federate {
        name: name_of(alloc, b'f', federate)?,
        lookahead: Some(lookahead_of(seed, federate)),
        advance: advance_of(seed, federate),
        vars: variables(alloc)?,
        rules: rules_of(alloc, seed, count, federate)?,
    })
}

/// So many federates.
pub(crate) fn federates_of(
    alloc: Global,
    seed: u32,
    count: u8,
) -> Result<Items<Federate>, AllocError>
    requires { 4 ≤ count × count ≤ 16 }
    ensures { IfOk result (λ made. made ≡ map (federate_of seed count) (range_with_len 0 count)) }
{
    let mut federates = Items::new(alloc);
    for federate in 0..count {
        federates.push(federate_of(alloc, seed, count, federate)?)?;
    }
    Ok(federates)
}
