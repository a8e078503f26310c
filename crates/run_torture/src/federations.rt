//! Federations, made at random.
ghost use Rattle.std.specs.Prelude.{◌≤◌};

use crate::chance::Chance;
use crate::rules::{Scope, rules, spending_rules, wish};
use kit_base::Items;
use kit_rules::{Federate, Federation, Group, MOST_BUFFERS, Name, Var, obeys};
use std::alloc::{AllocError, Global};

/// The greatest lookahead.
const MOST_LOOKAHEAD: u64 = 30;

/// How many federates there are, and the last group that they send to. Behind it comes a group of
/// nobody.
#[derive(Clone, Copy, Debug)]
struct Size {
    federates: u8,
    last_group: u8,
}

/// A name of a letter and one of the letters from `a` on.
fn name(alloc: Global, letter: u8, number: u8) -> Result<Name, AllocError> {
    Name::of(alloc, &[letter, b'a' + number % 26])
}

fn variables(alloc: Global) -> Result<Items<Var>, AllocError> {
    let mut vars = Items::new(alloc);
    for number in 0..4u8 {
        let name = name(alloc, b'v', number)?;
        vars.push(Var { name, value: 0 })?;
    }
    Ok(vars)
}

/// A federate's lookahead; none for one in eight.
fn lookahead(chance: &mut Chance) -> Option<u32> {
    match chance.below(8) {
        0 => None,
        1..5 => Some(1 + chance.below(3) as u32),
        _ => Some(1 + chance.below(MOST_LOOKAHEAD) as u32),
    }
}

fn federate(
    alloc: Global,
    chance: &mut Chance,
    size: Size,
    number: u8,
) -> Result<Federate, AllocError> {
    let lookahead = lookahead(chance);
    let scope = Scope {
        last_group: size.last_group,
        lookahead,
    };
    let nobody = size.last_group.saturating_add(1);
    let rules = match lookahead {
        Some(lookahead) if chance.below(500) == 0 => spending_rules(alloc, nobody, lookahead)?,
        _ => rules(alloc, chance, scope)?,
    };
    Ok(Federate {
        name: name(alloc, b'f', number)?,
        lookahead,
        advance: wish(chance),
        vars: variables(alloc)?,
        rules,
    })
}

/// Some of so many federates, as a mask.
fn members(chance: &mut Chance, federates: u8) -> u16
    requires { federates ≤ 16 }
{
    let some = chance.below(1 << federates) as u16;
    let others = chance.below(1 << federates) as u16;
    some & others
}

fn groups(alloc: Global, chance: &mut Chance, size: Size) -> Result<Items<Group>, AllocError>
    requires { size.federates ≤ 16 }
{
    let mut groups = Items::new(alloc);
    for number in 0..=size.last_group {
        groups.push(Group {
            name: name(alloc, b'g', number)?,
            members: members(chance, size.federates),
        })?;
    }
    groups.push(Group {
        name: name(alloc, b'n', 0)?,
        members: 0,
    })?;
    Ok(groups)
}

/// The federation of a seed, with so many buffers for each federate, from 1 to 1,024.
///
/// It has 1 to 16 federates of all kinds, and ends before time 100.
pub fn federation_with(
    alloc: Global,
    seed: u64,
    buffers: u16,
) -> Result<Option<Federation>, AllocError> {
    let mut chance = Chance::new(seed);
    let chance = &mut chance;
    let size = Size {
        federates: 1 + chance.below(16) as u8,
        last_group: chance.below(5) as u8,
    };
    let end = 1 + chance.below(99);
    let groups = groups(alloc, chance, size)?;
    let mut federates = Items::new(alloc);
    for number in 0..size.federates {
        federates.push(federate(alloc, chance, size, number)?)?;
    }
    if obeys(end, buffers, groups.as_slice(), federates.as_slice()) {
        Ok(Some(Federation::new(end, buffers, groups, federates)))
    } else {
        Ok(None)
    }
}

/// A number of buffers where each federate needs so many at most: that number, more, or fewer.
pub fn buffers_by(chance: &mut Chance, need: u16) -> u16 {
    let most = u64::from(need.clamp(1, MOST_BUFFERS as u16));
    let buffers = match chance.below(4) {
        0 => most + chance.below(32),
        1 => 1 + chance.below(most),
        _ => most,
    };
    buffers.min(MOST_BUFFERS) as u16
}
