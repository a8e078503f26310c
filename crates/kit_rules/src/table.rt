//! What a federation's file says: groups, federates, and their rules.

ghost use Rattle.std.specs.Prelude.{◌≡◌};
ghost use Rattle.kit_rules.specs.Delivery.{request_due};
ghost use Rattle.kit_rules.specs.Simulation.{request_at};

use crate::Name;
use kit_base::Items;

/// How a federate asks to advance from now on, with a step of 1 to 100,000 in logical time.
#[derive(Clone, Copy, Debug, PartialEq, Eq)]
pub enum Wish {
    /// HLA 1.3's Time Advance Request: to now and this step.
    Tar(u32),
    /// HLA 1.3's Next Event Request: to the next message, but no further than now and this step.
    Ner(u32),
}

/// A federate's request to advance, with its logical time: now and the wish's step, or the end time
/// where that is less.
#[derive(Clone, Copy, Debug, PartialEq, Eq)]
pub enum Request {
    /// HLA 1.3's Time Advance Request: it is due at its time.
    Tar(u64),
    /// HLA 1.3's Next Event Request: it is due at its time, or at that of an earlier pending
    /// message.
    Ner(u64),
}

impl Wish {
    /// The request that it makes at a time, where the federation ends at this time: to now and the
    /// step, or to the end where that is sooner.
    pub fn request(self, now: u64, end: u64) -> Request
        ensures { result ≡ request_at self now end }
    {
        match self {
            Wish::Tar(step) => Request::Tar(now.saturating_add(step as u64).min(end)),
            Wish::Ner(step) => Request::Ner(now.saturating_add(step as u64).min(end)),
        }
    }
}

impl Request {
    /// When it is due, where the least time of a pending message is this, or none is pending.
    pub fn due(self, least: Option<u64>) -> u64
        ensures { result ≡ request_due self least }
    {
        match (self, least) {
            (Request::Tar(time), _) | (Request::Ner(time), None) => time,
            (Request::Ner(time), Some(least)) => time.min(least),
        }
    }
}

/// A number that a rule reads when its turn comes.
#[derive(Clone, Copy, Debug, PartialEq, Eq)]
pub enum Operand {
    /// The number itself.
    Num(u32),
    /// A variable of the federate, by its place in the table.
    Var(u8),
    /// The federate's logical time.
    Now,
    /// The value of the message that was delivered; 0 at the start and at a grant.
    Value,
}

/// How a condition compares its operands, as numbers without a sign.
#[derive(Clone, Copy, Debug, PartialEq, Eq)]
pub enum Compare {
    /// Less.
    Lt,
    /// Less or equal.
    Le,
    /// Equal.
    Eq,
    /// Not equal.
    Ne,
    /// Greater or equal.
    Ge,
    /// Greater.
    Gt,
}

/// A condition of a rule.
#[derive(Clone, Copy, Debug, PartialEq, Eq)]
pub struct Cond {
    /// What stands before the sign.
    pub left: Operand,
    /// The sign.
    pub test: Compare,
    /// What stands behind it.
    pub right: Operand,
}

/// What makes a rule's turn come.
#[derive(Clone, Copy, Debug, PartialEq, Eq)]
pub enum Trigger {
    /// The run begins, at time 0.
    Start,
    /// An advance was granted, after the deliveries that came with it.
    Grant,
    /// An Event was delivered.
    Got {
        /// The group that it was sent to, by its number.
        group: u8,
    },
}

/// What a rule does. Variables go by their places in the federate's table, groups by their numbers.
#[derive(Clone, Copy, Debug, PartialEq, Eq)]
pub enum Action {
    /// Gives a variable a value.
    Set {
        /// The variable.
        var: u8,
        /// Its new value.
        to: Operand,
    },
    /// Adds to a variable, modulo 2^32.
    Add {
        /// The variable.
        var: u8,
        /// What is added.
        by: Operand,
    },
    /// Takes from a variable, modulo 2^32.
    Sub {
        /// The variable.
        var: u8,
        /// What is taken.
        by: Operand,
    },
    /// Sends an Event under the federate's next number.
    Send {
        /// The group that it goes to.
        group: u8,
        /// How long after now it is timed: from the lookahead to 100,000.
        delay: u32,
        /// The value that it brings.
        value: Operand,
        /// A variable that is given the Event's number, so that it can be taken back.
        keep: Option<u8>,
    },
    /// Takes back the federate's own Event whose number a variable has, as HLA 1.3's Retract does.
    ///
    /// A Retraction is sent, under the next number, where an own Event has that number, no earlier
    /// Retraction names it, and it is timed by the end and no sooner than now and the lookahead.
    /// Otherwise nothing is done.
    Retract {
        /// The variable, of which all 32 bits count.
        var: u8,
    },
    /// Asks for time by Time Advance Request from the next request on.
    Tar {
        /// The step, of 1 to 100,000.
        step: u32,
    },
    /// Asks for time by Next Event Request from the next request on.
    Ner {
        /// The step, of 1 to 100,000.
        step: u32,
    },
}

/// A rule of a federate: at its trigger, and if all of its conditions hold, its actions are done.
#[derive(Debug, Drop)]
pub struct Rule {
    /// When its turn comes.
    pub on: Trigger,
    /// Its conditions, of which there are at most 8. They are read when its turn comes.
    pub conds: Items<Cond>,
    /// Its actions in order, of which there are at most 16.
    pub actions: Items<Action>,
}

/// A variable of a federate.
#[derive(Debug, Drop)]
pub struct Var {
    /// Its name, which no other variable of the federate has.
    pub name: Name,
    /// Its value before anything ran.
    pub value: u32,
}

/// A group of federates to which messages are sent.
#[derive(Debug, Drop)]
pub struct Group {
    /// Its name, which no other group has.
    pub name: Name,
    /// Its members as a mask: bit `j` stands for federate `j`.
    pub members: u16,
}

/// A federate, by what it is made of.
#[derive(Debug, Drop)]
pub struct Federate {
    /// Its name, which no other federate has.
    pub name: Name,
    /// HLA 1.3's lookahead, in logical time, from 1 to 100,000: no send is timed sooner after now.
    /// A federate without one is not time-regulating: it sends nothing and takes nothing back.
    pub lookahead: Option<u32>,
    /// Its wish before anything ran.
    pub advance: Wish,
    /// Its variables, of which there are at most 8.
    pub vars: Items<Var>,
    /// Its rules in order, of which there are at most 64.
    pub rules: Items<Rule>,
}
