ghost use Rattle.std.specs.Prelude.{◌≡◌, ◌+◌, ◌<◌, ◌≤◌, length};
ghost use Rattle.kit_rules.specs.Federation.{IsFederation};
ghost use Rattle.kit_rules.specs.Limits.{most_time, most_buffers, most_federates};
ghost use Rattle.kit_rules.specs.Parts.{federate_at, group_at, effective_lookahead};

use crate::{Federate, Group};
use kit_base::Items;
use std::marker::Model;

/// A federation, which keeps the limits that [`obeys`](crate::obeys) tests, as [`Federation::new`]
/// lists them. Its federates and groups go by their numbers, their places in the lists from 0 on.
#[derive(Debug, Drop)]
pub struct Federation {
    end: u64,
    buffers: u16,
    groups: Items<Group>,
    federates: Items<Federate>,
}

impl Model for Federation {
    ghost use Rattle.kit_rules.specs.Parts.{Parts};

    ghost Value = { Parts };

    ghost view = { λ f. record {
      end = f.end;
      buffers = f.buffers;
      groups = f.groups;
      federates = f.federates;
    } };

    ghost use Rattle.kit_rules.specs.Federation.{IsFederation};

    ghost invariant = { λ f. IsFederation
        (record { end = f.end; buffers = f.buffers; groups = f.groups; federates = f.federates }) };
}

impl Federation {
    /// The federation with these parts, which have to keep the limits.
    ///
    /// - The end time is from 1 to 100,000, and each federate has from 1 to 1,024 buffers.
    /// - There are 1 to 16 federates and 0 to 32 groups. A federate has 0 to 8 variables and 0 to
    /// 64
    ///   rules, and a rule 0 to 8 conditions and 0 to 16 actions.
    /// - A name has 1 to 16 ASCII letters, digits, `_` and `-`. The names of the federates differ
    /// from
    ///   each other, and so do those of the groups, and those of a federate's variables.
    /// - A time-regulating federate has a lookahead. One that is not has none, and its rules have
    /// no Send
    ///   and no Retract.
    /// - Lookahead and steps are from 1 to 100,000, and a delay from the sender's lookahead to
    /// 100,000.
    /// - The members of a group are federates, and rules name variables and groups that are there.
    pub fn new(
        end: u64,
        buffers: u16,
        groups: Items<Group>,
        federates: Items<Federate>,
    ) -> Federation
        requires { IsFederation (record
            { end = end; buffers = buffers; groups = groups; federates = federates }) }
        ensures { result ≡ record {
          end = end;
          buffers = buffers;
          groups = groups;
          federates = federates;
        } }
    {
        Federation {
            end,
            buffers,
            groups,
            federates,
        }
    }

    /// Does nothing: it says that a federation keeps its limits.
    pub fn keeps_its_limits(&self)
        ensures { IsFederation self.now }
    {
        // To read a field is to learn the limits.
        let _end = self.end;
    }

    /// The end time, in logical time, at which each federate's last grant comes.
    pub fn end(&self) -> u64
        ensures value { result ≡ self.now.end }
        ensures low { 1 ≤ result }
        ensures high { result ≤ most_time }
        ensures sound { IsFederation self.now }
    {
        self.end
    }

    /// How many buffers each federate has.
    pub fn buffers(&self) -> u16
        ensures value { result ≡ self.now.buffers }
        ensures low { 1 ≤ result }
        ensures high { result ≤ most_buffers }
        ensures sound { IsFederation self.now }
    {
        self.buffers
    }

    /// How many federates there are.
    pub fn count(&self) -> u8
        ensures value { result ≡ length self.now.federates }
        ensures low { 1 ≤ result }
        ensures high { result ≤ most_federates }
        ensures sound { IsFederation self.now }
    {
        self.federates.len() as u8
    }

    /// The federates, in the order of their numbers.
    pub fn federates(&self) -> &[Federate]
        ensures items { result.now ≡ self.now.federates }
        ensures sound { IsFederation self.now }
    {
        self.federates.as_slice()
    }

    /// The federate of a number.
    pub fn federate(&self, i: u8) -> &Federate
        requires { i < length self.now.federates }
        ensures value { result.now ≡ federate_at self.now i }
        ensures sound { IsFederation self.now }
    {
        &self.federates.as_slice()[i as usize]
    }

    /// How far past its time a federate sends nothing: its lookahead, or more than the end time
    /// where it is not regulating.
    #[tactic(auto, unfolding(crate::specs::Parts::effective_lookahead))]
    pub fn effective_lookahead(&self, i: u8) -> u32
        requires { i < length self.now.federates }
        ensures value { result ≡ effective_lookahead self.now i }
        ensures low { 1 ≤ result }
        ensures high { result ≤ most_time + 1 }
    {
        match self.federate(i).lookahead {
            Some(lookahead) => lookahead,
            None => self.end as u32 + 1,
        }
    }

    /// The group of a number.
    pub fn group(&self, g: u8) -> &Group
        requires { g < length self.now.groups }
        ensures value { result.now ≡ group_at self.now g }
        ensures sound { IsFederation self.now }
    {
        &self.groups.as_slice()[g as usize]
    }

    /// The groups, in the order of their numbers.
    pub fn groups(&self) -> &[Group]
        ensures items { result.now ≡ self.now.groups }
        ensures sound { IsFederation self.now }
    {
        self.groups.as_slice()
    }
}
