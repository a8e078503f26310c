//! A federate's rules, its logical time and its request to advance.

ghost use Rattle.std.specs.Prelude.{◌≡◌, ◌+◌, ◌<◌, ◌≤◌, ◌++◌, nat_lt, length, take, drop, Some};
ghost use Rattle.std.specs.Prelude.{None, OnOk, OnErr, if◌then◌else◌};
ghost use Rattle.kit_rules.specs.Parts.{federate_at};
ghost use Rattle.kit_rules.specs.Simulation.{request_at};
ghost use Rattle.kit_rules.specs.Step.{opening_state, state_after};

use kit_base::Message;
use kit_rules::{ApplyEnd, FedState, Federation, Request, Trigger, apply};
use std::alloc::Global;

/// Where a federate stands in its course.
#[derive(Drop)]
pub(crate) struct Course {
    pub(crate) state: FedState,
    /// Its logical time: its last grant, or 0.
    pub(crate) now: u64,
    /// Its pending request; none before the start's rules have run.
    pub(crate) request: Option<Request>,
}

/// A federate's lookahead; none where it is not time-regulating.
pub(crate) fn lookahead_of(federation: &Federation, me: u8) -> Option<u64>
    requires { me < length federation.now.federates }
    ensures { result ≡ (federate_at federation.now me).lookahead }
{
    match federation.federate(me).lookahead {
        None => None,
        Some(lookahead) => Some(u64::from(lookahead)),
    }
}

impl Course {
    pub(crate) fn new(alloc: Global, federation: &Federation, me: u8) -> Course
        requires { me < length federation.now.federates }
        ensures { result ≡ record {
          state = opening_state (federate_at federation.now me);
          now = 0;
          request = None;
        } }
    {
        Course {
            state: FedState::new(alloc, federation, me),
            now: 0,
            request: None,
        }
    }

    /// Runs the rules of a trigger; what they send is added to `made`.
    pub(crate) fn run(
        &mut self,
        federation: &Federation,
        me: u8,
        trigger: Trigger,
        time: u64,
        value: u32,
        made: &mut Vec<Message>,
    ) -> Result<(), ApplyEnd>
        requires federate { me < length federation.now.federates }
        requires time { time ≤ federation.now.end }
        ensures state { OnOk result (let s = self.old.state in
            self.new ≡ record self.old
            { state = state_after federation.now me trigger time value s }) }
        ensures made { OnOk result (made.new.items
            ≡ made.old.items ++ drop (length self.old.state.sends) self.new.state.sends) }
        ensures kept { take (length self.old.state.sends) self.new.state.sends
            ≡ self.old.state.sends }
        ensures unchanged { OnErr result
            ((self.new ≡ self.old) × (made.new.items ≡ made.old.items)) }
        ensures spent { result ≡ Err ApplyEnd.SendsSpent
            → 16385 < (state_after federation.now me trigger time value self.old.state).next }
        ensures room { OnOk result (self.new.state.next ≤ 16385) }
    {
        apply(federation, me, &mut self.state, trigger, time, value, made)
    }

    /// Takes a time for its own, and asks for the next one while that is below the end.
    pub(crate) fn stand_at(&mut self, time: u64, end: u64)
        requires { time ≤ 100000 }
        ensures { self.new ≡ record self.old {
          now = time;
          request = if nat_lt time end
              then Some (request_at self.old.state.wish time end)
              else self.old.request;
        } }
    {
        self.now = time;
        if time < end {
            self.request = Some(self.state.wish().request(time, end));
        }
    }
}
