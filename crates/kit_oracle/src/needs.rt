//! How many messages the federates have outstanding while a simulation runs.

ghost use Rattle.std.specs.Prelude.{◌≡◌, ℕ, ◌+◌, ◌<◌, ◌≤◌, ◌^◌, [], ◌∷◌, length, IfOk, OnOk};
ghost use Rattle.kit_rules.specs.Simulation.{world_at_start};
ghost use Rattle.kit_oracle.specs.Desks.{desks_of};
ghost use Rattle.kit_oracle.specs.Times.{count_later, count_sent_later};
ghost use Rattle.kit_oracle.specs.Needing.{AreNeeds};

use crate::desk::Desk;
use crate::observer::Observer;
use crate::times::Times;
use kit_base::{Items, Message};
use kit_rules::{Federation, transported};
use std::alloc::{AllocError, Global};

/// For each federate, the times of its transported sends that are later than its own time, and the
/// most that there were of them so far.
#[derive(Drop)]
pub(crate) struct Needs {
    times: Vec<Times>,
    most: Vec<u16>,
}

impl Observer for Needs {
    ghost shows = { λ p n _ s. AreNeeds p n s.times.items s.most.items };

    ghost use Rattle.std.specs.Prelude.{◌≡◌, ℕ, ◌+◌, ◌<◌, ◌≤◌, [], length, slice_index_or, None};
    ghost use Rattle.std.proofs.Common.{sym, subst, ◌∙◌};
    ghost use Rattle.kit_rules.specs.Simulation.{World, world_at_start, after_grants, seat_at};
    ghost use Rattle.kit_laws.proofs.Needs.{after_one, most_still};
    ghost use Rattle.kit_oracle.specs.Times.{count_later, count_sent_later};

    // The world stays as it is, and with it the times; so do the greatest numbers.
    ghost over = { λ p n _ s none h.
        let start = world_at_start p in
        let same : after_grants p n start ≡ after_grants p (n + 1) start =
        sym (after_one p n None none) in
        let Counts : World → Type 0 = λ w. (k t : ℕ) → k < length p.federates →
        (seat_at w k).now ≤ t → count_later t (slice_index_or s.times.items k []) ≡
        count_sent_later p t (seat_at w k).state.sends in
        record {
          each_times = h.each_times;
          each_most = h.each_most;
          counts = subst Counts same h.counts;
          greatest = λ k lt. h.greatest k lt ∙ sym (most_still p k n none);
        } };

    fn deliver(
        &mut self,
        _granted: u64,
        _federate: u8,
        _message: Message,
    ) -> Result<(), AllocError> {
        Ok(())
    }

    fn grant(
        &mut self,
        federation: &Federation,
        pair: (u64, u8),
        made: &[Message],
    ) -> Result<(), AllocError> {
        let (now, federate) = pair;
        let i = federate as usize;
        let count = outstanding(federation, now, made, &mut self.times[i])?;
        self.most[i] = self.most[i].max(count);
        Ok(())
    }
}

impl Needs {
    /// The needs so far of federates whose start's rules have run.
    pub(crate) fn of(
        alloc: Global,
        federation: &Federation,
        desks: &[Desk],
    ) -> Result<Needs, AllocError>
        requires { desks.now ≡ desks_of federation.now (world_at_start federation.now) }
        ensures { IfOk result
            (λ needs. AreNeeds federation.now 0 needs.times.items needs.most.items) }
    {
        let federates = federation.count() as usize;
        let mut needs = Needs {
            times: Vec::with_capacity(alloc, federates)?,
            most: Vec::with_capacity(alloc, federates)?,
        };
        for desk in desks {
            let mut times = Times::new(alloc);
            let count = outstanding(federation, 0, desk.state.sends(), &mut times)?;
            needs.times.push(times)?;
            needs.most.push(count)?;
        }
        Ok(needs)
    }

    /// The most of each federate.
    pub(crate) fn most(self) -> Items<u16>
        ensures { result ≡ self.most.items }
    {
        let Needs { times, most } = self;
        drop(times);
        Items::from_vec(most)
    }
}

/// How many messages a federate has outstanding at a time, where these are new and the others have
/// these times; those that have passed are taken out.
fn outstanding(
    federation: &Federation,
    now: u64,
    made: &[Message],
    times: &mut Times,
) -> Result<u16, AllocError>
    requires { count_later now times.old + count_sent_later federation.now now made.now < 2 ^ 16 }
    ensures kept { OnOk result ((t : ℕ) → now ≤ t → count_later t times.new ≡
        count_later t times.old + count_sent_later federation.now t made.now) }
    ensures count { IfOk result
        (λ n. n ≡ count_later now times.old + count_sent_later federation.now now made.now) }
{
    add_times(federation, made, times)?;
    Ok(times.later_than(now) as u16)
}

/// Adds the time of a message, if it is transported.
fn add_time(federation: &Federation, message: &Message, times: &mut Times) -> Result<(), AllocError>
    ensures { OnOk result ((t : ℕ) → count_later t times.new ≡
        count_later t times.old + count_sent_later federation.now t (message.now ∷ [])) }
{
    if !transported(federation, message) {
        return Ok(());
    }
    times.push(message.time)
}

/// Adds the times of the messages that are transported.
fn add_times(federation: &Federation, made: &[Message], times: &mut Times) -> Result<(), AllocError>
    ensures { OnOk result ((t : ℕ) → count_later t times.new ≡
        count_later t times.old + count_sent_later federation.now t made.now) }
{
    for message in made {
        add_time(federation, message, times)?;
    }
    Ok(())
}
