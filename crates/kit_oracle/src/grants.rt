//! The grant of a time to a federate.

ghost use Rattle.std.specs.Prelude.{◌≡◌, ◌<◌, ◌≤◌, ◌+◌, [], ◌∷◌, ◌++◌};
ghost use Rattle.std.specs.Prelude.{length, map, take, drop, OnOk, Err};
ghost use Rattle.kit_base.specs.declared.history.Line.TheVariants as line;
ghost use Rattle.kit_rules.specs.Simulation.{after_deliveries, after_block};
ghost use Rattle.kit_oracle.specs.Pending.{front_until, rest_after};
ghost use Rattle.kit_oracle.specs.Desks.{desk_after_turn, desk_after_turn_at};
ghost use Rattle.kit_oracle.specs.Desks.{desk_at, desks_after_grant};
ghost use Rattle.kit_oracle.specs.Ends.{IfSpent};
ghost use Rattle.kit_oracle.specs.Observing.{Adds};
ghost use Rattle.kit_oracle.specs.Running.{RunsTo};

use crate::OracleEnd;
use crate::desk::Desk;
use crate::end::end_of;
use crate::observer::Observer;
use crate::pending::PendingMessages;
use crate::posting::post_all;
use kit_base::Message;
use kit_rules::{ApplyEnd, FedState, Federation, Trigger, apply};

fn deliver<O: Observer>(
    federation: &Federation,
    i: u8,
    d: u64,
    message: Message,
    state: &mut FedState,
    made: &mut Vec<Message>,
    observer: &mut O,
) -> Result<(), ApplyEnd>
    requires federate { i < length federation.now.federates }
    requires time { d ≤ federation.now.end }
    ensures runs { RunsTo (after_deliveries federation.now i d state.old (message ∷ []))
        state.old state.new result made.old.items made.new.items }
    ensures lines { OnOk result (Adds O.shows observer.old observer.new
        (line.Deliver d i message ∷ [])) }
    ensures kept { take (length state.old.sends) state.new.sends ≡ state.old.sends }
{
    observer.deliver(d, i, message)?;
    let group = message.group;
    apply(
        federation,
        i,
        state,
        Trigger::Got { group },
        d,
        message.value,
        made,
    )
}

/// Delivers what is due, in order.
fn deliver_all<O: Observer>(
    federation: &Federation,
    i: u8,
    d: u64,
    state: &mut FedState,
    queue: &mut PendingMessages,
    made: &mut Vec<Message>,
    observer: &mut O,
) -> Result<(), ApplyEnd>
    requires federate { i < length federation.now.federates }
    requires time { d ≤ federation.now.end }
    ensures runs { RunsTo (after_deliveries federation.now i d state.old (front_until d queue.old))
        state.old state.new result made.old.items made.new.items }
    ensures queue { OnOk result (queue.new ≡ rest_after d queue.old) }
    ensures lines { OnOk result (Adds O.shows observer.old observer.new
        (map (line.Deliver d i) (front_until d queue.old))) }
{
    while let Some(message) = queue.pop_due(d) {
        deliver(federation, i, d, message, state, made, observer)?;
    }
    Ok(())
}

/// The rules of the deliveries, and then those of the grant.
fn run_block<O: Observer>(
    federation: &Federation,
    i: u8,
    d: u64,
    state: &mut FedState,
    queue: &mut PendingMessages,
    made: &mut Vec<Message>,
    observer: &mut O,
) -> Result<(), ApplyEnd>
    requires federate { i < length federation.now.federates }
    requires time { d ≤ federation.now.end }
    ensures runs { RunsTo (after_block federation.now i d state.old (front_until d queue.old))
        state.old state.new result made.old.items made.new.items }
    ensures queue { OnOk result (queue.new ≡ rest_after d queue.old) }
    ensures lines { OnOk result (Adds O.shows observer.old observer.new
        (map (line.Deliver d i) (front_until d queue.old))) }
    ensures room { OnOk result (state.new.next ≤ 16385) }
{
    deliver_all(federation, i, d, state, queue, made, observer)?;
    apply(federation, i, state, Trigger::Grant, d, 0, made)
}

/// A grant on the federate's own desk; what it sends is added to `made`.
pub fn turn<O: Observer>(
    federation: &Federation,
    i: u8,
    d: u64,
    desk: &mut Desk,
    made: &mut Vec<Message>,
    observer: &mut O,
) -> Result<(), ApplyEnd>
    requires federate { i < length federation.now.federates }
    requires time { d ≤ federation.now.end }
    ensures desk { OnOk result (desk.new ≡ desk_after_turn federation.now i d desk.old) }
    ensures runs { RunsTo (desk_after_turn federation.now i d desk.old).state
        desk.old.state desk.new.state result made.old.items made.new.items }
    ensures lines { OnOk result (Adds O.shows observer.old observer.new
        (map (line.Deliver d i) (front_until d desk.old.queue))) }
    ensures room { OnOk result ((desk_after_turn federation.now i d desk.old).state.next ≤ 16385) }
{
    let end = federation.end();
    run_block(
        federation,
        i,
        d,
        &mut desk.state,
        &mut desk.queue,
        made,
        observer,
    )?;
    desk.now = d;
    if d < end {
        desk.request = desk.state.wish().request(d, end);
    }
    Ok(())
}

/// A grant with its messages posted, which are added to `made`.
pub fn grant<O: Observer>(
    federation: &Federation,
    pair: (u64, u8),
    desks: &mut Vec<Desk>,
    made: &mut Vec<Message>,
    observer: &mut O,
) -> Result<(), OracleEnd>
    requires federate { pair.1 < length federation.now.federates }
    requires desk { pair.1 < length desks.old.items }
    requires few { length desks.old.items ≤ 16 }
    requires time { pair.0 ≤ federation.now.end }
    requires made { made.old.items ≡ [] }
    ensures desks { OnOk result
        (desks.new.items ≡ desks_after_grant federation.now pair desks.old.items) }
    ensures made { OnOk result (made.new.items ≡
        drop (length (desk_at desks.old.items pair.1).state.sends)
        (desk_after_turn_at federation.now pair desks.old.items).state.sends) }
    ensures lines { OnOk result (Adds O.shows observer.old observer.new
        (map (line.Deliver pair.0 pair.1)
        (front_until pair.0 (desk_at desks.old.items pair.1).queue))) }
    ensures spent { IfSpent result (λ i. i ≡ pair.1) }
    ensures past { IfSpent result (λ _. 16385 <
        (desk_after_turn_at federation.now pair desks.old.items).state.next) }
    ensures room { OnOk result
        ((desk_after_turn_at federation.now pair desks.old.items).state.next ≤ 16385) }
{
    let (d, i) = pair;
    let desk = &mut desks[i as usize];
    match turn(federation, i, d, desk, made, observer) {
        Ok(()) => {}
        Err(end) => return Err(end_of(end, i)),
    }
    post_all(federation, made, desks)?;
    Ok(())
}
