//! The start of the simulation.

ghost use Rattle.std.specs.Prelude.{◌≡◌, ◌<◌, ◌≤◌, [], ◌++◌, length};
ghost use Rattle.std.specs.Prelude.{find, Some, None, Err, OnOk, IfOk};
ghost use Rattle.kit_rules.specs.Federation.{IsFederation};
ghost use Rattle.kit_rules.specs.Simulation.{world_at_start, seat_at_start};
ghost use Rattle.kit_rules.specs.Simulation.{spender, start_spender, is_spent};
ghost use Rattle.kit_oracle.specs.Desks.{desk_of_seat, desks_of_seats_from, desks_of};
ghost use Rattle.kit_oracle.specs.Ends.{IfSpent};

use crate::OracleEnd;
use crate::desk::Desk;
use crate::end::end_of;
use crate::pending::PendingMessages;
use crate::posting::post_all;
use kit_base::Message;
use kit_rules::{ApplyEnd, FedState, Federation, Trigger, apply};
use std::alloc::Global;

/// A federate whose start's rules have run; what they send is added to `made`.
fn open(
    alloc: Global,
    federation: &Federation,
    i: u8,
    made: &mut Vec<Message>,
) -> Result<Desk, ApplyEnd>
    requires { i < length federation.now.federates }
    ensures desk { IfOk result (λ desk.
        desk ≡ desk_of_seat federation.now [] i (seat_at_start federation.now i)) }
    ensures made { OnOk result (made.new.items ≡
        made.old.items ++ (seat_at_start federation.now i).state.sends) }
    ensures spent { result ≡ Err ApplyEnd.SendsSpent →
        16385 < (seat_at_start federation.now i).state.next }
    ensures room { OnOk result ((seat_at_start federation.now i).state.next ≤ 16385) }
{
    let end = federation.end();
    let mut state = FedState::new(alloc, federation, i);
    apply(federation, i, &mut state, Trigger::Start, 0, 0, made)?;
    let request = state.wish().request(0, end);
    Ok(Desk {
        now: 0,
        request,
        state,
        queue: PendingMessages::new(alloc),
    })
}

fn open_each(
    alloc: Global,
    federation: &Federation,
    made: &mut Vec<Message>,
) -> Result<Vec<Desk>, OracleEnd>
    requires { made.old.items ≡ [] }
    ensures desks { IfOk result (λ desks. desks.items ≡
        desks_of_seats_from federation.now [] 0 (world_at_start federation.now).seats) }
    ensures made { OnOk result (made.new.items ≡ (world_at_start federation.now).messages) }
    ensures none { OnOk result (find is_spent (world_at_start federation.now).messages ≡ None) }
    ensures spent { IfSpent result (λ i. spender federation.now ≡ Some i) }
    ensures at_start { IfSpent result (λ i. start_spender federation.now ≡ Some i) }
    ensures within { IfSpent result (λ i. i < length federation.now.federates) }
    ensures sound { IsFederation federation.now }
{
    let mut desks = Vec::new(alloc);
    for i in 0..federation.count() {
        match open(alloc, federation, i, made) {
            Ok(desk) => desks.push(desk)?,
            Err(end) => return Err(end_of(end, i)),
        }
    }
    Ok(desks)
}

/// The desks after the start's rules of all federates; `made` is empty before and after.
pub fn open_all(
    alloc: Global,
    federation: &Federation,
    made: &mut Vec<Message>,
) -> Result<Vec<Desk>, OracleEnd>
    requires { made.old.items ≡ [] }
    ensures desks { IfOk result (λ desks.
        desks.items ≡ desks_of federation.now (world_at_start federation.now)) }
    ensures made { OnOk result (made.new.items ≡ []) }
    ensures none { OnOk result (find is_spent (world_at_start federation.now).messages ≡ None) }
    ensures spent { IfSpent result (λ i. spender federation.now ≡ Some i) }
    ensures at_start { IfSpent result (λ i. start_spender federation.now ≡ Some i) }
    ensures within { IfSpent result (λ i. i < length federation.now.federates) }
    ensures sound { IsFederation federation.now }
{
    let mut desks = open_each(alloc, federation, made)?;
    post_all(federation, made, &mut desks)?;
    made.clear();
    Ok(desks)
}
