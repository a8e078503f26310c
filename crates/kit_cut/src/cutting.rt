//! The cut of the simulation at a time.

ghost use Rattle.std.specs.Prelude.{◌≡◌, ◌<◌, ◌≤◌, Some, None, filter, length};
ghost use Rattle.std.specs.Prelude.{OnOk, IfOk, All};
ghost use Rattle.kit_oracle.specs.declared.desk.Desk.{Desk};
ghost use Rattle.kit_rules.specs.Fits.{LineFits};
ghost use Rattle.kit_rules.specs.Own.{own_events};
ghost use Rattle.kit_rules.specs.Simulation.{lines_of};
ghost use Rattle.kit_oracle.specs.Ends.{IfSpent};
ghost use Rattle.kit_oracle.specs.Pending.{front_until};
ghost use Rattle.kit_cut.specs.Reach.{is_in_reach};
ghost use Rattle.kit_cut.specs.Desks.{standing_of_desk, cut_of_desks};
ghost use Rattle.kit_cut.specs.Cuts.{world_by, simulation_cut, spender_by};
ghost use Rattle.kit_cut.specs.ValidCuts.{IsValidCut};

use crate::upto::run_upto;
use crate::valid::is_in_reach;
use crate::{Cut, Standing};
use kit_base::{Items, Line, Message};
use kit_oracle::{Desk, OracleEnd, PendingMessages, open_all};
use kit_rules::{FedState, Federation, Own};
use std::alloc::{AllocError, Global};

/// Takes the messages out of a queue that are timed `by` or less, in order.
fn taken(alloc: Global, by: u64, queue: &mut PendingMessages) -> Result<Items<Message>, AllocError>
    ensures { IfOk result (λ messages. messages ≡ front_until by queue.old) }
{
    let mut messages = Items::new(alloc);
    while let Some(message) = queue.pop_due(by) {
        messages.push(message)?;
    }
    Ok(messages)
}

/// The own Events that federate `i` may still take back.
fn reachable(
    alloc: Global,
    federation: &Federation,
    i: u8,
    now: u64,
    state: &FedState,
) -> Result<Items<Own>, AllocError>
    requires federate { i < length federation.now.federates }
    requires now { now ≤ federation.now.end }
    ensures { IfOk result (λ own.
        own ≡ filter (is_in_reach federation.now i now) (own_events state.now.sends)) }
{
    let all = state.own(alloc)?;
    let mut own = Items::new(alloc);
    for item in all.as_slice() {
        if is_in_reach(federation, i, now, item) {
            own.push(*item)?;
        }
    }
    Ok(own)
}

/// What a cut keeps of federate `i`.
fn standing(
    alloc: Global,
    federation: &Federation,
    i: u8,
    desk: Desk,
) -> Result<Standing, AllocError>
    requires federate { i < length federation.now.federates }
    requires now { desk.now ≤ federation.now.end }
    ensures { IfOk result (λ kept. kept ≡ standing_of_desk federation.now i desk) }
{
    let end = federation.end();
    let Desk {
        now,
        request,
        state,
        mut queue,
    } = desk;
    let own = reachable(alloc, federation, i, now, &state)?;
    let pending = taken(alloc, end, &mut queue)?;
    Ok(Standing {
        now,
        vars: state.vars(),
        wish: state.wish(),
        request: if now < end { Some(request) } else { None },
        own,
        pending,
    })
}

/// The cut at a time, of these desks.
fn cut_of_desks(
    alloc: Global,
    federation: &Federation,
    time: u64,
    desks: Vec<Desk>,
) -> Result<Cut, AllocError>
    requires each { length desks.items ≡ length federation.now.federates }
    requires now { All (λ (desk : Desk). desk.now ≤ federation.now.end) desks.items }
    ensures { IfOk result (λ cut. cut ≡ cut_of_desks federation.now time desks.items) }
{
    let mut desks = desks;
    let mut next = Items::new(alloc);
    let mut federates = Items::new(alloc);
    for i in 0..federation.count() {
        let desk = desks.remove(0);
        next.push(desk.state.next())?;
        federates.push(standing(alloc, federation, i, desk)?)?;
    }
    Ok(Cut {
        at: time.min(federation.end()),
        next,
        federates,
    })
}

/// The cut of the simulation at a time, and the lines up to it.
///
/// It ends with `SendsSpent` where a federate takes number 16,385 up to that time, and names the
/// first to do so.
// Compiled alone, as `resume_from`.
#[inline(never)]
pub fn cut_at(
    alloc: Global,
    federation: &Federation,
    time: u64,
) -> Result<(Cut, Vec<Line>), OracleEnd>
    ensures cut { IfOk result (λ made. made.0 ≡ simulation_cut federation.now time) }
    ensures lines { IfOk result (λ made.
        made.1.items ≡ lines_of (world_by federation.now time).blocks) }
    ensures valid { IfOk result (λ made. IsValidCut federation.now made.0) }
    ensures none { OnOk result (spender_by federation.now time ≡ None) }
    ensures spent { IfSpent result (λ i. spender_by federation.now time ≡ Some i) }
    ensures within { IfSpent result (λ i. i < length federation.now.federates) }

    // What the text asks of lines.
    ensures fits { IfOk result (λ made. All (LineFits federation.now) made.1.items) }
{
    let mut made = Vec::new(alloc);
    let mut lines = Vec::new(alloc);
    let mut desks = open_all(alloc, federation, &mut made)?;
    run_upto(federation, time, &mut desks, &mut made, &mut lines)?;
    let cut = cut_of_desks(alloc, federation, time, desks)?;
    Ok((cut, lines))
}
