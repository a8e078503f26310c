//! The desks as a cut has them.

ghost use Rattle.std.specs.Prelude.{◌≡◌, ◌≤◌, IsTrue, IfOk, All, AllPairs};
ghost use Rattle.kit_base.specs.Order.{is_before};
ghost use Rattle.kit_rules.specs.Own.{IsNumberedBelow};
ghost use Rattle.kit_cut.specs.ValidCuts.{IsValidCut};
ghost use Rattle.kit_cut.specs.Resuming.{world_restored};
ghost use Rattle.kit_cut.specs.SinceCut.{desk_restored, desks_of_world_since};

use crate::{Cut, Standing};
use kit_base::Message;
use kit_oracle::{Desk, PendingMessages};
use kit_rules::{FedState, Federation, Request};
use std::alloc::{AllocError, Global};

/// Rising messages as a queue.
fn restored_queue(alloc: Global, pending: &[Message]) -> Result<PendingMessages, AllocError>
    requires { AllPairs (λ a b. IsTrue (is_before a b)) pending.now }
    ensures { IfOk result (λ queue. queue ≡ pending.now) }
{
    let mut queue = PendingMessages::new(alloc);
    for message in pending {
        queue.insert(*message)?;
    }
    Ok(queue)
}

/// The desk of federate `i` as a cut has it.
fn restored_desk(alloc: Global, i: u8, next: u16, standing: &Standing) -> Result<Desk, AllocError>
    requires low { 1 ≤ next }
    requires high { next ≤ 16385 }
    requires own { All (IsNumberedBelow next) standing.now.own }
    requires rise { AllPairs (λ a b. IsTrue (is_before a b)) standing.now.pending }
    ensures { IfOk result (λ desk. desk ≡ desk_restored i next standing.entry.now) }
{
    let own = standing.own.as_slice();
    let state = FedState::restored(alloc, i, standing.vars, standing.wish, next, own)?;
    let queue = restored_queue(alloc, standing.pending.as_slice())?;
    Ok(Desk {
        now: standing.now,
        request: standing.request.unwrap_or(Request::Tar(0)),
        state,
        queue,
    })
}

/// The desks as a valid cut has them.
pub(crate) fn restored_desks(
    alloc: Global,
    federation: &Federation,
    cut: &Cut,
) -> Result<Vec<Desk>, AllocError>
    requires { IsValidCut federation.now cut.now }
    ensures { IfOk result (λ desks. desks.items ≡
        desks_of_world_since federation.now cut.now (world_restored cut.now)) }
{
    let nexts = cut.next.as_slice();
    let standings = cut.federates.as_slice();
    let mut desks = Vec::new(alloc);
    for i in 0..federation.count() {
        let k = i as usize;
        desks.push(restored_desk(alloc, i, nexts[k], &standings[k])?)?;
    }
    Ok(desks)
}
