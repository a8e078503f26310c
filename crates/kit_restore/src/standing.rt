//! What a cut keeps of each federate.

ghost use Rattle.std.specs.Prelude.{◌≡◌, ◌≤◌, ◌<◌, ◌+◌, length, IfOk, OnOk, All, Option};
ghost use Rattle.serde_json.specs.View.{view};
ghost use Rattle.kit_rules.specs.Limits.{most_time};
ghost use Rattle.kit_cut.specs.ValidCuts.{IsNextNumber};
ghost use Rattle.kit_walk.specs.Agreement.{Gives};
ghost use Rattle.kit_restore.specs.CutWalk.{earliest_by, standing_of, standing_step, standings_of};

use crate::own_events::owns_at;
use crate::pending_events::pending_at;
use crate::requests::{request_below, wish_at};
use crate::rows::numbers_at;
use crate::variables::with_unused;
use kit_base::Items;
use kit_cut::Standing;
use kit_rules::{Federation, Request};
use kit_walk::{WalkEnd, list_at, number_at, object_here};
use serde_json::Value;
use std::alloc::Global;

/// The earliest time of what is pending, by the request.
fn earliest_by(at: u64, now: u64, request: Option<Request>) -> u64
    requires at { at ≤ most_time }
    requires now { now ≤ at }
    ensures { result ≡ earliest_by at now request }
{
    match request {
        Some(Request::Ner(_)) => at + 1,
        Some(Request::Tar(_)) | None => now + 1,
    }
}

/// What a cut at a time keeps of federate `i`, where these are the next numbers.
#[tactic(auto, unfolding(crate::specs::CutWalk::standing_of))]
fn standing_here(
    alloc: Global,
    federation: &Federation,
    at: u64,
    nexts: &[u16],
    i: u8,
    value: &Value,
) -> Result<Standing, WalkEnd>
    requires at { at ≤ federation.now.end }
    requires federate { i < length federation.now.federates }
    requires nexts { length nexts.now ≡ length federation.now.federates }
    requires low { All IsNextNumber nexts.now }
    ensures exact { Gives (λ standing. standing) result
        (standing_of federation.now at nexts.now i (view value.now)) }
{
    let end = federation.end();
    object_here(alloc, value)?;
    let now = number_at(alloc, value, "now", 0, at)?;
    let count = federation.federate(i).vars.len();
    let vars = numbers_at(alloc, value, "vars", count, 0, u32::MAX as u64)?;
    let wish = wish_at(alloc, value)?;
    let request = request_below(alloc, value, now, at, end)?;
    let own = owns_at(alloc, federation, i, now, nexts[i as usize] as u64, value)?;
    let from = earliest_by(at, now, request);
    let pending = pending_at(alloc, federation, i, from, nexts, value)?;
    Ok(Standing {
        now,
        vars: with_unused(&vars),
        wish,
        request,
        own,
        pending,
    })
}

#[tactic(auto, using(kit_walk::proofs::Ends::fails_before), unfolding(crate::specs::CutWalk::standing_step))]
fn push_standing(
    alloc: Global,
    federation: &Federation,
    at: u64,
    nexts: &[u16],
    i: u8,
    done: &mut Items<Standing>,
    value: &Value,
) -> Result<(), WalkEnd>
    requires at { at ≤ federation.now.end }
    requires federate { i < length federation.now.federates }
    requires nexts { length nexts.now ≡ length federation.now.federates }
    requires low { All IsNextNumber nexts.now }
    ensures exact { Gives (λ _. done.new) result
        (standing_step federation.now at nexts.now i done.old (view value.now)) }
{
    match standing_here(alloc, federation, at, nexts, i, value) {
        Ok(standing) => {
            done.push(standing)?;
            Ok(())
        }
        Err(end) => Err(end.under_item(alloc, "federates", i as usize)),
    }
}

/// The list `federates` of a cut.
#[tactic(auto, unfolding(crate::specs::CutWalk::standings_of))]
pub(crate) fn standings_at(
    alloc: Global,
    federation: &Federation,
    at: u64,
    nexts: &[u16],
    value: &Value,
) -> Result<Items<Standing>, WalkEnd>
    requires at { at ≤ federation.now.end }
    requires nexts { length nexts.now ≡ length federation.now.federates }
    requires low { All IsNextNumber nexts.now }
    ensures exact { Gives (λ standings. standings) result
        (standings_of federation.now at nexts.now (view value.now)) }
{
    let count = federation.count() as usize;
    let items = list_at(alloc, value, "federates", count, count)?;
    let mut done = Items::new(alloc);
    for (i, item) in items.iter().enumerate() {
        push_standing(alloc, federation, at, nexts, i as u8, &mut done, item)?;
    }
    Ok(done)
}
