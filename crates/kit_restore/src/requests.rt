//! The wish and the request that a cut keeps of a federate.

ghost use Rattle.std.specs.Prelude.{◌+◌, ◌<◌, ◌^◌, IfOk, nat_lt};
ghost use Rattle.serde_json.specs.View.{view};
ghost use Rattle.kit_walk.specs.Agreement.{Gives};
ghost use Rattle.kit_restore.specs.CutWalk.{request_in, request_of, request_if};
ghost use Rattle.kit_restore.specs.CutWalk.{standing_wish_of};

use kit_file::wish_in;
use kit_rules::{Request, Wish};
use kit_walk::{Fault, FaultKind, WalkEnd, member_at, number_at, object_here};
use serde_json::Value;
use std::alloc::Global;

/// The request that an object says, for a time after `at`.
#[tactic(auto, unfolding(crate::specs::CutWalk::request_in))]
fn request_here(alloc: Global, value: &Value, at: u64, end: u64) -> Result<Request, WalkEnd>
    requires { at + 1 < 2 ^ 64 }
    ensures { Gives (λ request. request) result (request_in at end (view value.now)) }
{
    object_here(alloc, value)?;
    if value.get("tar").is_some() {
        let time = number_at(alloc, value, "tar", at + 1, end)?;
        return Ok(Request::Tar(time));
    }
    if value.get("ner").is_some() {
        let time = number_at(alloc, value, "ner", at + 1, end)?;
        return Ok(Request::Ner(time));
    }
    Err(WalkEnd::Fault(Fault::at_key(alloc, FaultKind::Missing, "tar")?))
}

#[tactic(auto, using(kit_walk::proofs::Ends::fails_within), unfolding(crate::specs::CutWalk::request_of))]
fn request_at(alloc: Global, value: &Value, at: u64, end: u64) -> Result<Request, WalkEnd>
    requires { at + 1 < 2 ^ 64 }
    ensures { Gives (λ request. request) result (request_of at end (view value.now)) }
{
    let found = member_at(alloc, value, "request")?;
    match request_here(alloc, found, at, end) {
        Ok(request) => Ok(request),
        Err(fault) => Err(fault.under_key(alloc, "request")),
    }
}

/// The request of a federate that stands at `now`: none where that is the end.
pub(crate) fn request_below(
    alloc: Global,
    value: &Value,
    now: u64,
    at: u64,
    end: u64,
) -> Result<Option<Request>, WalkEnd>
    requires { at + 1 < 2 ^ 64 }
    ensures { Gives (λ request. request) result
        (request_if (nat_lt now end) at end (view value.now)) }
{
    if now < end {
        let request = request_at(alloc, value, at, end)?;
        Ok(Some(request))
    } else {
        Ok(None)
    }
}

#[tactic(auto, using(kit_walk::proofs::Ends::fails_within), unfolding(crate::specs::CutWalk::standing_wish_of))]
pub(crate) fn wish_at(alloc: Global, value: &Value) -> Result<Wish, WalkEnd>
    ensures { Gives (λ wish. wish) result (standing_wish_of (view value.now)) }
{
    let found = member_at(alloc, value, "wish")?;
    match wish_in(alloc, found) {
        Ok(wish) => Ok(wish),
        Err(fault) => Err(fault.under_key(alloc, "wish")),
    }
}
