//! Whether a cut is one from which a simulation can be resumed.

ghost use Rattle.std.specs.Prelude.{◌≡◌, ◌↔◌, ℕ, ◌<◌, ◌≤◌, IsTrue, length, slice_index, All};
ghost use Rattle.std.specs.Prelude.{slice_index_or, Some};
ghost use Rattle.kit_rules.specs.Limits.{most_time};
ghost use Rattle.kit_cut.specs.Reach.{is_in_reach};
ghost use Rattle.kit_cut.specs.ValidCuts.{IsAhead, IsAsking, earliest, IsOwn, AreOwn};
ghost use Rattle.kit_cut.specs.ValidCuts.{IsPendingMessage, AreTimely, ArePending, IsNumbered};
ghost use Rattle.kit_cut.specs.ValidCuts.{IsStanding, IsNextNumber, IsValidCut, nobody_stands};

use crate::numbers::numbers_differ;
use crate::order::{keys_rise, numbers_rise};
use crate::{Cut, Standing};
use kit_base::{Kind, Message};
use kit_rules::{Federation, Own, Request, is_member, is_wish, receivers};

/// The most own Events of a federate, which is how many numbers it has.
const MOST_OWN: usize = 16_384;

/// The most messages that are pending for a federate, which is how many numbers all of them have.
const MOST_PENDING: usize = 262_144;

fn is_ahead(at: u64, end: u64, request: Request) -> bool
    ensures { IsTrue result ↔ IsAhead at end request }
{
    match request {
        Request::Tar(time) | Request::Ner(time) => at < time && time <= end,
    }
}

/// The earliest time of what is pending.
fn earliest_of(at: u64, now: u64, request: Request) -> u64
    requires at { at ≤ most_time }
    requires now { now ≤ at }
    ensures { result ≡ earliest at now request }
{
    match request {
        Request::Tar(_) => now + 1,
        Request::Ner(_) => at + 1,
    }
}

/// Whether there is a request exactly below the end, and for a time after the cut.
fn is_asking(at: u64, end: u64, now: u64, request: Option<Request>) -> bool
    ensures { IsTrue result ↔ IsAsking at end now request }
{
    match request {
        None => end <= now,
        Some(request) => now < end && is_ahead(at, end, request),
    }
}

/// Whether the places from `from` on are 0.
fn are_unused(from: usize, vars: &[u32; 8]) -> bool
    ensures { IsTrue result ↔ ((k : ℕ) → from ≤ k → slice_index vars.now k ≡ 0) }
{
    for k in from..8 {
        if vars[k] != 0 {
            return false;
        }
    }
    true
}

/// Whether federate `i` may take it back at a time or later.
pub(crate) fn is_in_reach(federation: &Federation, i: u8, now: u64, own: &Own) -> bool
    requires federate { i < length federation.now.federates }
    requires now { now ≤ federation.now.end }
    ensures { result ≡ is_in_reach federation.now i now own.now }
{
    let end = federation.end();
    now + federation.effective_lookahead(i) as u64 <= own.time && own.time <= end
}

fn is_own(federation: &Federation, i: u8, now: u64, next: u16, own: &Own) -> bool
    requires federate { i < length federation.now.federates }
    requires now { now ≤ federation.now.end }
    ensures { IsTrue result ↔ IsOwn federation.now i now next own.now }
{
    1 <= own.number
        && own.number < next
        && is_in_reach(federation, i, now, own)
        && (own.group as usize) < federation.groups().len()
}

fn are_own(federation: &Federation, i: u8, now: u64, next: u16, own: &[Own]) -> bool
    requires federate { i < length federation.now.federates }
    requires now { now ≤ federation.now.end }
    ensures { IsTrue result ↔ AreOwn federation.now i now next own.now }
{
    own.len() <= MOST_OWN
        && numbers_rise(own)
        && own
            .iter()
            .all(|item| is_own(federation, i, now, next, item))
}

fn is_pending_message(
    federation: &Federation,
    i: u8,
    from: u64,
    nexts: &[u16],
    message: &Message,
) -> bool
    requires federate { i < length federation.now.federates }
    requires nexts { length nexts.now ≡ length federation.now.federates }
    ensures { IsTrue result ↔ IsPendingMessage federation.now i from nexts.now message.now }
{
    matches!(message.kind, Kind::Event)
        && from <= message.time
        && message.time <= federation.end()
        && message.sender < federation.count()
        && federation.federate(message.sender).lookahead.is_some()
        && message.number < nexts[message.sender as usize]
        && (message.group as usize) < federation.groups().len()
        && is_member(receivers(federation, message.sender, message.group), i)
}

fn are_pending_messages(
    federation: &Federation,
    i: u8,
    from: u64,
    nexts: &[u16],
    pending: &[Message],
) -> bool
    requires federate { i < length federation.now.federates }
    requires nexts { length nexts.now ≡ length federation.now.federates }
    ensures { IsTrue result ↔ All (IsPendingMessage federation.now i from nexts.now) pending.now }
{
    pending.iter().all(|message| is_pending_message(federation, i, from, nexts, message))
}

/// Whether what is pending for federate `i` may be so; where it has no request nothing may.
fn are_timely(
    federation: &Federation,
    at: u64,
    nexts: &[u16],
    i: u8,
    time: u64,
    request: Option<Request>,
    pending: &[Message],
) -> bool
    requires at { at ≤ most_time }
    requires time { time ≤ at }
    requires federate { i < length federation.now.federates }
    requires nexts { length nexts.now ≡ length federation.now.federates }
    ensures { IsTrue result ↔ AreTimely federation.now at nexts.now i time request pending.now }
{
    match request {
        None => pending.is_empty(),
        Some(request) => {
            let from = earliest_of(at, time, request);
            are_pending_messages(federation, i, from, nexts, pending)
        }
    }
}

fn are_pending(
    federation: &Federation,
    at: u64,
    nexts: &[u16],
    i: u8,
    time: u64,
    request: Option<Request>,
    pending: &[Message],
) -> bool
    requires at { at ≤ most_time }
    requires time { time ≤ at }
    requires federate { i < length federation.now.federates }
    requires nexts { length nexts.now ≡ length federation.now.federates }
    requires low { All IsNextNumber nexts.now }
    ensures { IsTrue result ↔ ArePending federation.now at nexts.now i time request pending.now }
{
    federation.keeps_its_limits();
    if !are_timely(federation, at, nexts, i, time, request, pending) {
        return false;
    }
    pending.len() <= MOST_PENDING && keys_rise(pending) && numbers_differ(pending)
}

fn is_standing(federation: &Federation, at: u64, nexts: &[u16], i: u8, standing: &Standing) -> bool
    requires at { at ≤ federation.now.end }
    requires federate { i < length federation.now.federates }
    requires nexts { length nexts.now ≡ length federation.now.federates }
    requires low { All IsNextNumber nexts.now }
    ensures { IsTrue result ↔ IsStanding federation.now at nexts.now i standing.entry.now }
{
    let end = federation.end();
    let next = nexts[i as usize];
    let time = standing.now;
    let request = standing.request;
    let pending = standing.pending.as_slice();
    time <= at
        && are_unused(federation.federate(i).vars.len(), &standing.vars)
        && is_wish(standing.wish)
        && is_asking(at, end, time, request)
        && are_own(federation, i, time, next, standing.own.as_slice())
        && are_pending(federation, at, nexts, i, time, request, pending)
}

fn are_standing(federation: &Federation, at: u64, nexts: &[u16], standings: &[Standing]) -> bool
    requires at { at ≤ federation.now.end }
    requires nexts { length nexts.now ≡ length federation.now.federates }
    requires low { All IsNextNumber nexts.now }
    requires each { length standings.now ≡ length federation.now.federates }
    ensures { IsTrue result ↔ ((i : ℕ) → i < length federation.now.federates
        → IsStanding federation.now at nexts.now i (slice_index_or standings.now i nobody_stands)) }
{
    let _ = federation.count();
    for i in 0..standings.len() {
        if !is_standing(federation, at, nexts, i as u8, &standings[i]) {
            return false;
        }
    }
    true
}

fn is_next_number(next: u16) -> bool
    ensures { IsTrue result ↔ IsNextNumber next }
{
    1 <= next && next <= 16_385
}

fn are_next_numbers(nexts: &[u16]) -> bool
    ensures { IsTrue result ↔ All IsNextNumber nexts.now }
{
    nexts.iter().all(|next| is_next_number(*next))
}

/// Whether a simulation can be resumed from a cut. It takes no memory, and goes once over what the
/// cut holds.
///
/// - The time is the end time at most. Each next number is from 1 to 16,385.
/// - A federate's last grant is at that time at most. It has a request exactly where that is below
///   the end, for a time after the cut, and the end time at most.
/// - Its own Events have rising numbers below its next, and it may still take them back.
/// - What is pending rises by time, sender and number, no number of a sender twice, and is timed
///   after the last grant, or after the cut where the request is for the next event. It is an Event
///   that the federate receives from one that is time-regulating, with a number below the sender's
///   next.
/// - Variables past the federate's own are 0.
pub fn valid_cut(federation: &Federation, cut: &Cut) -> bool
    ensures { IsTrue result ↔ IsValidCut federation.now cut.now }
{
    let nexts = cut.next.as_slice();
    let standings = cut.federates.as_slice();
    let count = federation.count() as usize;
    cut.at <= federation.end()
        && nexts.len() == count
        && are_next_numbers(nexts)
        && standings.len() == count
        && are_standing(federation, cut.at, nexts, standings)
}
