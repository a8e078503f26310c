//! The Events that are pending for a federate.

ghost use Rattle.std.specs.Prelude.{◌≡◌, ◌<◌, ◌≤◌, ◌^◌, length, slice_index, nat_lt, nat_le, ◌&&◌, List};
ghost use Rattle.std.specs.Prelude.{IfOk, OnOk, IsTrue, All, AllPairs};
ghost use Rattle.std.specs.List.{list_all, list_any};
ghost use Rattle.serde_json.specs.View.{view};
ghost use Rattle.kit_base.specs.Order.{is_before};
ghost use Rattle.kit_base.specs.declared.message.Message.{Message};
ghost use Rattle.kit_walk.specs.Agreement.{Gives};
ghost use Rattle.kit_cut.specs.ValidCuts.{IsNextNumber, IsNumbered};
ghost use Rattle.kit_restore.specs.CutWalk.{message_in, is_same_send, is_regulating, is_receiver};
ghost use Rattle.kit_restore.specs.CutWalk.{message_of, message_step, messages_of};
ghost use Rattle.kit_restore.specs.Noted.{AreNoted};

use crate::rows::{row_here, test_at, test_here};
use crate::seen::SeenNumbers;
use kit_base::{Items, Kind, Message};
use kit_rules::{Federation, is_member, receivers};
use kit_walk::{FaultKind, WalkEnd, list_at};
use serde_json::Value;
use std::alloc::Global;

/// The most messages that are pending for a federate, which is how many numbers all of them have.
const MOST_PENDING: usize = 262_144;

fn comes_before(message: &Message, row: &[u64]) -> bool
    requires { length row.now ≡ 5 }
    ensures { result ≡ is_before message.now (message_in row.now) }
{
    let (time, sender, number) = message.key();
    (time, sender as u64, number as u64) < (row[0], row[1], row[2])
}

/// Whether a row comes after the messages before, which rise.
fn has_risen(done: &[Message], row: &[u64]) -> bool
    requires rise { AllPairs (λ a b. IsTrue (is_before a b)) done.now }
    requires row { length row.now ≡ 5 }
    ensures { result ≡ list_all (λ b. is_before b (message_in row.now)) done.now }
{
    match done.last() {
        Some(last) => comes_before(last, row),
        None => true,
    }
}

/// Whether the number of a row was seen of its sender.
fn is_repeated(seen: &SeenNumbers, row: &[u64]) -> bool
    requires { length row.now ≡ 5 }
    ensures { (done : List Message) → AreNoted seen.now.masks done
        → result ≡ list_any (is_same_send (message_in row.now)) done }
{
    seen.holds(row[1], row[2])
}

/// Whether a row is timed from `from` to the end.
fn is_timely(federation: &Federation, from: u64, row: &[u64]) -> bool
    requires { length row.now ≡ 5 }
    ensures { result ≡ (nat_le from (message_in row.now).time
        && nat_le (message_in row.now).time federation.now.end) }
{
    from <= row[0] && row[0] <= federation.end()
}

/// Whether the value of a row is one there can be.
fn is_value(row: &[u64]) -> bool
    requires { length row.now ≡ 5 }
    ensures { result ≡ nat_lt (message_in row.now).value (2 ^ 32) }
{
    row[4] < 1 << 32
}

/// Whether the sender of a row is a federate, and time-regulating.
fn is_regulating(federation: &Federation, row: &[u64]) -> bool
    requires { length row.now ≡ 5 }
    ensures { result ≡ is_regulating federation.now (message_in row.now).sender }
{
    row[1] < federation.count() as u64 && federation.federate(row[1] as u8).lookahead.is_some()
}

/// Whether the number of a row is below its sender's next.
fn is_below_next(nexts: &[u16], row: &[u64]) -> bool
    requires { length row.now ≡ 5 }
    ensures { result ≡ nat_lt (message_in row.now).number
        (slice_index nexts.now (message_in row.now).sender) }
{
    match nexts.get(row[1] as usize) {
        Some(next) => row[2] < *next as u64,
        None => false,
    }
}

/// Whether federate `i` receives what the sender of a row sends to the group of the row.
fn is_receiver(federation: &Federation, i: u8, row: &[u64]) -> bool
    requires federate { i < length federation.now.federates }
    requires row { length row.now ≡ 5 }
    requires sender { (message_in row.now).sender < length federation.now.federates }
    ensures { result ≡ is_receiver federation.now (message_in row.now).sender
        (message_in row.now).group i }
{
    let _ = federation.count();
    row[3] < federation.groups().len() as u64
        && is_member(receivers(federation, row[1] as u8, row[3] as u8), i)
}

/// The message of a row.
fn message_in(row: &[u64]) -> Message
    requires count { length row.now ≡ 5 }
    requires numbered { IsNumbered (message_in row.now) }
    requires group { (message_in row.now).group < 256 }
    requires value { (message_in row.now).value < 2 ^ 32 }
    ensures { result ≡ message_in row.now }
{
    Message {
        time: row[0],
        sender: row[1] as u8,
        number: row[2] as u16,
        kind: Kind::Event,
        group: row[3] as u8,
        value: row[4] as u32,
    }
}

/// The message that a value is, after those before, which rise and whose numbers were noted.
#[tactic(auto, using(crate::proofs::PendingSteps::regulating_numbered), unfolding(crate::specs::CutWalk::message_of))]
fn message_here(
    alloc: Global,
    federation: &Federation,
    i: u8,
    from: u64,
    nexts: &[u16],
    seen: &SeenNumbers,
    done: &[Message],
    value: &Value,
) -> Result<Message, WalkEnd>
    requires federate { i < length federation.now.federates }
    requires nexts { length nexts.now ≡ length federation.now.federates }
    requires low { All IsNextNumber nexts.now }
    requires rise { AllPairs (λ a b. IsTrue (is_before a b)) done.now }
    requires noted { AreNoted seen.now.masks done.now }
    ensures exact { Gives (λ message. message) result
        (message_of federation.now i from nexts.now done.now (view value.now)) }
    ensures risen { IfOk result (λ message. IsTrue (list_all (λ b. is_before b message) done.now)) }
    ensures numbered { IfOk result IsNumbered }
{
    federation.keeps_its_limits();
    let row = row_here(alloc, value, 5)?;
    let row = row.as_slice();
    test_here(alloc, has_risen(done, row), FaultKind::OutOfRange)?;
    test_here(alloc, !is_repeated(seen, row), FaultKind::Repeated)?;
    test_at(alloc, is_timely(federation, from, row), 0)?;
    test_at(alloc, is_regulating(federation, row), 1)?;
    test_at(alloc, is_below_next(nexts, row), 2)?;
    test_at(alloc, is_receiver(federation, i, row), 3)?;
    test_at(alloc, is_value(row), 4)?;
    Ok(message_in(row))
}

#[tactic(auto, using(kit_walk::proofs::Ends::fails_before, crate::proofs::PendingSteps::one_more_message, crate::proofs::PendingSteps::one_more_noted), unfolding(crate::specs::CutWalk::message_step))]
fn push_message(
    alloc: Global,
    federation: &Federation,
    i: u8,
    from: u64,
    nexts: &[u16],
    j: usize,
    seen: &mut SeenNumbers,
    done: &mut Items<Message>,
    value: &Value,
) -> Result<(), WalkEnd>
    requires federate { i < length federation.now.federates }
    requires nexts { length nexts.now ≡ length federation.now.federates }
    requires low { All IsNextNumber nexts.now }
    requires rise { AllPairs (λ a b. IsTrue (is_before a b)) done.old }
    requires noted { AreNoted seen.old.masks done.old }
    ensures exact { Gives (λ _. done.new) result
        (message_step federation.now i from nexts.now j done.old (view value.now)) }
    ensures rise { OnOk result (AllPairs (λ a b. IsTrue (is_before a b)) done.new) }
    ensures noted { OnOk result (AreNoted seen.new.masks done.new) }
{
    match message_here(
        alloc,
        federation,
        i,
        from,
        nexts,
        seen,
        done.as_slice(),
        value,
    ) {
        Ok(message) => {
            seen.note(&message);
            done.push(message)?;
            Ok(())
        }
        Err(end) => Err(end.under_item(alloc, "pending", j)),
    }
}

/// The list `pending` of federate `i`, of messages timed from `from` on, where `nexts` are the
/// next numbers. It goes once over the list.
#[tactic(auto, unfolding(crate::specs::CutWalk::messages_of))]
pub(crate) fn pending_at(
    alloc: Global,
    federation: &Federation,
    i: u8,
    from: u64,
    nexts: &[u16],
    value: &Value,
) -> Result<Items<Message>, WalkEnd>
    requires federate { i < length federation.now.federates }
    requires nexts { length nexts.now ≡ length federation.now.federates }
    requires low { All IsNextNumber nexts.now }
    ensures exact { Gives (λ pending. pending) result
        (messages_of federation.now i from nexts.now (view value.now)) }
{
    let items = list_at(alloc, value, "pending", 0, MOST_PENDING)?;
    let mut seen = SeenNumbers::new();
    let mut done = Items::new(alloc);
    for (j, item) in items.iter().enumerate() {
        push_message(
            alloc, federation, i, from, nexts, j, &mut seen, &mut done, item,
        )?;
    }
    Ok(done)
}
