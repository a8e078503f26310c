//! Messages that are sent since a cut, on their way to the federates that they reach.

ghost use Rattle.std.specs.Prelude.{◌≡◌, ◌<◌, ◌≤◌, length, slice_index, OnOk, All};
ghost use Rattle.kit_oracle.specs.Desks.{receiver_mask};
ghost use Rattle.kit_base.specs.declared.message.Message.{Message};
ghost use Rattle.kit_cut.specs.SinceCut.{AreBelowNext, is_named, named_time, queue_after_since};
ghost use Rattle.kit_cut.specs.SinceCut.{desks_after_message_since, desks_after_messages_since};
ghost use Rattle.kit_cut.specs.ValidCuts.{standing_at};

use crate::{Cut, Standing};
use kit_base::{Kind, Message};
use kit_oracle::{Desk, Key, PendingMessages};
use kit_rules::{Federation, is_member, receivers};
use std::alloc::AllocError;

/// Whether a Retraction names a message, whatever its time.
fn is_named(retraction: &Message, message: &Message) -> bool
    ensures { result ≡ is_named retraction.now message.now }
{
    message.sender == retraction.sender && message.number as u32 == retraction.value
}

/// The time of the message that a Retraction names among these, or its own: a cut's own Events and
/// what is pending need not agree in their times. What is pending of the sender has numbers below
/// `next`, and where the Retraction names a later one nothing is looked for.
fn named_time(next: u16, pending: &[Message], retraction: &Message) -> u64
    requires { All (λ (m : Message). m.sender ≡ retraction.now.sender → m.number < next) pending.now }
    ensures { result ≡ named_time pending.now retraction.now }
{
    if next as u32 <= retraction.value {
        return retraction.time;
    }
    for message in pending {
        if is_named(retraction, message) {
            return message.time;
        }
    }
    retraction.time
}

/// Posts a message to federate `j`, which stood so at the cut: an Event goes to its place, and a
/// Retraction takes out what it names. Its sender's next number was `next` then.
fn post_at(
    mask: u16,
    j: u8,
    next: u16,
    standing: &Standing,
    message: &Message,
    queue: &mut PendingMessages,
) -> Result<(), AllocError>
    requires federate { j < 16 }
    requires below { All (λ (m : Message). m.sender ≡ message.now.sender → m.number < next)
        standing.now.pending }
    ensures { OnOk result
        (queue.new ≡ queue_after_since mask j standing.entry.now.pending message.now queue.old) }
{
    match message.kind {
        Kind::Event => {
            if is_member(mask, j) {
                queue.insert(*message)?;
            }
        }
        Kind::Retraction => {
            queue.remove(Key {
                time: named_time(next, standing.pending.as_slice(), message),
                sender: message.sender,
                number: message.value,
            });
        }
    }
    Ok(())
}

/// The number that a sender's next message got at the cut.
fn next_at(cut: &Cut, sender: u8) -> u16
    ensures { result ≡ slice_index cut.now.next sender }
{
    match cut.next.as_slice().get(sender as usize) {
        Some(next) => *next,
        None => 0,
    }
}

fn post(mask: u16, cut: &Cut, message: &Message, desks: &mut Vec<Desk>) -> Result<(), AllocError>
    requires few { length desks.old.items ≤ 16 }
    requires each { length cut.now.federates ≡ length desks.old.items }
    requires below { AreBelowNext cut.now }
    ensures { OnOk result
        (desks.new.items ≡ desks_after_message_since cut.now mask message.now 0 desks.old.items) }
{
    let next = next_at(cut, message.sender);
    let standings = cut.federates.as_slice();
    for j in 0..desks.len() {
        post_at(
            mask,
            j as u8,
            next,
            &standings[j],
            message,
            &mut desks[j].queue,
        )?;
    }
    Ok(())
}

/// Those that a message reaches, as a mask.
fn reach(federation: &Federation, message: &Message) -> u16
    ensures { result ≡ receiver_mask federation.now message.now }
{
    if message.time <= federation.end() {
        receivers(federation, message.sender, message.group)
    } else {
        0
    }
}

/// Posts these messages in their order.
pub(crate) fn post_all(
    federation: &Federation,
    cut: &Cut,
    made: &[Message],
    desks: &mut Vec<Desk>,
) -> Result<(), AllocError>
    requires few { length desks.old.items ≤ 16 }
    requires each { length cut.now.federates ≡ length desks.old.items }
    requires below { AreBelowNext cut.now }
    ensures { OnOk result (desks.new.items ≡
        desks_after_messages_since federation.now cut.now made.now desks.old.items) }
{
    for message in made {
        post(reach(federation, message), cut, message, desks)?;
    }
    Ok(())
}
