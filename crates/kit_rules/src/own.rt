//! What the Retractions of a federate may still name.

ghost use Rattle.std.specs.Prelude.{◌≡◌, ◌≤◌, ◌<◌, ◌+◌, ◌-◌, ℕ, length, slice_index_or, map};
ghost use Rattle.std.specs.Prelude.{IfOk, All};
ghost use Rattle.std.specs.List.{range_with_len};
ghost use Rattle.kit_rules.specs.Own.{is_untaken, own_of, own_events, own_message, past_message};
ghost use Rattle.kit_rules.specs.Own.{restored_sends, IsNumberedBelow};
ghost use Rattle.kit_rules.specs.Step.{no_message, AreMarked};

use crate::marks::is_taken_back;
use kit_base::{Items, Kind, Message};
use std::alloc::{AllocError, Global};

/// An Event that a federate sent, as far as a Retraction of it reads it.
#[derive(Clone, Copy, Debug, PartialEq, Eq)]
pub struct Own {
    /// Which of the federate's messages it is.
    pub number: u16,
    /// Its time stamp.
    pub time: u64,
    /// The group that it was sent to, by its number.
    pub group: u8,
}

fn own_of(message: &Message) -> Own
    ensures { result ≡ own_of message.now }
{
    Own {
        number: message.number,
        time: message.time,
        group: message.group,
    }
}

fn own_message(federate: u8, own: &Own) -> Message
    ensures { result ≡ own_message federate own.now }
{
    Message {
        time: own.time,
        sender: federate,
        number: own.number,
        kind: Kind::Event,
        group: own.group,
        value: 0,
    }
}

fn past_message(federate: u8, number: u16) -> Message
    ensures { result ≡ past_message federate number }
{
    Message {
        time: 0,
        sender: federate,
        number,
        kind: Kind::Event,
        group: 0,
        value: 0,
    }
}

/// Whether a send is an Event that no Retraction among the sends names.
fn is_untaken(sends: &[Message], marks: &[u16], message: &Message) -> bool
    requires marked { AreMarked sends.now marks.now }
    requires low { 1 ≤ message.now.number }
    requires high { message.now.number ≤ length sends.now }
    ensures { result ≡ is_untaken sends.now message.now }
{
    matches!(message.kind, Kind::Event) && !is_taken_back(sends, marks, message.number as u32)
}

/// The Events among the sends that no Retraction names, in the order of their numbers.
pub(crate) fn own_events(
    alloc: Global,
    sends: &[Message],
    marks: &[u16],
) -> Result<Items<Own>, AllocError>
    requires numbered { (k : ℕ) → k < length sends.now
        → (slice_index_or sends.now k no_message).number ≡ k + 1 }
    requires marked { AreMarked sends.now marks.now }
    ensures { IfOk result (λ own. own ≡ own_events sends.now) }
{
    let mut own = Items::new(alloc);
    for message in sends {
        if is_untaken(sends, marks, message) {
            own.push(own_of(message))?;
        }
    }
    Ok(own)
}

/// One send for each number below the next, which no Retraction can name.
fn past_sends(alloc: Global, federate: u8, next: u16) -> Result<Vec<Message>, AllocError>
    requires { 1 ≤ next }
    ensures { IfOk result (λ sends. sends.items
        ≡ map (past_message federate) (range_with_len 1 (next - 1))) }
{
    let mut sends = Vec::with_capacity(alloc, next as usize - 1)?;
    for place in 0..next - 1 {
        sends.push(past_message(federate, place + 1))?;
    }
    Ok(sends)
}

/// The sends of a federate below its next number, of which these Events alone can still be named.
pub(crate) fn restored_sends(
    alloc: Global,
    federate: u8,
    next: u16,
    own: &[Own],
) -> Result<Vec<Message>, AllocError>
    requires next { 1 ≤ next }
    requires numbers { All (IsNumberedBelow next) own.now }
    ensures { IfOk result (λ sends. sends.items ≡ restored_sends federate next own.now) }
{
    let mut sends = past_sends(alloc, federate, next)?;
    for item in own {
        sends[item.number as usize - 1] = own_message(federate, item);
    }
    Ok(sends)
}
