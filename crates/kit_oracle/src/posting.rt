//! Messages on their way to the federates that they reach.

ghost use Rattle.std.specs.Prelude.{◌≡◌, ◌<◌, ◌≤◌, [], length, OnOk};
ghost use Rattle.kit_oracle.specs.Pending.{queue_after_message};
ghost use Rattle.kit_oracle.specs.Desks.{receiver_mask, desks_after_message_from};
ghost use Rattle.kit_oracle.specs.Desks.{desks_after_messages};

use crate::desk::Desk;
use crate::pending::{Key, PendingMessages};
use kit_base::{Kind, Message};
use kit_rules::{Federation, is_member, receivers};
use std::alloc::AllocError;

/// Those that a message reaches, as a mask.
fn reach(federation: &Federation, message: &Message) -> u16
    ensures { result ≡ receiver_mask federation.now message.now }
{
    if message.time <= federation.end() {
        receivers(federation, message.sender, message.group)
    } else {
        0
    }
}

/// Posts a message to federate `j`: an Event goes to its place, and a Retraction takes out the
/// Event that it names, which has its time.
fn post_at(
    mask: u16,
    j: u8,
    message: &Message,
    queue: &mut PendingMessages,
) -> Result<(), AllocError>
    requires { j < 16 }
    ensures { OnOk result (queue.new ≡ queue_after_message mask j message.now queue.old) }
{
    match message.kind {
        Kind::Event => {
            if is_member(mask, j) {
                queue.insert(*message)?;
            }
        }
        Kind::Retraction => {
            queue.remove(Key {
                time: message.time,
                sender: message.sender,
                number: message.value,
            });
        }
    }
    Ok(())
}

fn post(mask: u16, message: &Message, desks: &mut Vec<Desk>) -> Result<(), AllocError>
    requires { length desks.old.items ≤ 16 }
    ensures { OnOk result
        (desks.new.items ≡ desks_after_message_from mask message.now 0 desks.old.items) }
{
    for j in 0..desks.len() {
        post_at(mask, j as u8, message, &mut desks[j].queue)?;
    }
    Ok(())
}

/// Posts these messages in their order.
pub(crate) fn post_all(
    federation: &Federation,
    made: &[Message],
    desks: &mut Vec<Desk>,
) -> Result<(), AllocError>
    requires { length desks.old.items ≤ 16 }
    ensures { OnOk result
        (desks.new.items ≡ desks_after_messages federation.now made.now desks.old.items) }
{
    for message in made {
        post(reach(federation, message), message, desks)?;
    }
    Ok(())
}
