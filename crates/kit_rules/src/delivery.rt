//! Who receives a message.

ghost use Rattle.std.specs.Prelude.{◌≡◌, ◌<◌};
ghost use Rattle.kit_rules.specs.Delivery.{has_bit, without_bit, receivers_of, is_transported};

use crate::Federation;
use kit_base::Message;

/// Whether a mask of federates has federate `j`, for which bit `j` stands.
pub fn is_member(mask: u16, j: u8) -> bool
    requires { j < 16 }
    ensures { result ≡ has_bit mask j }
{
    (mask >> j) % 2 == 1
}

fn mask_without(mask: u16, j: u8) -> u16
    ensures { result ≡ without_bit mask j }
{
    if j < 16 && is_member(mask, j) {
        mask - (1 << j)
    } else {
        mask
    }
}

/// The members of a group but for the sender, as a mask: a federate never receives its own
/// messages. A group that is not there has no members.
pub fn receivers(federation: &Federation, federate: u8, group: u8) -> u16
    ensures { result ≡ receivers_of federation.now federate group }
{
    match federation.groups().get(group as usize) {
        None => 0,
        Some(found) => mask_without(found.members, federate),
    }
}

/// Whether a message is sent on: it is timed at the end or before, and somebody receives it.
/// A message that is not transported takes its number all the same.
pub fn transported(federation: &Federation, message: &Message) -> bool
    ensures { result ≡ is_transported federation.now message.now }
{
    message.time <= federation.end() && receivers(federation, message.sender, message.group) != 0
}
