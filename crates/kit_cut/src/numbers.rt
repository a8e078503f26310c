//! Whether numbers of a sender repeat among messages, in one pass.

ghost use Rattle.std.specs.Prelude.{◌≡◌, ◌↔◌, ◌<◌, ℕ, ◌==◌, ◌^◌, ◌||◌, ◌&&◌, not, IsTrue};
ghost use Rattle.std.specs.Prelude.{slice_index, All, AllPairs};
ghost use Rattle.kit_rules.specs.Delivery.{has_bit};
ghost use Rattle.kit_cut.specs.ValidCuts.{NumbersDiffer, IsNumbered};

use kit_base::Message;
use kit_rules::is_member;

/// A sender as a mask.
fn sender_bit(sender: u8) -> u16
    requires { sender < 16 }
    ensures { result ≡ 2 ^ sender }
{
    1 << sender
}

/// A mask of senders with one more.
fn with_sender(mask: u16, sender: u8) -> u16
    requires { sender < 16 }
    ensures { (k : ℕ) → has_bit result k ≡ (has_bit mask k || k == sender) }
{
    mask | sender_bit(sender)
}

/// Notes that a message was seen, and says whether its sender's number is a new one. For each
/// number there is a mask of the senders of which it was seen.
fn note(seen: &mut [u16; 16_385], message: &Message) -> bool
    requires { IsNumbered message.now }
    ensures new { result ≡ not (has_bit (slice_index seen.old message.now.number)
        message.now.sender) }
    ensures noted { (number sender : ℕ) → has_bit (slice_index seen.new number) sender
        ≡ (has_bit (slice_index seen.old number) sender
        || (number == message.now.number && sender == message.now.sender)) }
{
    let at = message.number as usize;
    let mask = seen[at];
    seen[at] = with_sender(mask, message.sender);
    !is_member(mask, message.sender)
}

/// Whether no two messages have one number of one sender.
pub(crate) fn numbers_differ(messages: &[Message]) -> bool
    requires { All IsNumbered messages.now }
    ensures { IsTrue result ↔ AllPairs NumbersDiffer messages.now }
{
    let mut seen = [0; 16_385];
    for message in messages {
        if !note(&mut seen, message) {
            return false;
        }
    }
    true
}
