//! Which numbers of which senders were seen.

ghost use Rattle.std.specs.Prelude.{◌≡◌, ◌<◌, ◌==◌, ◌||◌, ◌^◌, ℕ, false, slice_index};
ghost use Rattle.kit_rules.specs.Delivery.{has_bit};
ghost use Rattle.kit_cut.specs.ValidCuts.{IsNumbered};
ghost use Rattle.kit_restore.specs.Noted.{has_number};

use kit_base::Message;
use kit_rules::is_member;

/// A sender as a mask.
fn sender_bit(sender: u8) -> u16
    requires { sender < 16 }
    ensures { result ≡ 2 ^ sender }
{
    1 << sender
}

/// A mask of senders with one more.
fn with_sender(mask: u16, sender: u8) -> u16
    requires { sender < 16 }
    ensures { (k : ℕ) → has_bit result k ≡ (has_bit mask k || sender == k) }
{
    mask | sender_bit(sender)
}

/// Whether a mask has a sender, which may be any number.
fn has_sender(mask: u16, sender: u64) -> bool
    ensures { result ≡ has_bit mask sender }
{
    sender < 16 && is_member(mask, sender as u8)
}

/// Which numbers of which senders were seen: for each number a mask of the senders.
#[derive(Drop)]
pub(crate) struct SeenNumbers {
    masks: [u16; 16_385],
}

impl SeenNumbers {
    /// Nothing was seen.
    pub(crate) fn new() -> SeenNumbers
        ensures { (sender number : ℕ)
            → has_bit (slice_index result.masks number) sender ≡ false }
    {
        SeenNumbers { masks: [0; 16_385] }
    }

    /// Whether a number of a sender was seen.
    pub(crate) fn holds(&self, sender: u64, number: u64) -> bool
        ensures { result ≡ has_bit (slice_index self.now.masks number) sender }
    {
        match self.masks.get(number as usize) {
            Some(mask) => has_sender(*mask, sender),
            None => false,
        }
    }

    /// Notes that the number of a message was seen.
    pub(crate) fn note(&mut self, message: &Message)
        requires { IsNumbered message.now }
        ensures { (sender number : ℕ) → has_bit (slice_index self.new.masks number) sender
            ≡ (has_bit (slice_index self.old.masks number) sender
            || has_number sender number message.now) }
    {
        let at = message.number as usize;
        self.masks[at] = with_sender(self.masks[at], message.sender);
    }
}
