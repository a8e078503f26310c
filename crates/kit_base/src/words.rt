//! A message in two words, as it lies in a buffer that federates share.

ghost use Rattle.std.specs.Prelude.{◌≡◌, ◌^◌, ◌<◌};
ghost use Rattle.kit_base.specs.Words.{kind_bit, head_word, head_of, body_word, body_of};

use crate::{Kind, Message};

/// What the head of a message tells: its colour, and what its body leaves out. The sender is known
/// by whose buffer it is.
#[derive(Clone, Copy, Debug, PartialEq, Eq)]
pub struct Head {
    /// Which of the sender's messages it is, counted from 1.
    pub number: u16,
    /// Whether it brings a value or takes a message back.
    pub kind: Kind,
    /// The group that it was sent to, by its number.
    pub group: u8,
    /// The run of the reduction to which its sender had contributed last when it posted the
    /// message, as in Mattern's colours of messages.
    pub colour: u64,
}

fn kind_to_bit(kind: Kind) -> u64
    ensures { result ≡ kind_bit kind }
{
    match kind {
        Kind::Event => 0,
        Kind::Retraction => 1,
    }
}

/// The first word of a message: from the low bits, 16 for the number, one for the kind (0 for an
/// Event), 7 for the group, and 40 for the colour.
pub fn pack_head(message: &Message, colour: u64) -> u64
    requires group { message.now.group < 128 }
    requires colour { colour < 2 ^ 40 }
    ensures { result ≡ head_word message.now colour }
{
    u64::from(message.number)
        + (kind_to_bit(message.kind) << 16)
        + (u64::from(message.group) << 17)
        + (colour << 24)
}

/// Reads a first word. Every word can be read.
pub fn unpack_head(word: u64) -> Head
    ensures { result ≡ head_of word }
{
    Head {
        number: (word % (1 << 16)) as u16,
        kind: if (word >> 16) % 2 == 0 {
            Kind::Event
        } else {
            Kind::Retraction
        },
        group: ((word >> 17) % (1 << 7)) as u8,
        colour: word >> 24,
    }
}

/// The second word of a message: from the low bits, 32 for the value and 32 for the time.
pub fn pack_body(message: &Message) -> u64
    requires { message.now.time < 2 ^ 32 }
    ensures { result ≡ body_word message.now }
{
    u64::from(message.value) + (message.time << 32)
}

/// Reads the time and the value from a second word. Every word can be read.
pub fn unpack_body(word: u64) -> (u64, u32)
    ensures { result ≡ body_of word }
{
    (word >> 32, (word % (1 << 32)) as u32)
}

#[cfg(test)]
mod tests {
    use super::*;

    #[test]
    fn packs_the_known_words(rt: HostRuntime) {
        let message = Message {
            time: 6,
            sender: 0,
            number: 7,
            kind: Kind::Event,
            group: 3,
            value: 1,
        };
        let retraction = Message {
            kind: Kind::Retraction,
            ..message
        };
        for (message, head) in [(message, 84_279_303), (retraction, 84_344_839)] {
            assert_eq!(rt; pack_head(&message, 5), head);
            assert_eq!(rt; unpack_head(head).kind, message.kind);
            assert_eq!(rt; unpack_head(head).colour, 5);
            assert_eq!(rt; pack_body(&message), 25_769_803_777);
        }
        assert_eq!(rt; unpack_body(25_769_803_777), (6, 1));
    }
}
