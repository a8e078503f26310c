//! Which word a step is on, and what it makes of it.
ghost use Rattle.std.specs.Prelude.{◌≡◌, ◌<◌, ◌/◌, ◌%◌, ◌^◌};
ghost use Rattle.kit_ground.specs.declared.place.SeatState.{SeatState};
ghost use Rattle.kit_ground.specs.Steps.{HasMailWord, address_of, becomes, with_found};

use crate::{Address, Deed};

/// The bit of a buffer in its mail word.
#[inline(always)]
pub fn mail_bit(buffer: u16) -> u64
    ensures { result ≡ 2 ^ (buffer % 64) }
{
    1 << (buffer % 64)
}

/// The number of the mail word that has the bit of this buffer.
#[inline(always)]
pub fn mail_word(buffer: u16) -> u8
    requires { buffer < 1024 }
    ensures { result ≡ buffer / 64 }
{
    (buffer / 64) as u8
}

impl Deed {
    /// The word that a step of this seat is on.
    #[inline(always)]
    pub fn address(self, me: u8) -> Address
        requires { HasMailWord self }
        ensures { (o : SeatState) → o.number ≡ me → result ≡ address_of o self }
    {
        match self {
            Deed::Looked { reg, word: _ } | Deed::Published { reg, word: _ } => {
                Address::Register(reg)
            }
            Deed::Stopped | Deed::SawStop { set: _ } => Address::Stop,
            Deed::SawFree { buffer, free: _ } | Deed::Charged { buffer, mask: _ } => {
                Address::Count { owner: me, buffer }
            }
            Deed::Wrote {
                buffer,
                part,
                word: _,
            } => Address::Part {
                owner: me,
                buffer,
                part,
            },
            Deed::PostedTo { buffer, to } => Address::Mail {
                to,
                from: me,
                word: mail_word(buffer),
            },
            Deed::Collected {
                from,
                word,
                mail: _,
            } => Address::Mail { to: me, from, word },
            Deed::ReadPart {
                from,
                buffer,
                part,
                word: _,
            } => Address::Part {
                owner: from,
                buffer,
                part,
            },
            Deed::Released { from, buffer } => Address::Count {
                owner: from,
                buffer,
            },
        }
    }

    /// What a step did, with the word that it found.
    #[inline(always)]
    pub fn finding(self, found: u64) -> Deed
        ensures { result ≡ with_found self found }
    {
        match self {
            Deed::Looked { reg, word: _ } => Deed::Looked { reg, word: found },
            Deed::SawStop { set: _ } => Deed::SawStop { set: found == 1 },
            Deed::SawFree { buffer, free: _ } => Deed::SawFree {
                buffer,
                free: found == 0,
            },
            Deed::Collected {
                from,
                word,
                mail: _,
            } => Deed::Collected {
                from,
                word,
                mail: found,
            },
            Deed::ReadPart {
                from,
                buffer,
                part,
                word: _,
            } => Deed::ReadPart {
                from,
                buffer,
                part,
                word: found,
            },
            deed => deed,
        }
    }

    /// What a step makes of the word that it found.
    #[inline(always)]
    pub fn stored(self, found: u64) -> u64
        ensures { result ≡ becomes self found }
    {
        match self {
            Deed::Published { reg: _, word } => word,
            Deed::Stopped => 1,
            Deed::Wrote {
                buffer: _,
                part: _,
                word,
            } => word,
            Deed::Charged { buffer: _, mask } => found.wrapping_add(u64::from(mask.count_ones())),
            Deed::PostedTo { buffer, to: _ } => found | mail_bit(buffer),
            Deed::Collected {
                from: _,
                word: _,
                mail: _,
            } => 0,
            Deed::Released { from: _, buffer: _ } => found.wrapping_sub(1),
            _ => found,
        }
    }
}
