ghost use Rattle.std.specs.Prelude.{◌≡◌, ◌≤◌, true};
ghost use Rattle.kit_ground.specs.Layout.{index_of, is_there, mail_words};

/// A register of a federate. There are 13 for each.
///
/// Slot `(round mod 2) * 6 + stage` is for the stage values of a reduction of that round: 0 to 3
/// are the stages of a butterfly, 4 is the federate's own share, and 5 the result for a federate
/// outside the butterfly. Slot 12 is the federate's clock, the time that it was last granted.
#[derive(Clone, Copy, Debug, PartialEq, Eq)]
pub struct Reg {
    pub owner: u8,
    pub slot: u8,
}

/// A word of a floor, by what it is for.
#[derive(Clone, Copy, Debug, PartialEq, Eq)]
pub enum Address {
    /// A word that its owner publishes and everybody may look at.
    Register(Reg),
    /// 1 where the run is to stop, 0 before.
    Stop,
    /// Mail goes by 64 buffers: bit `k` of the word `word` says that the buffer `64 * word + k` of
    /// `from` was posted to `to`, and not collected yet.
    Mail { to: u8, from: u8, word: u8 },
    /// How many federates have not released the buffer.
    Count { owner: u8, buffer: u16 },
    /// A content word of a buffer: its head is part 0, its body part 1.
    Part { owner: u8, buffer: u16, part: u8 },
}

impl Address {
    #[tactic(auto, unfolding(crate::specs::Layout::index_of, crate::specs::Layout::mail_words))]
    /// Where the word stands on a floor of so many federates, each with so many buffers.
    pub fn index(&self, federates: u8, buffers: u16) -> usize
        requires few { federates ≤ 16 }
        requires small { buffers ≤ 1024 }
        requires there { is_there federates buffers self.now ≡ true }
        ensures { result ≡ index_of federates buffers self.now }
    {
        let n = usize::from(federates);
        let b = usize::from(buffers);
        let mail = 13 * n + 1;
        let m = (b + 63) / 64;
        let counts = mail + m * (n * n);
        let parts = counts + b * n;
        match *self {
            Address::Register(reg) => 13 * usize::from(reg.owner) + usize::from(reg.slot),
            Address::Stop => 13 * n,
            Address::Mail { to, from, word } => {
                let pair = usize::from(to) * n + usize::from(from);
                mail + (pair * m + usize::from(word))
            }
            Address::Count { owner, buffer } => {
                counts + (usize::from(owner) * b + usize::from(buffer))
            }
            Address::Part {
                owner,
                buffer,
                part,
            } => {
                let place = usize::from(owner) * b + usize::from(buffer);
                parts + (place * 2 + usize::from(part))
            }
        }
    }
}
