ghost use Rattle.std.specs.Prelude.{◌≡◌, ◌+◌, ◌^◌, ◌<◌};
ghost use Rattle.kit_model.specs.Shares.{share_sum, FitsWord, share_word, share_of};

/// What a federate contributes to a round of the reduction, or what some federates contribute
/// together.
#[derive(Clone, Copy, Debug, PartialEq, Eq)]
pub struct Share {
    /// How many old copies were posted, from the start on.
    pub out: u32,
    /// How many old copies were received, from the start on.
    pub inn: u32,
    /// The least time, in logical time, that is still promised or was posted with the run's colour.
    pub low: u32,
}

/// What two shares are together: the sums of the counts, and the lesser low.
pub fn join_shares(a: Share, b: Share) -> Share
    requires out { a.out + b.out < 2 ^ 22 }
    requires inn { a.inn + b.inn < 2 ^ 22 }
    ensures { result ≡ share_sum a b }
{
    Share {
        out: a.out + b.out,
        inn: a.inn + b.inn,
        low: a.low.min(b.low),
    }
}

/// A share in one word, with its round: from the low bits, 22 each for the counts, 17 for the low,
/// and 3 for the round modulo 8.
pub fn pack_share(share: Share, round: u64) -> u64
    requires { FitsWord share }
    ensures { result ≡ share_word share round }
{
    u64::from(share.out)
        + (u64::from(share.inn) << 22)
        + (u64::from(share.low) << 44)
        + ((round % 8) << 61)
}

/// Reads a share, and its round modulo 8. Every word can be read.
pub fn unpack_share(word: u64) -> (Share, u8)
    ensures { result ≡ share_of word }
{
    let share = Share {
        out: (word % (1 << 22)) as u32,
        inn: ((word >> 22) % (1 << 22)) as u32,
        low: ((word >> 44) % (1 << 17)) as u32,
    };
    (share, (word >> 61) as u8)
}

#[cfg(test)]
mod tests {
    use super::*;

    #[test]
    fn packs_the_known_word(rt: HostRuntime) {
        let share = Share {
            out: 1,
            inn: 0,
            low: 2,
        };
        let word = 2_305_878_193_585_782_785;
        assert_eq!(rt; pack_share(share, 1), word);
        assert_eq!(rt; pack_share(share, 9), word);
        assert_eq!(rt; unpack_share(word), (share, 1));
    }

    #[test]
    fn joins_the_counts_and_takes_the_lesser_low(rt: HostRuntime) {
        let share = |out, inn, low| Share { out, inn, low };
        assert_eq!(rt; join_shares(share(2, 1, 9), share(3, 0, 7)), share(5, 1, 7));
    }
}
