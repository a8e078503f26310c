//! Numbers that look like chance, made of a seed.
ghost use Rattle.std.specs.Prelude.{◌<◌};

/// What the state grows by: SplitMix64's odd number near 2^64 by the golden ratio.
const STEP: u64 = 0x9E37_79B9_7F4A_7C15;

/// A generator of pseudo-random numbers: SplitMix64.
#[derive(Clone, Copy, Debug)]
pub struct Chance {
    state: u64,
}

impl Chance {
    pub fn new(seed: u64) -> Chance {
        Chance { state: seed }
    }

    /// One of all numbers.
    pub fn draw(&mut self) -> u64 {
        self.state = self.state.wrapping_add(STEP);
        let word = (self.state ^ (self.state >> 30)).wrapping_mul(0xBF58_476D_1CE4_E5B9);
        let word = (word ^ (word >> 27)).wrapping_mul(0x94D0_49BB_1331_11EB);
        word ^ (word >> 31)
    }

    /// One of so many numbers from 0 on.
    pub fn below(&mut self, count: u64) -> u64
        requires { 0 < count }
        ensures { result < count }
    {
        self.draw() % count
    }
}
