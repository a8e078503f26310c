/// How the times by which entries are put off are spread, with a mean of about a million.
#[derive(Clone, Copy, Debug, PartialEq, Eq)]
pub enum Increments {
    /// Each below two million alike.
    Uniform,
    /// Steps of equal length, each half as likely as the one before it, and each time within a step
    /// alike: nearly exponential.
    Exponential,
    /// Nine of ten below two hundred thousand, and one of ten nine million more.
    Bimodal,
}

/// Pseudo-random numbers, by G. Marsaglia's xorshift of 64 bits.
#[derive(Debug, Drop)]
pub struct Draws {
    state: u64,
}

impl Draws {
    pub fn new() -> Draws {
        Draws {
            state: 88_172_645_463_325_252,
        }
    }

    pub fn draw(&mut self) -> u64 {
        self.state ^= self.state << 13;
        self.state ^= self.state >> 7;
        self.state ^= self.state << 17;
        self.state
    }
}

/// By how much an entry is put off, by a number that was drawn.
pub fn increment_of(increments: Increments, draw: u64) -> u64 {
    let high = draw >> 32;
    match increments {
        Increments::Uniform => high % 2_000_000,
        Increments::Exponential => u64::from(draw.trailing_zeros()) * 666_667 + high % 666_667,
        Increments::Bimodal => high % 200_000 + if draw % 10 == 0 { 9_000_000 } else { 0 },
    }
}
