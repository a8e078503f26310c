//! What a number picks, and names.
ghost use Rattle.std.specs.Prelude.{◌≡◌, ◌<◌, ◌+◌, ◌∷◌, decimal, IfOk};
ghost use Rattle.kit_gen.specs.Generator.{pick};

use kit_base::push_decimal;
use kit_rules::Name;
use std::alloc::{AllocError, Global};

/// The multiplier of Knuth's multiplicative hash of 32 bits.
const MULTIPLIER: u32 = 2_654_435_761;

/// One of so many numbers from 0 on, for a place.
pub(crate) fn pick(seed: u32, place: u32, count: u32) -> u32
    requires { 0 < count }
    ensures value { result ≡ pick seed place count }
    ensures below { result < count }
{
    (seed.wrapping_add(place).wrapping_mul(MULTIPLIER) >> 16) % count
}

/// A name of a letter and a number.
pub(crate) fn name_of(alloc: Global, letter: u8, number: u8) -> Result<Name, AllocError>
    ensures { IfOk result (λ name. name ≡ letter ∷ decimal number) }
{
    let mut bytes = Vec::new(alloc);
    bytes.push(letter)?;
    push_decimal(&mut bytes, number as u64)?;
    Name::of(alloc, bytes.as_slice())
}
