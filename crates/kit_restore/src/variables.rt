//! The values of a federate's variables, and the next numbers of federates.

ghost use Rattle.std.specs.Prelude.{◌≡◌, ◌≤◌, ◌-◌, ◌^◌, length, codes, IfOk, All};
ghost use Rattle.serde_json.specs.View.{view};
ghost use Rattle.kit_cut.specs.ValidCuts.{IsNextNumber};
ghost use Rattle.kit_walk.specs.Agreement.{Gives};
ghost use Rattle.kit_restore.specs.CutWalk.{numbers_of, with_unused};

use crate::rows::numbers_at;
use kit_base::Items;
use kit_walk::WalkEnd;
use serde_json::Value;
use std::alloc::{AllocError, Global};

/// The values of so many variables, and 0 in the places that are left.
pub(crate) fn with_unused(numbers: &[u64]) -> [u32; 8]
    requires few { length numbers.now ≤ 8 }
    requires range { All (λ n. n ≤ 2 ^ 32 - 1) numbers.now }
    ensures { result ≡ with_unused numbers.now }
{
    let mut vars = [0; 8];
    for (k, number) in numbers.iter().enumerate() {
        vars[k] = *number as u32;
    }
    vars
}

/// The numbers, each in 16 bits.
fn narrowed(alloc: Global, numbers: &[u64]) -> Result<Items<u16>, AllocError>
    requires { All (λ n. n ≤ 16385) numbers.now }
    ensures { IfOk result (λ nexts. nexts ≡ numbers.now) }
{
    let mut nexts = Items::new(alloc);
    for number in numbers {
        nexts.push(*number as u16)?;
    }
    Ok(nexts)
}

/// The list `next` of so many federates.
pub(crate) fn nexts_at(alloc: Global, count: usize, value: &Value) -> Result<Items<u16>, WalkEnd>
    ensures exact { Gives (λ nexts. nexts) result
        (numbers_of (codes "next") count 1 16385 (view value.now)) }
    ensures low { IfOk result (λ nexts. All IsNextNumber nexts) }
    ensures count { IfOk result (λ nexts. length nexts ≡ count) }
{
    let numbers = numbers_at(alloc, value, "next", count, 1, 16_385)?;
    Ok(narrowed(alloc, &numbers)?)
}
