//! The kinds of places: objects, keys, numbers, texts and lists.

ghost use Rattle.std.specs.Prelude.{◌≡◌, ◌≤◌, map, length, IfOk};
ghost use Rattle.serde_json.specs.View.{view};
ghost use Rattle.std.specs.List.{list_any};
ghost use Rattle.serde_json.specs.Find.{get};
ghost use Rattle.kit_walk.specs.Agreement.{Gives};
ghost use Rattle.kit_walk.specs.Places.{object, member, number, text, list_of, list, optional_list};
ghost use Rattle.kit_walk.specs.Places.{is_same};

use crate::fault::{Fault, FaultKind, WalkEnd};
use serde_json::Value;
use std::alloc::Global;

/// Tests that a value is an object. A value of another kind is at fault itself: the path is empty.
#[tactic(auto, unfolding(crate::specs::Places::object))]
pub fn object_here(alloc: Global, value: &Value) -> Result<(), WalkEnd>
    ensures { Gives (λ _. tt) result (object (view value.now)) }
{
    if value.is_object() {
        Ok(())
    } else {
        Err(WalkEnd::Fault(Fault::here(alloc, FaultKind::WrongKind)))
    }
}

/// The value at a key of an object that has to be there.
#[tactic(auto, unfolding(crate::specs::Places::member))]
pub fn member_at<'v>(alloc: Global, value: &'v Value, key: &str) -> Result<&'v Value, WalkEnd>
    ensures { Gives (λ v. view v.now) result (member key.now (view value.now)) }
{
    match value.get(key) {
        Some(found) => Ok(found),
        None => Err(WalkEnd::Fault(Fault::at_key(alloc, FaultKind::Missing, key)?)),
    }
}

/// The whole number at a key, from `low` to `high`. A number with a fraction, an exponent or a
/// sign is of the wrong kind, and so is one of more than 64 bits.
#[tactic(auto, unfolding(crate::specs::Places::number))]
pub fn number_at(
    alloc: Global,
    value: &Value,
    key: &str,
    low: u64,
    high: u64,
) -> Result<u64, WalkEnd>
    ensures exact { Gives (λ n. n) result (number key.now low high (view value.now)) }
    ensures range { IfOk result (λ n. (low ≤ n) × (n ≤ high)) }
{
    let found = member_at(alloc, value, key)?;
    let Some(n) = found.as_u64() else {
        return Err(WalkEnd::Fault(Fault::at_key(alloc, FaultKind::WrongKind, key)?));
    };
    if n < low || n > high {
        return Err(WalkEnd::Fault(Fault::at_key(alloc, FaultKind::OutOfRange, key)?));
    }
    Ok(n)
}

/// The text at a key.
#[tactic(auto, unfolding(crate::specs::Places::text))]
pub fn text_at<'v>(alloc: Global, value: &'v Value, key: &str) -> Result<&'v str, WalkEnd>
    ensures { Gives (λ s. s.now) result (text key.now (view value.now)) }
{
    let found = member_at(alloc, value, key)?;
    match found.as_str() {
        Some(s) => Ok(s),
        None => Err(WalkEnd::Fault(Fault::at_key(alloc, FaultKind::WrongKind, key)?)),
    }
}

/// Whether two texts have the same bytes.
pub fn are_same(a: &[u8], b: &[u8]) -> bool
    ensures { result ≡ is_same a.now b.now }
{
    a == b
}

/// The members of a list of `low` to `high` members. The key is the one that it stands at, and
/// only says where a fault is.
#[tactic(auto, unfolding(crate::specs::Places::list_of), using(crate::proofs::Views::data_of_view, crate::proofs::Views::length_of_view))]
pub fn list_in<'v>(
    alloc: Global,
    found: &'v Value,
    key: &str,
    low: usize,
    high: usize,
) -> Result<&'v [Value], WalkEnd>
    ensures exact { Gives (λ s. map view s.now) result (list_of key.now low high (view found.now)) }
    ensures range { IfOk result (λ s. (low ≤ length s.now) × (length s.now ≤ high)) }
{
    let Some(items) = found.as_array() else {
        return Err(WalkEnd::Fault(Fault::at_key(alloc, FaultKind::WrongKind, key)?));
    };
    if items.len() < low || items.len() > high {
        return Err(WalkEnd::Fault(Fault::at_key(alloc, FaultKind::OutOfRange, key)?));
    }
    Ok(items.as_slice())
}

/// The members of the list at a key, `low` to `high` of them.
#[tactic(auto, unfolding(crate::specs::Places::list))]
pub fn list_at<'v>(
    alloc: Global,
    value: &'v Value,
    key: &str,
    low: usize,
    high: usize,
) -> Result<&'v [Value], WalkEnd>
    ensures exact { Gives (λ s. map view s.now) result (list key.now low high (view value.now)) }
    ensures range { IfOk result (λ s. (low ≤ length s.now) × (length s.now ≤ high)) }
{
    let found = member_at(alloc, value, key)?;
    list_in(alloc, found, key, low, high)
}

/// The members of the list at a key, `high` at most: none where the key is absent.
pub fn optional_list_at<'v>(
    alloc: Global,
    value: &'v Value,
    key: &str,
    high: usize,
) -> Result<&'v [Value], WalkEnd>
    ensures exact { Gives (λ s. map view s.now) result
        (optional_list key.now high (get key.now (view value.now))) }
    ensures range { IfOk result (λ s. length s.now ≤ high) }
{
    match value.get(key) {
        None => Ok(&[]),
        Some(found) => list_in(alloc, found, key, 0, high),
    }
}
