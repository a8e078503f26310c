//! Numbers, and lists of numbers.

ghost use Rattle.std.specs.Prelude.{◌≡◌, ◌≤◌, ◌+◌, [], map, length, IfOk, OnOk, IsTrue, All};
ghost use Rattle.serde_json.specs.View.{view};
ghost use Rattle.kit_walk.specs.Agreement.{Gives};
ghost use Rattle.kit_walk.specs.Reading.{guard};
ghost use Rattle.kit_restore.specs.CutWalk.{whole, number_in, number_step, numbers_of, row_step};
ghost use Rattle.kit_restore.specs.CutWalk.{members_of, row_of, guard_at};

use kit_walk::{Fault, FaultKind, WalkEnd, list_at};
use serde_json::Value;
use std::alloc::Global;

/// The whole number that a value is.
fn whole_here(alloc: Global, value: &Value) -> Result<u64, WalkEnd>
    ensures { Gives (λ n. n) result (whole (view value.now)) }
{
    match value.as_u64() {
        Some(number) => Ok(number),
        None => Err(WalkEnd::Fault(Fault::here(alloc, FaultKind::WrongKind))),
    }
}

/// The whole number that a value is, from `low` to `high`.
#[tactic(auto, unfolding(crate::specs::CutWalk::number_in))]
fn number_here(alloc: Global, value: &Value, low: u64, high: u64) -> Result<u64, WalkEnd>
    ensures exact { Gives (λ n. n) result (number_in low high (view value.now)) }
{
    let number = whole_here(alloc, value)?;
    if low <= number && number <= high {
        Ok(number)
    } else {
        Err(WalkEnd::Fault(Fault::here(alloc, FaultKind::OutOfRange)))
    }
}

#[tactic(auto, using(kit_walk::proofs::Ends::fails_before), unfolding(crate::specs::CutWalk::number_step))]
fn push_number(
    alloc: Global,
    key: &str,
    i: usize,
    low: u64,
    high: u64,
    done: &mut Vec<u64>,
    value: &Value,
) -> Result<(), WalkEnd>
    ensures exact { Gives (λ _. done.new.items) result
        (number_step key.now low high i done.old.items (view value.now)) }
{
    match number_here(alloc, value, low, high) {
        Ok(number) => {
            done.push(number)?;
            Ok(())
        }
        Err(end) => Err(end.under_item(alloc, key, i)),
    }
}

#[tactic(auto, unfolding(crate::specs::CutWalk::numbers_of))]
fn numbers_in(
    alloc: Global,
    value: &Value,
    key: &str,
    count: usize,
    low: u64,
    high: u64,
) -> Result<Vec<u64>, WalkEnd>
    ensures exact { Gives (λ numbers. numbers.items) result
        (numbers_of key.now count low high (view value.now)) }
{
    let items = list_at(alloc, value, key, count, count)?;
    let mut done = Vec::new(alloc);
    for (i, item) in items.iter().enumerate() {
        push_number(alloc, key, i, low, high, &mut done, item)?;
    }
    Ok(done)
}

/// The list of so many numbers at a key, each from `low` to `high`.
#[tactic(auto, using(crate::proofs::Numbers::numbers_found))]
pub(crate) fn numbers_at(
    alloc: Global,
    value: &Value,
    key: &str,
    count: usize,
    low: u64,
    high: u64,
) -> Result<Vec<u64>, WalkEnd>
    ensures exact { Gives (λ numbers. numbers.items) result
        (numbers_of key.now count low high (view value.now)) }
    ensures range { IfOk result (λ numbers. All (λ n. (low ≤ n) × (n ≤ high)) numbers.items) }
    ensures count { IfOk result (λ numbers. length numbers.items ≡ count) }
{
    numbers_in(alloc, value, key, count, low, high)
}

#[tactic(auto, using(kit_walk::proofs::Ends::fails_before), unfolding(crate::specs::CutWalk::row_step))]
fn push_member(alloc: Global, i: usize, done: &mut Vec<u64>, value: &Value) -> Result<(), WalkEnd>
    ensures exact { Gives (λ _. done.new.items) result
        (row_step i done.old.items (view value.now)) }
    ensures count { OnOk result (length done.new.items ≡ length done.old.items + 1) }
{
    match whole_here(alloc, value) {
        Ok(number) => {
            done.push(number)?;
            Ok(())
        }
        Err(end) => Err(end.under_index(alloc, i)),
    }
}

/// The members of the list of so many that a value is.
#[tactic(auto, unfolding(crate::specs::CutWalk::members_of), using(kit_walk::proofs::Views::data_of_view, kit_walk::proofs::Views::length_of_view))]
fn members_here(alloc: Global, value: &Value, count: usize) -> Result<&[Value], WalkEnd>
    ensures exact { Gives (λ members. map view members.now) result
        (members_of count (view value.now)) }
    ensures count { IfOk result (λ members. length members.now ≡ count) }
{
    let Some(items) = value.as_array() else {
        return Err(WalkEnd::Fault(Fault::here(alloc, FaultKind::WrongKind)));
    };
    if items.len() != count {
        return Err(WalkEnd::Fault(Fault::here(alloc, FaultKind::OutOfRange)));
    }
    Ok(items.as_slice())
}

/// The list of so many numbers that a value is, whatever the numbers are.
#[tactic(auto, unfolding(crate::specs::CutWalk::row_of))]
pub(crate) fn row_here(alloc: Global, value: &Value, count: usize) -> Result<Vec<u64>, WalkEnd>
    ensures exact { Gives (λ row. row.items) result (row_of count (view value.now)) }
    ensures count { IfOk result (λ row. length row.items ≡ count) }
{
    let items = members_here(alloc, value, count)?;
    let mut done = Vec::new(alloc);
    for (i, item) in items.iter().enumerate() {
        push_member(alloc, i, &mut done, item)?;
    }
    Ok(done)
}

/// Tests what has to hold of the number at a place of a row.
pub(crate) fn test_at(alloc: Global, holds: bool, place: usize) -> Result<(), WalkEnd>
    ensures exact { Gives (λ _. tt) result (guard_at holds place) }
    ensures holds { OnOk result (IsTrue holds) }
{
    if holds {
        return Ok(());
    }
    let fault = WalkEnd::Fault(Fault::here(alloc, FaultKind::OutOfRange));
    Err(fault.under_index(alloc, place))
}

/// Tests what has to hold of the value itself.
pub(crate) fn test_here(alloc: Global, holds: bool, kind: FaultKind) -> Result<(), WalkEnd>
    ensures exact { Gives (λ _. tt) result (guard holds kind []) }
    ensures holds { OnOk result (IsTrue holds) }
{
    if holds {
        Ok(())
    } else {
        Err(WalkEnd::Fault(Fault::here(alloc, kind)))
    }
}
