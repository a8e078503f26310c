//! The own Events of a federate that it may still take back.

ghost use Rattle.std.specs.Prelude.{◌≡◌, ◌<◌, ◌≤◌, length, IfOk, OnOk, IsTrue, AllPairs};
ghost use Rattle.serde_json.specs.View.{view};
ghost use Rattle.kit_rules.specs.declared.own.Own.{Own};
ghost use Rattle.kit_walk.specs.Agreement.{Gives};
ghost use Rattle.kit_cut.specs.Reach.{is_in_reach};
ghost use Rattle.kit_restore.specs.CutWalk.{own_in, has_risen, own_of, own_step, most_own, owns_of};

use crate::rows::{row_here, test_at};
use kit_base::Items;
use kit_rules::{Federation, Own};
use kit_walk::{WalkEnd, list_at};
use serde_json::Value;
use std::alloc::Global;

/// The most own Events of a federate that is time-regulating.
const MOST_OWN: usize = 16_384;

/// Whether the number of a row is greater than those before, which rise.
fn has_risen(done: &[Own], row: &[u64]) -> bool
    requires rise { AllPairs (λ (a b : Own). a.number < b.number) done.now }
    requires row { length row.now ≡ 3 }
    ensures { result ≡ has_risen done.now (own_in row.now) }
{
    match done.last() {
        Some(last) => (last.number as u64) < row[0],
        None => true,
    }
}

/// Whether federate `i` may take the Event of a row back at `now` or later.
fn is_in_reach(federation: &Federation, i: u8, now: u64, row: &[u64]) -> bool
    requires federate { i < length federation.now.federates }
    requires now { now ≤ federation.now.end }
    requires row { length row.now ≡ 3 }
    ensures { result ≡ is_in_reach federation.now i now (own_in row.now) }
{
    let end = federation.end();
    now + federation.effective_lookahead(i) as u64 <= row[1] && row[1] <= end
}

/// The Event of a row.
fn own_in(row: &[u64]) -> Own
    requires count { length row.now ≡ 3 }
    requires number { (own_in row.now).number < 65536 }
    requires group { (own_in row.now).group < 256 }
    ensures { result ≡ own_in row.now }
{
    Own {
        number: row[0] as u16,
        time: row[1],
        group: row[2] as u8,
    }
}

/// The Event that a value is, with a number above those before, which rise.
#[tactic(auto, unfolding(crate::specs::CutWalk::own_of))]
fn own_here(
    alloc: Global,
    federation: &Federation,
    i: u8,
    now: u64,
    next: u64,
    done: &[Own],
    value: &Value,
) -> Result<Own, WalkEnd>
    requires federate { i < length federation.now.federates }
    requires now { now ≤ federation.now.end }
    requires next { next ≤ 16385 }
    requires rise { AllPairs (λ (a b : Own). a.number < b.number) done.now }
    ensures exact { Gives (λ own. own) result
        (own_of federation.now i now next done.now (view value.now)) }
    ensures risen { IfOk result (λ own. IsTrue (has_risen done.now own)) }
{
    let row = row_here(alloc, value, 3)?;
    let row = row.as_slice();
    test_at(alloc, has_risen(done, row), 0)?;
    test_at(alloc, 1 <= row[0] && row[0] < next, 0)?;
    test_at(alloc, is_in_reach(federation, i, now, row), 1)?;
    test_at(alloc, row[2] < federation.groups().len() as u64, 2)?;
    Ok(own_in(row))
}

#[tactic(auto, using(kit_walk::proofs::Ends::fails_before, crate::proofs::LastOnes::one_more_own), unfolding(crate::specs::CutWalk::own_step))]
fn push_own(
    alloc: Global,
    federation: &Federation,
    i: u8,
    now: u64,
    next: u64,
    j: usize,
    done: &mut Items<Own>,
    value: &Value,
) -> Result<(), WalkEnd>
    requires federate { i < length federation.now.federates }
    requires now { now ≤ federation.now.end }
    requires next { next ≤ 16385 }
    requires rise { AllPairs (λ (a b : Own). a.number < b.number) done.old }
    ensures exact { Gives (λ _. done.new) result
        (own_step federation.now i now next j done.old (view value.now)) }
    ensures rise { OnOk result (AllPairs (λ (a b : Own). a.number < b.number) done.new) }
{
    match own_here(alloc, federation, i, now, next, done.as_slice(), value) {
        Ok(own) => {
            done.push(own)?;
            Ok(())
        }
        Err(end) => Err(end.under_item(alloc, "own", j)),
    }
}

/// The most own Events of a federate: none, unless it is time-regulating.
fn most_own(federation: &Federation, i: u8) -> usize
    requires { i < length federation.now.federates }
    ensures { result ≡ most_own federation.now i }
{
    if federation.federate(i).lookahead.is_some() {
        MOST_OWN
    } else {
        0
    }
}

/// The list `own` of federate `i`, which stands at `now` and whose next number is `next`.
#[tactic(auto, unfolding(crate::specs::CutWalk::owns_of))]
pub(crate) fn owns_at(
    alloc: Global,
    federation: &Federation,
    i: u8,
    now: u64,
    next: u64,
    value: &Value,
) -> Result<Items<Own>, WalkEnd>
    requires federate { i < length federation.now.federates }
    requires now { now ≤ federation.now.end }
    requires next { next ≤ 16385 }
    ensures exact { Gives (λ own. own) result
        (owns_of federation.now i now next (view value.now)) }
{
    let items = list_at(alloc, value, "own", 0, most_own(federation, i))?;
    let mut done = Items::new(alloc);
    for (j, item) in items.iter().enumerate() {
        push_own(alloc, federation, i, now, next, j, &mut done, item)?;
    }
    Ok(done)
}
