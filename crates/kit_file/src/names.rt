//! Names: where one is given, and where one is referred to.

ghost use Rattle.std.specs.Prelude.{◌≡◌, ◌≢◌, ◌<◌, ◌≤◌, ◌⊎◌, List, ℕ, codes, length, map, IfSome};
ghost use Rattle.std.specs.Prelude.{IfOk, IsTrue, All};
ghost use Rattle.serde_json.specs.View.{view};
ghost use Rattle.kit_rules.specs.Names.{IsName};
ghost use Rattle.kit_file.specs.SoFar.{IsNewName};
ghost use Rattle.kit_file.specs.Names.{position_of, reference, name, fresh, is_given, new_name};
ghost use Rattle.kit_walk.specs.Agreement.{Gives};

use kit_base::Items;
use kit_rules::{Name, Named, is_name};
use kit_walk::{Fault, FaultKind, WalkEnd, text_at};
use serde_json::Value;
use std::alloc::{AllocError, Global};

fn is_among<T: Named>(done: &[T], s: &str) -> bool
    ensures value { result ≡ is_given T.name_of done.now s.now }
    ensures fresh { IsTrue result ⊎ All (λ t. T.name_of t ≢ s.now) done.now }
{
    let bytes = s.as_bytes();
    done.iter().any(|t| t.name().bytes() == bytes)
}

#[tactic(auto, unfolding(crate::specs::Names::name))]
fn name_at<'v>(alloc: Global, value: &'v Value, key: &str) -> Result<&'v str, WalkEnd>
    ensures exact { Gives (λ s. s.now) result (name key.now (view value.now)) }
    ensures form { IfOk result (λ s. IsName s.now) }
{
    let s = text_at(alloc, value, key)?;
    if is_name(s.as_bytes()) {
        Ok(s)
    } else {
        Err(WalkEnd::Fault(Fault::at_key(alloc, FaultKind::OutOfRange, key)?))
    }
}

fn fresh_at<'v, T: Named>(
    alloc: Global,
    done: &[T],
    key: &str,
    s: &'v str,
) -> Result<&'v str, WalkEnd>
    ensures exact { Gives (λ t. t.now) result (fresh T.name_of done.now key.now s.now) }
    ensures fresh { IfOk result (λ t. (t.now ≡ s.now) × All (λ x. T.name_of x ≢ s.now) done.now) }
{
    if is_among(done, s) {
        Err(WalkEnd::Fault(Fault::at_key(alloc, FaultKind::Repeated, key)?))
    } else {
        Ok(s)
    }
}

#[tactic(auto, unfolding(crate::specs::Names::new_name))]
pub(crate) fn new_name_at<'v, T: Named>(
    alloc: Global,
    value: &'v Value,
    key: &str,
    done: &[T],
) -> Result<&'v str, WalkEnd>
    ensures exact { Gives (λ s. s.now) result
        (new_name T.name_of done.now key.now (view value.now)) }
    ensures given { IfOk result (λ s. IsNewName T.name_of done.now s.now) }
{
    let s = name_at(alloc, value, key)?;
    fresh_at(alloc, done, key, s)
}

/// The index of what a text names.
pub(crate) fn position_in<T: Named>(items: &[T], s: &str) -> Option<usize>
    ensures value { result ≡ position_of T.name_of items.now s.now }
    ensures low { IfSome result (λ j. j < length items.now) }
{
    let bytes = s.as_bytes();
    items.iter().position(|t| t.name().bytes() == bytes)
}

#[tactic(auto, unfolding(crate::specs::Names::reference))]
pub(crate) fn reference_at<T: Named>(
    alloc: Global,
    value: &Value,
    key: &str,
    items: &[T],
) -> Result<u8, WalkEnd>
    requires { length items.now ≤ 256 }
    ensures exact { Gives (λ j. j) result (reference T.name_of items.now key.now (view value.now)) }
    ensures low { IfOk result (λ j. j < length items.now) }
{
    let s = text_at(alloc, value, key)?;
    match position_in(items, s) {
        Some(j) => Ok(j as u8),
        None => Err(WalkEnd::Fault(Fault::at_key(alloc, FaultKind::UnknownName, key)?)),
    }
}

/// Copies of the names of these.
pub(crate) fn names_of<T: Named>(alloc: Global, items: &[T]) -> Result<Items<Name>, AllocError>
    ensures { IfOk result (λ names. names ≡ map T.name_of items.now) }
{
    let mut names = Items::new(alloc);
    for item in items {
        names.push(Name::of(alloc, item.name().bytes())?)?;
    }
    Ok(names)
}
