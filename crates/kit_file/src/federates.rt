//! The federates in full, once it is known what their rules may name.

ghost use Rattle.std.specs.Prelude.{◌≡◌, ◌+◌, IfOk, OnOk, ◌<◌, ◌≤◌, ◌++◌, ◌∷◌, [], codes, map};
ghost use Rattle.std.specs.Prelude.{length, slice_index_or};
ghost use Rattle.serde_json.specs.View.{view};
ghost use Rattle.kit_rules.specs.Limits.{most_federates};
ghost use Rattle.kit_walk.specs.Agreement.{Gives};
ghost use Rattle.kit_walk.specs.Reading.{within};
ghost use Rattle.kit_file.specs.SoFar.{AreNames, AreKnown, AreFederatesSoFar};
ghost use Rattle.kit_file.specs.Names.{itself};
ghost use Rattle.kit_file.specs.Federates.{wish_of, advance_of, federate_of, federate_step};
ghost use Rattle.kit_file.specs.Federates.{federates_of};
ghost use Rattle.kit_walk.specs.Paths.{item_path};
ghost use Rattle.kit_rules.specs.Names.{IsName};
ghost use Rattle.kit_rules.specs.Federation.{IsWish};
ghost use Rattle.kit_regions.specs.Limits.{IsPlannedFederate, ArePlannedFederates};

use crate::known::Known;
use crate::lookaheads::lookahead_at;
use crate::rules::rules_in;
use crate::variables::vars_in;
use kit_base::Items;
use kit_rules::{Federate, MOST_TIME, Name, Wish};
use kit_walk::{Fault, FaultKind, WalkEnd, member_at, number_at, object_here};
use serde_json::Value;
use std::alloc::Global;

/// The wish that an object says, with its step under `tar` or `ner`; `tar` counts where it has both.
#[tactic(auto, unfolding(crate::specs::Federates::wish_of))]
pub fn wish_in(alloc: Global, value: &Value) -> Result<Wish, WalkEnd>
    ensures exact { Gives (λ w. w) result (wish_of (view value.now)) }
    ensures sound { IfOk result (λ w. IsWish w) }
{
    object_here(alloc, value)?;
    if value.get("tar").is_some() {
        let step = number_at(alloc, value, "tar", 1, MOST_TIME)?;
        return Ok(Wish::Tar(step as u32));
    }
    if value.get("ner").is_some() {
        let step = number_at(alloc, value, "ner", 1, MOST_TIME)?;
        return Ok(Wish::Ner(step as u32));
    }
    Err(WalkEnd::Fault(Fault::at_key(alloc, FaultKind::Missing, "tar")?))
}

#[tactic(auto, using(kit_walk::proofs::Ends::fails_within), unfolding(crate::specs::Federates::advance_of))]
fn advance_in(alloc: Global, value: &Value) -> Result<Wish, WalkEnd>
    ensures exact { Gives (λ w. w) result (advance_of (view value.now)) }
    ensures sound { IfOk result (λ w. IsWish w) }
{
    let found = member_at(alloc, value, "advance")?;
    match wish_in(alloc, found) {
        Ok(wish) => Ok(wish),
        Err(end) => Err(end.under_key(alloc, "advance")),
    }
}

#[tactic(auto, unfolding(crate::specs::Federates::federate_of))]
fn federate_in(
    alloc: Global,
    version: u64,
    known: &Known,
    name: &Name,
    value: &Value,
) -> Result<Federate, WalkEnd>
    requires form { IsName name.now }
    requires few { AreKnown known.now }
    ensures exact { Gives (λ f. f) result
        (federate_of version known.now name.now (view value.now)) }
    ensures sound { IfOk result (λ f. IsPlannedFederate
        (length known.now.groups) (length known.now.targets) f) }
    ensures called { IfOk result (λ f. f.name ≡ name.now) }
{
    let lookahead = lookahead_at(alloc, version, value)?;
    let advance = advance_in(alloc, value)?;
    let vars = vars_in(alloc, value)?;
    let rules = rules_in(alloc, known, vars.as_slice(), lookahead, value)?;
    Ok(Federate {
        name: Name::of(alloc, name.bytes())?,
        lookahead,
        advance,
        vars,
        rules,
    })
}

#[tactic(auto, using(kit_walk::proofs::Ends::fails_before, crate::proofs::Pushes::one_more_federate), unfolding(crate::specs::Federates::federate_step))]
fn push_federate(
    alloc: Global,
    version: u64,
    names: &[Name],
    known: &Known,
    i: usize,
    done: &mut Items<Federate>,
    value: &Value,
) -> Result<(), WalkEnd>
    requires few { AreKnown known.now }
    requires here { i < length names.now }
    requires given { AreNames itself names.now }
    requires count { length done.old ≡ i }
    requires kept { AreFederatesSoFar (length known.now.groups)
        (length known.now.targets) names.now done.old }
    ensures kept { OnOk result (AreFederatesSoFar (length known.now.groups)
        (length known.now.targets) names.now done.new) }
    ensures count { OnOk result (length done.new ≡ length done.old + 1) }
    ensures exact { Gives (λ _. done.new) result
        (federate_step version names.now known.now i done.old (view value.now)) }
{
    match federate_in(alloc, version, known, &names[i], value) {
        Ok(federate) => {
            done.push(federate)?;
            Ok(())
        }
        Err(end) => Err(end.under_item(alloc, "federates", i)),
    }
}

#[tactic(auto, using(crate::proofs::Pushes::no_federates, crate::proofs::Pushes::federates_are), unfolding(crate::specs::Federates::federates_of))]
pub(crate) fn federates_in(
    alloc: Global,
    version: u64,
    names: &[Name],
    known: &Known,
    items: &[Value],
) -> Result<Items<Federate>, WalkEnd>
    requires few { AreKnown known.now }
    requires count { length names.now ≡ length items.now }
    requires low { 1 ≤ length names.now }
    requires high { length names.now ≤ most_federates }
    requires given { AreNames itself names.now }
    ensures sound { IfOk result (λ v. ArePlannedFederates
        (length known.now.groups) (length known.now.targets) v) }
    ensures count { IfOk result (λ v. length v ≡ length names.now) }
    ensures exact { Gives (λ v. v) result
        (federates_of version names.now known.now (map view items.now)) }
{
    let mut done = Items::new(alloc);
    for (i, item) in items.iter().enumerate() {
        push_federate(alloc, version, names, known, i, &mut done, item)?;
    }
    Ok(done)
}
