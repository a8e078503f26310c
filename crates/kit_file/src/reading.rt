//! The whole file.

ghost use Rattle.std.specs.Prelude.{◌≡◌, ◌<◌, ◌≤◌, codes, map, length, IfOk, IfErr, IfSome, Err};
ghost use Rattle.serde_json.specs.View.{view};
ghost use Rattle.kit_rules.specs.Federation.{IsStep, IsFederation};
ghost use Rattle.kit_rules.specs.Limits.{most_buffers, most_federates};
ghost use Rattle.kit_regions.specs.Limits.{IsPlan};
ghost use Rattle.kit_walk.specs.Agreement.{Gives};
ghost use Rattle.kit_file.specs.Names.{itself};
ghost use Rattle.kit_file.specs.SoFar.{AreNames};
ghost use Rattle.kit_file.specs.Walk.{content_after, content_of, federation_in, plan_walk, walk};
ghost use Rattle.kit_walk.specs.Answers.{IsNoJson};
ghost use Rattle.kit_file.specs.Answers.{IsAccepted, IsAcceptedPlan, IsFaultAtPath};

use crate::content::Content;
use crate::federate_names::federate_names_in;
use crate::federates::federates_in;
use crate::groups::groups_in;
use crate::known::Known;
use crate::names::names_of;
use crate::plans::{plan_in, with_plan};
use kit_regions::Regioned;
use kit_rules::{Federation, MOST_BUFFERS, MOST_FEDERATES, MOST_TIME, Name};
use kit_walk::{FileFault, WalkEnd, json_in, list_at, number_at, object_here};
use serde_json::Value;
use std::alloc::Global;

#[tactic(auto, using(crate::proofs::Making::are_federates), unfolding(crate::specs::Walk::federation_in))]
fn federation_in(
    alloc: Global,
    version: u64,
    end: u64,
    buffers: u16,
    names: &[Name],
    items: &[Value],
    value: &Value,
) -> Result<Federation, WalkEnd>
    requires end { IsStep end }
    requires buffers { (1 ≤ buffers) × (buffers ≤ most_buffers) }
    requires count { length names.now ≡ length items.now }
    requires low { 1 ≤ length names.now }
    requires high { length names.now ≤ most_federates }
    requires given { AreNames itself names.now }
    ensures exact { Gives (λ f. f) result
        (federation_in version end buffers names.now (map view items.now) (view value.now)) }
    ensures sound { IfOk result (λ f. IsFederation f) }
{
    let groups = groups_in(alloc, names, value)?;
    let known = Known {
        groups: names_of(alloc, groups.as_slice())?,
        targets: names_of(alloc, groups.as_slice())?,
    };
    let federates = federates_in(alloc, version, names, &known, items)?;
    Ok(Federation::new(end, buffers, groups, federates))
}

#[tactic(auto, unfolding(crate::specs::Walk::content_after))]
fn content_after(
    alloc: Global,
    version: u64,
    end: u64,
    buffers: u16,
    names: &[Name],
    items: &[Value],
    value: &Value,
) -> Result<Content, WalkEnd>
    requires end { IsStep end }
    requires buffers { (1 ≤ buffers) × (buffers ≤ most_buffers) }
    requires count { length names.now ≡ length items.now }
    requires low { 1 ≤ length names.now }
    requires high { length names.now ≤ most_federates }
    requires given { AreNames itself names.now }
    ensures exact { Gives (λ c. c) result
        (content_after version end buffers names.now (map view items.now) (view value.now)) }
    ensures sound { IfOk result (λ c. IsFederation c.federation) }
    ensures planned { IfOk result (λ c. IfSome c.plan IsPlan) }
{
    if version == 3 {
        let plan = plan_in(alloc, end, buffers, names, items, value)?;
        return with_plan(alloc, plan);
    }
    let federation = federation_in(alloc, version, end, buffers, names, items, value)?;
    Ok(Content {
        federation,
        plan: None,
    })
}

#[tactic(auto, unfolding(crate::specs::Walk::content_of))]
fn content_in(alloc: Global, value: &Value) -> Result<Content, WalkEnd>
    ensures exact { Gives (λ c. c) result (content_of (view value.now)) }
    ensures sound { IfOk result (λ c. IsFederation c.federation) }
    ensures planned { IfOk result (λ c. IfSome c.plan IsPlan) }
{
    object_here(alloc, value)?;
    let version = number_at(alloc, value, "version", 1, 3)?;
    let end = number_at(alloc, value, "end", 1, MOST_TIME)?;
    let buffers = number_at(alloc, value, "buffers", 1, MOST_BUFFERS)?;
    let items = list_at(alloc, value, "federates", 1, MOST_FEDERATES)?;
    let names = federate_names_in(alloc, items)?;
    content_after(
        alloc,
        version,
        end,
        buffers as u16,
        names.as_slice(),
        items,
        value,
    )
}

/// What a file says, as its two walks give it.
#[tactic(auto, using(crate::proofs::Contents::federation_gives, crate::proofs::Contents::plan_gives))]
fn walk_in(alloc: Global, value: &Value) -> Result<Content, WalkEnd>
    ensures federation { Gives (λ c. c.federation) result (walk (view value.now)) }
    ensures plan { Gives (λ c. c.plan) result (plan_walk (view value.now)) }
    ensures sound { IfOk result (λ c. IsFederation c.federation) }
    ensures planned { IfOk result (λ c. IfSome c.plan IsPlan) }
{
    content_in(alloc, value)
}

/// The federation that a value says, as the walk of [`read_federation`] finds it.
pub fn federation_of(alloc: Global, value: &Value) -> Result<Federation, WalkEnd>
    ensures exact { Gives (λ p. p) result (walk (view value.now)) }
    ensures sound { IfOk result (λ p. IsFederation p) }
{
    let content = walk_in(alloc, value)?;
    Ok(content.federation)
}

#[tactic(auto, using(kit_walk::proofs::Told::walk_faults, kit_walk::proofs::Told::json_faults, kit_walk::proofs::Told::no_json))]
fn read_content(alloc: Global, bytes: &[u8]) -> Result<Content, FileFault>
    ensures accepted { IfOk result (λ c. IsAccepted bytes.now c.federation) }
    ensures sound { IfOk result (λ c. IsFederation c.federation) }
    ensures accepted_plan { IfOk result (λ c. IsAcceptedPlan bytes.now c.plan) }
    ensures planned { IfOk result (λ c. IfSome c.plan IsPlan) }
    ensures fault { IfErr result (λ f. IsFaultAtPath bytes.now f) }
    ensures not_json { result ≡ Err FileFault.NotJson → IsNoJson bytes.now }
{
    let value = json_in(alloc, bytes)?;
    match walk_in(alloc, &value) {
        Ok(content) => Ok(content),
        Err(end) => Err(end.of_file(alloc)),
    }
}

/// Reads a federation file, one JSON text in UTF-8.
///
/// Its places are tested in a fixed order, and the first fault is the answer: the root, `version`,
/// `end`, `buffers`, the list `federates`, all their names, `groups`, in version 3 `regions`, and
/// then each federate's `regulating` (from version 2 on), `lookahead`, `advance`, `vars` and
/// `rules`. Keys that no place has are ignored. Of a key that is written twice in one object, the
/// last value counts.
///
/// A file of version 3 gives what its plan, as [`read_plan`] reads it, is lowered to. Where tables
/// become too long, the list of rules of the first such federate is out of range.
pub fn read_federation(alloc: Global, bytes: &[u8]) -> Result<Federation, FileFault>
    ensures accepted { IfOk result (λ p. IsAccepted bytes.now p) }
    ensures sound { IfOk result (λ p. IsFederation p) }
    ensures fault { IfErr result (λ f. IsFaultAtPath bytes.now f) }
    ensures not_json { result ≡ Err FileFault.NotJson → IsNoJson bytes.now }
{
    let content = read_content(alloc, bytes)?;
    Ok(content.federation)
}

/// Reads the plan of a federation file of version 3. A file of version 1 or 2 has none.
///
/// It refuses what [`read_federation`] refuses, with the same fault.
pub fn read_plan(alloc: Global, bytes: &[u8]) -> Result<Option<Regioned>, FileFault>
    ensures accepted { IfOk result (λ plan. IsAcceptedPlan bytes.now plan) }
    ensures sound { IfOk result (λ plan. IfSome plan IsPlan) }
    ensures fault { IfErr result (λ f. IsFaultAtPath bytes.now f) }
    ensures not_json { result ≡ Err FileFault.NotJson → IsNoJson bytes.now }
{
    let content = read_content(alloc, bytes)?;
    Ok(content.plan)
}
