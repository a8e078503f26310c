//! The plan of a file of version 3, and its federation.

ghost use Rattle.std.specs.Prelude.{◌≡◌, ◌≤◌, codes, map, length, Some, IfOk, IfSome};
ghost use Rattle.serde_json.specs.View.{view};
ghost use Rattle.kit_rules.specs.Limits.{most_buffers, most_federates};
ghost use Rattle.kit_rules.specs.Federation.{IsStep, IsFederation};
ghost use Rattle.kit_regions.specs.Lowered.{crowded_federate};
ghost use Rattle.kit_walk.specs.Agreement.{Fails, Gives};
ghost use Rattle.kit_file.specs.Names.{itself};
ghost use Rattle.kit_file.specs.SoFar.{AreNames};
ghost use Rattle.kit_file.specs.Walk.{plan_in, too_many_rules, lowered_where, with_plan};
ghost use Rattle.kit_regions.specs.Limits.{IsPlan};

use crate::content::Content;
use crate::federates::federates_in;
use crate::known::Known;
use crate::names::names_of;
use crate::regions::regions_in;
use crate::subscribers::{Subscribed, subscribed_groups_in};
use kit_regions::{RegionEnd, Regioned, lower};
use kit_rules::{Federation, Name};
use kit_walk::{Fault, FaultKind, WalkEnd};
use serde_json::Value;
use std::alloc::Global;

#[tactic(auto, using(crate::proofs::Making::is_plan), unfolding(crate::specs::Walk::plan_in))]
pub(crate) fn plan_in(
    alloc: Global,
    end: u64,
    buffers: u16,
    names: &[Name],
    items: &[Value],
    value: &Value,
) -> Result<Regioned, WalkEnd>
    requires end { IsStep end }
    requires buffers { (1 ≤ buffers) × (buffers ≤ most_buffers) }
    requires count { length names.now ≡ length items.now }
    requires low { 1 ≤ length names.now }
    requires high { length names.now ≤ most_federates }
    requires given { AreNames itself names.now }
    ensures { Gives (λ plan. plan) result
        (plan_in end buffers names.now (map view items.now) (view value.now)) }
{
    let Subscribed {
        groups,
        subscriptions,
    } = subscribed_groups_in(alloc, names, value)?;
    let updates = regions_in(alloc, groups.as_slice(), value)?;
    let targets = names_of(alloc, updates.as_slice())?;
    let known = Known { groups, targets };
    let federates = federates_in(alloc, 3, names, &known, items)?;
    let groups = known.groups;
    Ok(Regioned::new(end, buffers, groups, updates, subscriptions, federates))
}

/// The end of a walk that found too many rules at a federate.
fn too_many_rules(alloc: Global, federate: u8) -> WalkEnd
    ensures { Fails result (too_many_rules federate) }
{
    match Fault::at_key(alloc, FaultKind::OutOfRange, "rules") {
        Ok(fault) => WalkEnd::Fault(fault).under_item(alloc, "federates", federate as usize),
        Err(_) => WalkEnd::Memory,
    }
}

fn lowered_in(alloc: Global, plan: &Regioned) -> Result<Federation, WalkEnd>
    ensures exact { Gives (λ f. f) result
        (lowered_where plan.now (crowded_federate plan.now)) }
    ensures sound { IfOk result (λ f. IsFederation f) }
{
    match lower(alloc, plan) {
        Ok(federation) => {
            federation.keeps_its_limits();
            Ok(federation)
        }
        Err(RegionEnd::NoMemory) => Err(WalkEnd::Memory),
        Err(RegionEnd::TooManyRules { federate }) => Err(too_many_rules(alloc, federate)),
    }
}

#[tactic(auto, unfolding(crate::specs::Walk::with_plan))]
pub(crate) fn with_plan(alloc: Global, plan: Regioned) -> Result<Content, WalkEnd>
    ensures exact { Gives (λ c. c) result (with_plan plan) }
    ensures sound { IfOk result (λ c. IsFederation c.federation) }
    ensures planned { IfOk result (λ c. IfSome c.plan IsPlan) }
{
    let federation = lowered_in(alloc, &plan)?;
    Ok(Content {
        federation,
        plan: Some(plan),
    })
}
