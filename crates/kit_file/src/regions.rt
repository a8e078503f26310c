//! The regions of a file of version 3, to which federates send.

ghost use Rattle.std.specs.Prelude.{◌≡◌, ◌+◌, ◌<◌, ◌≤◌, ◌++◌, ◌∷◌, [], codes, map, length};
ghost use Rattle.std.specs.Prelude.{IfOk, OnOk};
ghost use Rattle.serde_json.specs.View.{view};
ghost use Rattle.kit_rules.specs.Limits.{most_groups};
ghost use Rattle.kit_regions.specs.Limits.{IsRange, IsUpdate, AreUpdates};
ghost use Rattle.kit_walk.specs.Agreement.{Gives};
ghost use Rattle.kit_file.specs.Names.{update_name};
ghost use Rattle.kit_walk.specs.Paths.{item_path};
ghost use Rattle.kit_walk.specs.Reading.{within};
ghost use Rattle.kit_file.specs.Regions.{range_of, region_of, region_step, regions_of};
ghost use Rattle.kit_file.specs.SoFar.{IsNewName, AreUpdatesSoFar};

use crate::names::{new_name_at, reference_at};
use kit_base::Items;
use kit_regions::{MOST_UPDATES, Range, Update};
use kit_rules::Name;
use kit_walk::{WalkEnd, number_at, object_here, optional_list_at};
use serde_json::Value;
use std::alloc::Global;

#[tactic(auto, unfolding(crate::specs::Regions::range_of))]
pub(crate) fn range_in(alloc: Global, value: &Value) -> Result<Range, WalkEnd>
    ensures exact { Gives (λ r. r) result (range_of (view value.now)) }
    ensures sound { IfOk result (λ r. IsRange r) }
{
    let from = number_at(alloc, value, "from", 0, u32::MAX as u64 - 1)?;
    let to = number_at(alloc, value, "to", from + 1, u32::MAX as u64)?;
    Ok(Range {
        from: from as u32,
        to: to as u32,
    })
}

#[tactic(auto, unfolding(crate::specs::Regions::region_of))]
fn region_in(
    alloc: Global,
    groups: &[Name],
    done: &[Update],
    value: &Value,
) -> Result<Update, WalkEnd>
    requires { length groups.now ≤ most_groups }
    ensures exact { Gives (λ u. u) result (region_of groups.now done.now (view value.now)) }
    ensures sound { IfOk result (λ u. IsUpdate (length groups.now) u) }
    ensures given { IfOk result (λ u. IsNewName update_name done.now u.name) }
{
    object_here(alloc, value)?;
    let name = new_name_at(alloc, value, "name", done)?;
    let group = reference_at(alloc, value, "group", groups)?;
    let range = range_in(alloc, value)?;
    Ok(Update {
        name: Name::of(alloc, name.as_bytes())?,
        group,
        range,
    })
}

#[tactic(auto, using(kit_walk::proofs::Ends::fails_before, crate::proofs::Pushes::one_more_update), unfolding(crate::specs::Regions::region_step))]
fn push_region(
    alloc: Global,
    groups: &[Name],
    i: usize,
    done: &mut Items<Update>,
    value: &Value,
) -> Result<(), WalkEnd>
    requires few { length groups.now ≤ most_groups }
    requires kept { AreUpdatesSoFar (length groups.now) done.old }
    ensures exact { Gives (λ _. done.new) result
        (region_step groups.now i done.old (view value.now)) }
    ensures kept { OnOk result (AreUpdatesSoFar (length groups.now) done.new) }
    ensures count { OnOk result (length done.new ≡ length done.old + 1) }
{
    match region_in(alloc, groups, done.as_slice(), value) {
        Ok(region) => {
            done.push(region)?;
            Ok(())
        }
        Err(end) => Err(end.under_item(alloc, "regions", i)),
    }
}

#[tactic(auto, using(crate::proofs::Pushes::no_updates), unfolding(crate::specs::Regions::regions_of))]
pub(crate) fn regions_in(
    alloc: Global,
    groups: &[Name],
    value: &Value,
) -> Result<Items<Update>, WalkEnd>
    requires { length groups.now ≤ most_groups }
    ensures exact { Gives (λ v. v) result (regions_of groups.now (view value.now)) }
    ensures sound { IfOk result (λ v. AreUpdates (length groups.now) v) }
{
    let items = optional_list_at(alloc, value, "regions", MOST_UPDATES)?;
    let mut done = Items::new(alloc);
    for (i, item) in items.iter().enumerate() {
        push_region(alloc, groups, i, &mut done, item)?;
    }
    Ok(done)
}
