//! The text of a plan's regions: a line for each update, with the federates that it reaches.

ghost use Rattle.std.specs.Prelude.{◌≡◌, ◌<◌, ◌≤◌, ◌++◌, length, codes, IfOk, OnOk};
ghost use Rattle.kit_rules.specs.Limits.{most_federates};
ghost use Rattle.kit_rules.specs.Delivery.{has_bit};
ghost use Rattle.kit_regions.specs.Text.{names_where, region_head, region_line, regions_text};

use crate::matching::match_one;
use crate::{Regioned, Update};
use kit_base::push_decimal;
use kit_rules::{Federate, is_member};
use std::alloc::{AllocError, Global};

/// Adds a name after a space.
fn push_name(out: &mut Vec<u8>, name: &[u8]) -> Result<(), AllocError>
    ensures { OnOk result (out.new.items ≡ out.old.items ++ codes " " ++ name.now) }
{
    out.push(b' ')?;
    out.extend_from_slice(name)
}

/// Adds the names of the members of a mask, in ascending order.
fn push_members(out: &mut Vec<u8>, mask: u16, federates: &[Federate]) -> Result<(), AllocError>
    requires { length federates.now ≤ most_federates }
    ensures { OnOk result (out.new.items
        ≡ out.old.items ++ names_where (has_bit mask) federates.now) }
{
    for (j, federate) in federates.iter().enumerate() {
        if is_member(mask, j as u8) {
            push_name(out, federate.name.bytes())?;
        }
    }
    Ok(())
}

/// Adds the names of an update and of its group, and its range.
fn push_head(out: &mut Vec<u8>, plan: &Regioned, update: &Update) -> Result<(), AllocError>
    requires { update.now.group < length plan.now.groups }
    ensures { OnOk result (out.new.items ≡ out.old.items ++ region_head plan.now update.now) }
{
    out.extend_from_slice(b"region")?;
    push_name(out, update.name.bytes())?;
    push_name(out, plan.groups()[update.group as usize].bytes())?;
    out.push(b' ')?;
    push_decimal(out, update.range.from as u64)?;
    out.push(b' ')?;
    push_decimal(out, update.range.to as u64)
}

fn push_region(out: &mut Vec<u8>, plan: &Regioned, update: &Update) -> Result<(), AllocError>
    requires { update.now.group < length plan.now.groups }
    ensures { OnOk result (out.new.items ≡ out.old.items ++ region_line plan.now update.now) }
{
    push_head(out, plan, update)?;
    let mask = match_one(update, plan.subscriptions());
    push_members(out, mask, plan.federates())?;
    out.push(b'\n')?;
    Ok(())
}

/// A line for each update: `region`, the names of the update and of its group, its range, and the
/// names of the federates that have a subscription to its group which overlaps its range, in the
/// order of their numbers.
pub fn region_text(alloc: Global, plan: &Regioned) -> Result<Vec<u8>, AllocError>
    ensures { IfOk result (λ text. text.items ≡ regions_text plan.now) }
{
    let mut out = Vec::new(alloc);
    for update in plan.updates() {
        push_region(&mut out, plan, update)?;
    }
    Ok(out)
}
