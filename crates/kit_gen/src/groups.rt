//! The groups of a generated federation.
ghost use Rattle.std.specs.Prelude.{◌≡◌, ◌≤◌, ◌<◌, ◌+◌, ◌%◌, ◌^◌, map, IfOk};
ghost use Rattle.std.specs.List.{range_with_len};
ghost use Rattle.kit_gen.specs.Generator.{group_of, members_of};

use crate::picks::name_of;
use kit_base::Items;
use kit_rules::Group;
use std::alloc::{AllocError, Global};

/// The federate so far after another in a ring of so many, as a mask.
fn member(count: u8, group: u8, after: u8) -> u16
    requires count { 0 < count × count ≤ 16 }
    requires group { group < count }
    requires after { after < 16 }
    ensures { result ≡ 2 ^ ((group + after) % count) }
{
    1 << ((group + after) % count)
}

/// The members of a group, as a mask.
fn members_of(count: u8, group: u8) -> u16
    requires count { 4 ≤ count × count ≤ 16 }
    requires group { group < count }
    ensures { result ≡ members_of count group }
{
    member(count, group, 1) + member(count, group, 3)
}

fn group_of(alloc: Global, count: u8, group: u8) -> Result<Group, AllocError>
    requires count { 4 ≤ count × count ≤ 16 }
    requires group { group < count }
    ensures { IfOk result (λ made. made ≡ group_of count group) }
{
    Ok(Group {
        name: name_of(alloc, b'g', group)?,
        members: members_of(count, group),
    })
}

/// A group for each of so many federates.
pub(crate) fn groups_of(alloc: Global, count: u8) -> Result<Items<Group>, AllocError>
    requires { 4 ≤ count × count ≤ 16 }
    ensures { IfOk result (λ groups. groups ≡ map (group_of count) (range_with_len 0 count)) }
{
    let mut groups = Items::new(alloc);
    for group in 0..count {
        groups.push(group_of(alloc, count, group)?)?;
    }
    Ok(groups)
}
