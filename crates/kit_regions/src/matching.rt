//! Which federates an update reaches.

ghost use Rattle.std.specs.Prelude.{◌≡◌, ◌<◌, map, IfOk, All};
ghost use Rattle.kit_regions.specs.declared.region.Subscription.{Subscription};
ghost use Rattle.kit_rules.specs.Limits.{most_federates};
ghost use Rattle.kit_regions.specs.Overlap.{overlaps, is_near, mask_of};

use crate::{Range, Subscription, Update};
use std::alloc::{AllocError, Global};

/// Whether two ranges overlap: each one's `from` is below the other's `to`. Ranges that only touch
/// do not.
pub fn overlap(a: Range, b: Range) -> bool
    ensures { result ≡ overlaps a b }
{
    a.from < b.to && b.from < a.to
}

/// Whether an update reaches a subscription, of whichever federate: their groups are one, and their
/// ranges overlap.
fn reaches(update: &Update, subscription: &Subscription) -> bool
    ensures { result ≡ is_near update.now subscription.now }
{
    subscription.group == update.group && overlap(subscription.range, update.range)
}

/// The mask of the federates that an update reaches.
pub(crate) fn match_one(update: &Update, subscriptions: &[Subscription]) -> u16
    requires { All (λ (s : Subscription). s.federate < most_federates) subscriptions.now }
    ensures { result ≡ mask_of subscriptions.now update.now }
{
    let mut mask = 0u16;
    for subscription in subscriptions {
        if reaches(update, subscription) {
            mask |= 1 << subscription.federate;
        }
    }
    mask
}

/// For each update, in order, the mask of the federates that have a subscription to its group which
/// overlaps its range: bit `j` stands for federate `j`.
pub fn match_all(
    alloc: Global,
    updates: &[Update],
    subscriptions: &[Subscription],
) -> Result<Vec<u16>, AllocError>
    requires { All (λ (s : Subscription). s.federate < most_federates) subscriptions.now }
    ensures { IfOk result (λ masks. masks.items ≡ map (mask_of subscriptions.now) updates.now) }
{
    let mut masks = Vec::new(alloc);
    for update in updates {
        masks.push(match_one(update, subscriptions))?;
    }
    Ok(masks)
}
