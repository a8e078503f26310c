//! The cut of a saved file.

ghost use Rattle.serde_json.specs.View.{view};
ghost use Rattle.kit_walk.specs.Agreement.{Gives};
ghost use Rattle.kit_restore.specs.CutWalk.{cut_in, cut_of};

use crate::standing::standings_at;
use crate::variables::nexts_at;
use kit_cut::Cut;
use kit_rules::Federation;
use kit_walk::{WalkEnd, member_at, number_at, object_here};
use serde_json::Value;
use std::alloc::Global;

#[tactic(auto, unfolding(crate::specs::CutWalk::cut_in))]
fn cut_here(alloc: Global, federation: &Federation, value: &Value) -> Result<Cut, WalkEnd>
    ensures exact { Gives (λ cut. cut) result (cut_in federation.now (view value.now)) }
{
    let count = federation.count() as usize;
    object_here(alloc, value)?;
    let at = number_at(alloc, value, "at", 0, federation.end())?;
    let next = nexts_at(alloc, count, value)?;
    let federates = standings_at(alloc, federation, at, next.as_slice(), value)?;
    Ok(Cut {
        at,
        next,
        federates,
    })
}

/// The key `cut` of a saved file of this federation.
#[tactic(auto, using(kit_walk::proofs::Ends::fails_within), unfolding(crate::specs::CutWalk::cut_of))]
pub(crate) fn cut_at(alloc: Global, federation: &Federation, value: &Value) -> Result<Cut, WalkEnd>
    ensures exact { Gives (λ cut. cut) result (cut_of federation.now (view value.now)) }
{
    let found = member_at(alloc, value, "cut")?;
    match cut_here(alloc, federation, found) {
        Ok(cut) => Ok(cut),
        Err(end) => Err(end.under_key(alloc, "cut")),
    }
}
