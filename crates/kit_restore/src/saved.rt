//! The whole saved file.

ghost use Rattle.std.specs.Prelude.{◌≡◌, IfOk, IfErr, Err};
ghost use Rattle.kit_rules.specs.Federation.{IsFederation};
ghost use Rattle.kit_cut.specs.ValidCuts.{IsValidCut};
ghost use Rattle.kit_walk.specs.declared.fault.FileFault.{FileFault};
ghost use Rattle.kit_walk.specs.declared.fault.FileFault.TheVariants as file;
ghost use Rattle.kit_walk.specs.Answers.{IsNoJson};
ghost use Rattle.kit_walk.specs.Agreement.{Gives};
ghost use Rattle.kit_restore.specs.Saved.{saved_walk, IsSaved, IsSavedFault};
ghost use Rattle.serde_json.specs.View.{view};

use crate::cut::cut_at;
use crate::laws::read_cuts_are_valid;
use kit_cut::Cut;
use kit_file::federation_of;
use kit_rules::Federation;
use kit_walk::{FileFault, WalkEnd, json_in};
use serde_json::Value;
use std::alloc::Global;

/// The federation and the cut that a value says.
#[tactic(auto, unfolding(crate::specs::Saved::saved_walk))]
fn saved_in(alloc: Global, value: &Value) -> Result<(Federation, Cut), WalkEnd>
    ensures exact { Gives (λ saved. saved) result (saved_walk (view value.now)) }
    ensures sound { IfOk result (λ saved. IsFederation saved.0) }
    ensures valid { IfOk result (λ saved. IsValidCut saved.0 saved.1) }
{
    read_cuts_are_valid();
    let federation = federation_of(alloc, value)?;
    let cut = cut_at(alloc, &federation, value)?;
    Ok((federation, cut))
}

/// Reads a saved file: a federation file, of any version, with a key `cut` beside.
///
/// First its places as a federation file are tested, as
/// [`read_federation`](kit_file::read_federation) tests them, and then those of its cut: `at`,
/// `next`, and for each federate of the list `federates` `now`, `vars`, `wish`, `request` where
/// `now` is below the end time, `own` and `pending`. The first fault is the answer. A row of `own`
/// is number, time and group, a row of `pending` time, sender, number, group and value.
#[tactic(auto, using(kit_walk::proofs::Told::walk_faults, kit_walk::proofs::Told::json_faults, kit_walk::proofs::Told::no_json))]
pub fn read_cut(alloc: Global, bytes: &[u8]) -> Result<(Federation, Cut), FileFault>
    ensures accepted { IfOk result (λ saved. IsSaved bytes.now saved) }
    ensures sound { IfOk result (λ saved. IsFederation saved.0) }
    ensures valid { IfOk result (λ saved. IsValidCut saved.0 saved.1) }
    ensures fault { IfErr result (λ f. IsSavedFault bytes.now f) }
    ensures not_json { result ≡ Err FileFault.NotJson → IsNoJson bytes.now }
{
    let value = json_in(alloc, bytes)?;
    match saved_in(alloc, &value) {
        Ok(saved) => Ok(saved),
        Err(end) => Err(end.of_file(alloc)),
    }
}
