//! A federation with a cut of its simulation as a value of JSON: what a saved file says.

ghost use Rattle.std.specs.Prelude.{◌≡◌, length, IfOk};
ghost use Rattle.serde_json.specs.View.{view};
ghost use Rattle.kit_cut.specs.ValidCuts.{IsValidCut};
ghost use Rattle.kit_save.specs.CutValues.{numbers_value, cut_value, saved_value};

use crate::federate_values::federates_value;
use crate::group_values::groups_value;
use crate::objects::{ObjectWriter, count};
use crate::standing_values::standings_value;
use kit_cut::Cut;
use kit_rules::Federation;
use serde_json::Value;
use std::alloc::{AllocError, Global};

/// The number that each federate's next message gets.
fn nexts_value(alloc: Global, nexts: &[u16]) -> Result<Value, AllocError>
    ensures { IfOk result (λ value. view value ≡ numbers_value nexts.now) }
{
    let mut items = Vec::new(alloc);
    for next in nexts {
        items.push(count(*next as u64))?;
    }
    Ok(Value::Array(items))
}

/// A cut of a federation's simulation.
fn cut_value(alloc: Global, federation: &Federation, cut: &Cut) -> Result<Value, AllocError>
    requires { length cut.now.federates ≡ length federation.now.federates }
    ensures { IfOk result (λ value. view value ≡ cut_value federation.now cut.now) }
{
    let standings = standings_value(alloc, federation, cut.federates.as_slice())?;
    let mut object = ObjectWriter::new(alloc);
    object.put(alloc, "at", count(cut.at))?;
    object.put(alloc, "federates", standings)?;
    object.put(alloc, "next", nexts_value(alloc, cut.next.as_slice())?)?;
    Ok(object.into_value())
}

/// A federation file of version 2 with a cut beside the federation. It fails only for want of
/// memory.
pub(crate) fn saved_value(
    alloc: Global,
    federation: &Federation,
    cut: &Cut,
) -> Result<Value, AllocError>
    requires { IsValidCut federation.now cut.now }
    ensures { IfOk result (λ value. view value ≡ saved_value federation.now cut.now) }
{
    let groups = federation.groups();
    let federates = federation.federates();
    let mut object = ObjectWriter::new(alloc);
    object.put(alloc, "version", count(2))?;
    object.put(alloc, "end", count(federation.end()))?;
    object.put(alloc, "buffers", count(federation.buffers() as u64))?;
    object.put(alloc, "groups", groups_value(alloc, federates, groups)?)?;
    object.put(
        alloc,
        "federates",
        federates_value(alloc, groups, federates)?,
    )?;
    object.put(alloc, "cut", cut_value(alloc, federation, cut)?)?;
    Ok(object.into_value())
}
