//! What `regions` answers.

ghost use Rattle.std.specs.Prelude.{◌≡◌, IfOk};
ghost use Rattle.kit_io.specs.Causes.{Rose};
ghost use Rattle.kit_top.specs.Causes.{IsThis, Told, plan_text};

use crate::Status;
use crate::writing::tell;
use kit_io::Sink;
use kit_regions::{Regioned, region_text};
use std::alloc::{AllocError, Global};

fn plan_text(alloc: Global, plan: &Option<Regioned>) -> Result<Vec<u8>, AllocError>
    ensures { IfOk result (λ text. text.items ≡ plan_text plan.now) }
{
    match plan {
        Some(plan) => region_text(alloc, plan),
        None => Ok(Vec::new(alloc)),
    }
}

/// Tells the regions of a plan; of a file without one nothing.
pub(crate) fn tell_regions<K: Sink>(alloc: Global, plan: &Option<Regioned>, sink: &mut K) -> Status
    ensures told { Told (IsThis Status.Done (plan_text plan.now))
        (K.holds sink.old) (K.holds sink.new) result }
    ensures fault { result ≡ Status.WriteFault → Rose (K.faults sink.old) (K.faults sink.new) }
{
    match plan_text(alloc, plan) {
        Ok(text) => tell(sink, &text, Status::Done),
        Err(AllocError) => Status::NoMemory,
    }
}
