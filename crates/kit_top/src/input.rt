//! What the bytes of a source say.

ghost use Rattle.std.specs.Prelude.{◌≡◌, IfErr, IfOk, OnOk};
ghost use Rattle.kit_cut.specs.ValidCuts.{IsValidCut};
ghost use Rattle.kit_io.specs.Causes.{Rose};
ghost use Rattle.kit_top.specs.Causes.{InputCauses, InputCausesBy, IsBadSaved, IsInput};
ghost use Rattle.kit_top.specs.Causes.{IsPlanInput, IsSavedInput, IsWhole, Told};

use crate::Status;
use crate::bad_file::tell_bad_file;
use crate::writing::tell;
use kit_cut::Cut;
use kit_file::{read_federation, read_plan};
use kit_io::{ReadEnd, Sink, Source, read_all};
use kit_regions::Regioned;
use kit_restore::read_cut;
use kit_rules::Federation;
use std::alloc::Global;

/// The most bytes of an input.
const MOST_BYTES: usize = 1_048_576;

/// The bytes of the source, to its end; otherwise what is wrong is told, and its status is the
/// error.
fn read_bytes<S: Source, K: Sink>(
    alloc: Global,
    source: &mut S,
    sink: &mut K,
) -> Result<Vec<u8>, Status>
    ensures whole { IfOk result (λ bytes. IsWhole S.Source source.old source.new bytes.items) }
    ensures untouched { OnOk result (sink.new ≡ sink.old) }
    ensures told { IfErr result (Told (InputCausesBy S.Source (λ _ _. ⊥) source.old source.new)
        (K.holds sink.old) (K.holds sink.new)) }
    ensures fault { IfErr result (λ status. status ≡ Status.WriteFault
        → Rose (K.faults sink.old) (K.faults sink.new)) }
{
    match read_all(alloc, source, MOST_BYTES) {
        Ok(bytes) => Ok(bytes),
        Err(ReadEnd::NoMemory) => Err(Status::NoMemory),
        Err(ReadEnd::TooLong) => Err(tell(sink, b"fault TooLong\n", Status::TooLong)),
        Err(ReadEnd::ReadFault) => Err(tell(sink, b"fault ReadFault\n", Status::ReadFault)),
    }
}

/// The federation of the source's file; otherwise what is wrong is told, and its status is the
/// error.
pub(crate) fn read_input<S: Source, K: Sink>(
    alloc: Global,
    source: &mut S,
    sink: &mut K,
) -> Result<Federation, Status>
    ensures input { IfOk result (IsInput S.Source source.old source.new) }
    ensures untouched { OnOk result (sink.new ≡ sink.old) }
    ensures told { IfErr result
        (Told (InputCauses S.Source source.old source.new) (K.holds sink.old) (K.holds sink.new)) }
    ensures fault { IfErr result (λ status. status ≡ Status.WriteFault
        → Rose (K.faults sink.old) (K.faults sink.new)) }
{
    let bytes = read_bytes(alloc, source, sink)?;
    match read_federation(alloc, &bytes) {
        Ok(federation) => Ok(federation),
        Err(fault) => Err(tell_bad_file(alloc, fault, sink)),
    }
}

/// The plan of the source's file, if it has one; where something is wrong that is told, and its
/// status is the error.
pub(crate) fn read_plan_input<S: Source, K: Sink>(
    alloc: Global,
    source: &mut S,
    sink: &mut K,
) -> Result<Option<Regioned>, Status>
    ensures input { IfOk result (IsPlanInput S.Source source.old source.new) }
    ensures untouched { OnOk result (sink.new ≡ sink.old) }
    ensures told { IfErr result
        (Told (InputCauses S.Source source.old source.new) (K.holds sink.old) (K.holds sink.new)) }
    ensures fault { IfErr result (λ status. status ≡ Status.WriteFault
        → Rose (K.faults sink.old) (K.faults sink.new)) }
{
    let bytes = read_bytes(alloc, source, sink)?;
    match read_plan(alloc, &bytes) {
        Ok(plan) => Ok(plan),
        Err(fault) => Err(tell_bad_file(alloc, fault, sink)),
    }
}

/// The federation and the cut of the source's saved file; where something is wrong that is told,
/// and its status is the error.
pub(crate) fn read_saved_input<S: Source, K: Sink>(
    alloc: Global,
    source: &mut S,
    sink: &mut K,
) -> Result<(Federation, Cut), Status>
    ensures input { IfOk result (IsSavedInput S.Source source.old source.new) }
    ensures valid { IfOk result (λ saved. IsValidCut saved.0 saved.1) }
    ensures untouched { OnOk result (sink.new ≡ sink.old) }
    ensures told { IfErr result (Told (InputCausesBy S.Source IsBadSaved source.old source.new)
        (K.holds sink.old) (K.holds sink.new)) }
    ensures fault { IfErr result (λ status. status ≡ Status.WriteFault
        → Rose (K.faults sink.old) (K.faults sink.new)) }
{
    let bytes = read_bytes(alloc, source, sink)?;
    match read_cut(alloc, &bytes) {
        Ok(saved) => Ok(saved),
        Err(fault) => Err(tell_bad_file(alloc, fault, sink)),
    }
}
