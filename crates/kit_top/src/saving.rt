//! What `save` and `resume` answer.

ghost use Rattle.std.specs.Prelude.{◌≡◌, ◌<◌, None, Some, length, IfErr, IfOk, OnOk};
ghost use Rattle.kit_cut.specs.Cuts.{simulation_cut, spender_by};
ghost use Rattle.kit_cut.specs.Resuming.{resumed_spender};
ghost use Rattle.kit_cut.specs.ValidCuts.{IsValidCut};
ghost use Rattle.kit_io.specs.Causes.{Rose};
ghost use Rattle.kit_oracle.specs.Ends.{IfSpent};
ghost use Rattle.kit_restore.specs.Saved.{IsSaved};
ghost use Rattle.kit_save.specs.Text.{saved_text, most_saved};
ghost use Rattle.kit_top.specs.Causes.{ResumingCauses, SavingCauses, Told};
ghost use Rattle.kit_top.specs.Saving.{resumed_text, too_long_text};

use crate::Status;
use crate::answers::tell_oracle_end;
use crate::writing::tell;
use kit_cut::{Cut, cut_at, resume_from};
use kit_io::Sink;
use kit_oracle::OracleEnd;
use kit_report::text;
use kit_rules::Federation;
use kit_save::{SaveEnd, save_text};
use std::alloc::Global;

/// The cut of the simulation at a time.
fn cut_then(alloc: Global, federation: &Federation, time: u64) -> Result<Cut, OracleEnd>
    ensures cut { IfOk result (λ cut. cut ≡ simulation_cut federation.now time) }
    ensures valid { IfOk result (λ cut. IsValidCut federation.now cut) }
    ensures none { OnOk result (spender_by federation.now time ≡ None) }
    ensures spent { IfSpent result (λ i. spender_by federation.now time ≡ Some i) }
    ensures within { IfSpent result (λ i. i < length federation.now.federates) }
{
    let (cut, _lines) = cut_at(alloc, federation, time)?;
    Ok(cut)
}

/// Tells the saved file of a cut of the simulation, or that it would be too long.
fn tell_cut<K: Sink>(
    alloc: Global,
    federation: &Federation,
    time: u64,
    cut: &Cut,
    sink: &mut K,
) -> Status
    requires cut { cut.now ≡ simulation_cut federation.now time }
    requires valid { IsValidCut federation.now cut.now }
    requires none { spender_by federation.now time ≡ None }
    ensures told { Told (SavingCauses time federation.now)
        (K.holds sink.old) (K.holds sink.new) result }
    ensures fault { result ≡ Status.WriteFault → Rose (K.faults sink.old) (K.faults sink.new) }
{
    match save_text(alloc, federation, cut) {
        Ok(text) => tell(sink, &text, Status::Done),
        Err(SaveEnd::CutTooLong) => tell(sink, b"fault CutTooLong\n", Status::CutTooLong),
        Err(SaveEnd::NoMemory) => Status::NoMemory,
    }
}

/// Tells the saved file of a federation, with the cut of its simulation at a time.
pub(crate) fn tell_save<K: Sink>(
    alloc: Global,
    federation: &Federation,
    time: u64,
    sink: &mut K,
) -> Status
    ensures told { Told (SavingCauses time federation.now)
        (K.holds sink.old) (K.holds sink.new) result }
    ensures fault { result ≡ Status.WriteFault → Rose (K.faults sink.old) (K.faults sink.new) }
{
    match cut_then(alloc, federation, time) {
        Ok(cut) => tell_cut(alloc, federation, time, &cut, sink),
        Err(end) => tell_oracle_end(alloc, federation, end, sink),
    }
}

/// The text of the simulation that goes on from a cut.
fn resume_text(alloc: Global, federation: &Federation, cut: &Cut) -> Result<Vec<u8>, OracleEnd>
    requires { IsValidCut federation.now cut.now }
    ensures text { IfOk result (λ text. text.items ≡ resumed_text federation.now cut.now) }
    ensures none { OnOk result (resumed_spender federation.now cut.now ≡ None) }
    ensures spent { IfSpent result (λ i. resumed_spender federation.now cut.now ≡ Some i) }
    ensures within { IfSpent result (λ i. i < length federation.now.federates) }
{
    let history = resume_from(alloc, federation, cut)?;
    let text = text(alloc, federation, &history)?;
    Ok(text)
}

/// Tells the text of the simulation that goes on from the cut of a saved file.
pub(crate) fn tell_resume<K: Sink>(
    alloc: Global,
    federation: &Federation,
    cut: &Cut,
    sink: &mut K,
) -> Status
    requires { IsValidCut federation.now cut.now }
    ensures told { Told (ResumingCauses federation.now cut.now)
        (K.holds sink.old) (K.holds sink.new) result }
    ensures fault { result ≡ Status.WriteFault → Rose (K.faults sink.old) (K.faults sink.new) }
{
    match resume_text(alloc, federation, cut) {
        Ok(text) => tell(sink, &text, Status::Done),
        Err(end) => tell_oracle_end(alloc, federation, end, sink),
    }
}
