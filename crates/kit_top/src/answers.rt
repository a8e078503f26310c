//! What the commands without workers answer to a federation.

ghost use Rattle.std.specs.Prelude.{◌≡◌, ◌<◌, None, Some, length, IfOk, OnOk};
ghost use Rattle.kit_io.specs.Causes.{Rose};
ghost use Rattle.kit_oracle.specs.Ends.{IfSpent, IfSpentAt};
ghost use Rattle.kit_cut.specs.Cuts.{spender_by};
ghost use Rattle.kit_rules.specs.Simulation.{spender};
ghost use Rattle.kit_top.specs.Causes.{EndsWith, FederationCauses, IsFederationRun};
ghost use Rattle.kit_top.specs.Causes.{OracleEndCauses, SimulationCauses, Told, text_of};

use crate::federates::tell_federate;
use crate::replays::tell_replay;
use crate::saving::tell_save;
use crate::writing::tell;
use crate::{Ended, FederationCommand, Status};
use kit_cut::{cut_at, simulation_is_cut_in_two};
use kit_io::Sink;
use kit_oracle::{OracleEnd, need, simulate};
use kit_report::{lines_text, need_text, text};
use kit_rules::Federation;
use std::alloc::Global;

fn oracle_text(alloc: Global, federation: &Federation) -> Result<Vec<u8>, OracleEnd>
    ensures text { IfOk result
        (λ text. text.items ≡ text_of FederationCommand.Oracle federation.now) }
    ensures none { OnOk result (spender federation.now ≡ None) }
    ensures spent { IfSpent result (λ i. spender federation.now ≡ Some i) }
    ensures within { IfSpent result (λ i. i < length federation.now.federates) }
{
    let history = simulate(alloc, federation)?;
    let text = text(alloc, federation, &history)?;
    Ok(text)
}

fn check_text(alloc: Global, federation: &Federation) -> Result<Vec<u8>, OracleEnd>
    ensures text { IfOk result
        (λ text. text.items ≡ text_of FederationCommand.Check federation.now) }
    ensures none { OnOk result (spender federation.now ≡ None) }
    ensures spent { IfSpent result (λ i. spender federation.now ≡ Some i) }
    ensures within { IfSpent result (λ i. i < length federation.now.federates) }
{
    let needs = need(alloc, federation)?;
    let text = need_text(alloc, federation, needs.as_slice())?;
    Ok(text)
}

fn upto_text(alloc: Global, federation: &Federation, time: u64) -> Result<Vec<u8>, OracleEnd>
    ensures text { IfOk result
        (λ text. text.items ≡ text_of (FederationCommand.Upto time) federation.now) }
    ensures none { OnOk result (spender_by federation.now time ≡ None) }
    ensures spent { IfSpent result (λ i. spender_by federation.now time ≡ Some i) }
    ensures within { IfSpent result (λ i. i < length federation.now.federates) }
{
    federation.keeps_its_limits();
    simulation_is_cut_in_two();
    let (_cut, lines) = cut_at(alloc, federation, time)?;
    let text = lines_text(alloc, federation, &lines)?;
    Ok(text)
}

/// Tells how a simulation ended without a text.
pub(crate) fn tell_oracle_end<K: Sink>(
    alloc: Global,
    federation: &Federation,
    end: OracleEnd,
    sink: &mut K,
) -> Status
    requires { IfSpentAt end (λ i. i < length federation.now.federates) }
    ensures told { Told (OracleEndCauses federation.now end)
        (K.holds sink.old) (K.holds sink.new) result }
    ensures fault { result ≡ Status.WriteFault → Rose (K.faults sink.old) (K.faults sink.new) }
{
    match end {
        OracleEnd::SendsSpent { federate } => {
            let status = Status::SendsSpent { federate };
            tell_federate(alloc, "SendsSpent", federation, federate, status, sink)
        }
        OracleEnd::NoMemory => Status::NoMemory,
    }
}

fn tell_oracle<K: Sink>(alloc: Global, federation: &Federation, sink: &mut K) -> Status
    ensures told { Told (SimulationCauses FederationCommand.Oracle federation.now)
        (K.holds sink.old) (K.holds sink.new) result }
    ensures fault { result ≡ Status.WriteFault → Rose (K.faults sink.old) (K.faults sink.new) }
{
    match oracle_text(alloc, federation) {
        Ok(text) => tell(sink, &text, Status::Done),
        Err(end) => tell_oracle_end(alloc, federation, end, sink),
    }
}

fn tell_check<K: Sink>(alloc: Global, federation: &Federation, sink: &mut K) -> Status
    ensures told { Told (SimulationCauses FederationCommand.Check federation.now)
        (K.holds sink.old) (K.holds sink.new) result }
    ensures fault { result ≡ Status.WriteFault → Rose (K.faults sink.old) (K.faults sink.new) }
{
    match check_text(alloc, federation) {
        Ok(needs) => tell(sink, &needs, Status::Done),
        Err(end) => tell_oracle_end(alloc, federation, end, sink),
    }
}

fn tell_upto<K: Sink>(alloc: Global, federation: &Federation, time: u64, sink: &mut K) -> Status
    ensures told { Told (SimulationCauses (FederationCommand.Upto time) federation.now)
        (K.holds sink.old) (K.holds sink.new) result }
    ensures fault { result ≡ Status.WriteFault → Rose (K.faults sink.old) (K.faults sink.new) }
{
    match upto_text(alloc, federation, time) {
        Ok(text) => tell(sink, &text, Status::Done),
        Err(end) => tell_oracle_end(alloc, federation, end, sink),
    }
}

/// What a command does with a federation.
pub(crate) fn tell_federation<K: Sink>(
    alloc: Global,
    command: &FederationCommand,
    federation: &Federation,
    sink: &mut K,
) -> Ended
    ensures told { EndsWith (FederationCauses command.now federation.now)
        (IsFederationRun command.now federation.now) (K.holds sink.old) (K.holds sink.new) result }
    ensures fault { result.status ≡ Status.WriteFault
        → Rose (K.faults sink.old) (K.faults sink.new) }
{
    match command {
        FederationCommand::Oracle => Ended::empty(alloc, tell_oracle(alloc, federation, sink)),
        FederationCommand::Check => Ended::empty(alloc, tell_check(alloc, federation, sink)),
        FederationCommand::Replay(schedule) => tell_replay(alloc, federation, schedule, sink),
        FederationCommand::Upto(time) => {
            Ended::empty(alloc, tell_upto(alloc, federation, *time, sink))
        }
        FederationCommand::Save(time) => {
            Ended::empty(alloc, tell_save(alloc, federation, *time, sink))
        }
    }
}
