//! What the commands with workers answer.

ghost use Rattle.std.specs.Prelude.{◌≡◌, ◌≤◌, IfErr, IfOk, OnErr, OnOk, drop, length};
ghost use Rattle.kit_io.specs.Causes.{Rose};
ghost use Rattle.kit_replay.specs.Reports.{AreWholeParts};
ghost use Rattle.kit_top.specs.Causes.{Run, Told};
ghost use Rattle.kit_top.specs.WorkerCommands.{ReadsInput, workers_of};
ghost use Rattle.kit_top.specs.WorkerRuns.{CanTellBy, EndsByWorkers, IsFederationFor, IsRunBy};
ghost use Rattle.kit_top.specs.WorkerRuns.{WorkerCauses, WorkerEndCauses, text_by};

use crate::bad_end::tell_bad_end;
use crate::history::histories_summary;
use crate::input::read_input;
use crate::writing::tell;
use crate::{Ended, Status, WorkerCommand};
use kit_floor::FloorAccount;
use kit_gen::federation_of;
use kit_ground::PlainFloor;
use kit_io::{Sink, Source};
use kit_lbts::Lbts;
use kit_node::{End, NodeReport};
use kit_rules::Federation;
use kit_runner::{Gate, lock_run, run};
use kit_telling::histories_text;
use std::alloc::{AllocError, Global};
use std::sync::Wait;
use std::thread::Threads;

/// What a run by workers left.
#[derive(Drop)]
struct WorkerRun {
    end: End,
    nodes: Vec<NodeReport>,
    floor: Option<PlainFloor<Lbts>>,
    account: Option<FloorAccount<Lbts>>,
}

/// The federation that a command runs; otherwise what is wrong is told, and its status is the
/// error.
fn federation_for<S: Source, K: Sink>(
    alloc: Global,
    command: &WorkerCommand,
    source: &mut S,
    sink: &mut K,
) -> Result<Federation, Status>
    ensures federation { IfOk result (IsFederationFor S.Source command.now source.old source.new) }
    ensures untouched { OnOk result (sink.new ≡ sink.old) }
    ensures told { IfErr result (Told (WorkerCauses S.Source command.now source.old source.new None)
        (K.holds sink.old) (K.holds sink.new)) }
    ensures fault { IfErr result (λ status. status ≡ Status.WriteFault
        → Rose (K.faults sink.old) (K.faults sink.new)) }
    ensures unread { (ReadsInput command.now → ⊥) → source.new ≡ source.old }
{
    match command {
        WorkerCommand::Lock(_) | WorkerCommand::Run(_) => read_input(alloc, source, sink),
        WorkerCommand::Trial { number, .. } => match federation_of(alloc, *number) {
            Ok(federation) => Ok(federation),
            Err(AllocError) => Err(Status::NoMemory),
        },
    }
}

/// Runs the nodes of a federation by as many workers as there are gates.
fn run_nodes<G: Gate + Send, R: Threads + Wait + Sync>(
    rt: &R,
    alloc: Global,
    command: &WorkerCommand,
    federation: &Federation,
    gates: &mut [G],
) -> WorkerRun
    requires some { 1 ≤ length gates.old }
    requires few { length gates.old ≤ 16 }
    ensures { IsRunBy command.now federation.now (record {
      end = result.end;
      reports = result.nodes.items;
      floor = result.floor;
      account = result.account;
    }) }
{
    match command {
        WorkerCommand::Lock(_) => {
            let locked = lock_run(rt, alloc, federation, gates);
            WorkerRun {
                end: locked.end,
                nodes: locked.nodes,
                floor: locked.floor,
                account: None,
            }
        }
        WorkerCommand::Run(_) | WorkerCommand::Trial { .. } => {
            let ran = run(rt, alloc, federation, gates);
            WorkerRun {
                end: ran.end,
                nodes: ran.nodes,
                floor: None,
                account: ran.account,
            }
        }
    }
}

/// What a command asks of a federation, from what the nodes report.
fn run_text(
    alloc: Global,
    command: &WorkerCommand,
    federation: &Federation,
    nodes: &[NodeReport],
) -> Result<Vec<u8>, AllocError>
    requires { AreWholeParts federation.now nodes.now }
    ensures { IfOk result (λ text. text.items ≡ text_by command.now federation.now) }
{
    match command {
        WorkerCommand::Lock(_) | WorkerCommand::Run(_) => histories_text(alloc, federation, nodes),
        WorkerCommand::Trial { number, .. } => {
            histories_summary(alloc, *number, federation, nodes)
        }
    }
}

/// Tells the end of a run by workers.
fn tell_run_end<K: Sink>(
    alloc: Global,
    command: &WorkerCommand,
    federation: &Federation,
    end: End,
    nodes: &[NodeReport],
    sink: &mut K,
) -> Status
    requires { CanTellBy federation.now nodes.now end }
    ensures told { Told (WorkerEndCauses command.now federation.now end)
        (K.holds sink.old) (K.holds sink.new) result }
    ensures fault { result ≡ Status.WriteFault → Rose (K.faults sink.old) (K.faults sink.new) }
{
    match end {
        End::Done => match run_text(alloc, command, federation, nodes) {
            Ok(text) => tell(sink, &text, Status::Done),
            Err(AllocError) => Status::NoMemory,
        },
        end => tell_bad_end(alloc, federation, end, sink),
    }
}

/// Answers a command by a run of its federation.
pub(crate) fn answer_by_workers<S: Source, K: Sink, G: Gate + Send, R: Threads + Wait + Sync>(
    rt: &R,
    alloc: Global,
    command: &WorkerCommand,
    source: &mut S,
    sink: &mut K,
    gates: &mut [G],
) -> Ended
    requires some { 1 ≤ workers_of command.now }
    requires few { workers_of command.now ≤ 16 }
    requires gates { 16 ≤ length gates.old }
    ensures ended { EndsByWorkers S.Source command.now source.old source.new
        (K.holds sink.old) (K.holds sink.new) result }
    ensures fault { result.status ≡ Status.WriteFault
        → Rose (K.faults sink.old) (K.faults sink.new) }
    ensures unread { (ReadsInput command.now → ⊥) → source.new ≡ source.old }
    ensures idle { drop (workers_of command.now) gates.new
        ≡ drop (workers_of command.now) gates.old }
{
    let federation = match federation_for(alloc, command, source, sink) {
        Ok(federation) => federation,
        Err(status) => return Ended::empty(alloc, status),
    };
    let workers = &mut gates[..usize::from(command.workers())];
    let left = run_nodes(rt, alloc, command, &federation, workers);
    let status = tell_run_end(alloc, command, &federation, left.end, &left.nodes, sink);
    Ended {
        status,
        nodes: left.nodes,
        floor: left.floor,
        account: left.account,
    }
}
