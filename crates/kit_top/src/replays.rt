//! What `replay` answers.

ghost use Rattle.std.specs.Prelude.{◌≡◌};
ghost use Rattle.kit_io.specs.Causes.{Rose};
ghost use Rattle.kit_replay.specs.Reports.{AreWholeParts};
ghost use Rattle.kit_top.specs.Causes.{CanTell, EndCauses, EndsWith, IsRunOf, ReplayCauses, Told};

use crate::bad_end::tell_bad_end;
use crate::writing::tell;
use crate::{Ended, Status};
use kit_io::Sink;
use kit_node::{End, NodeReport};
use kit_replay::replay;
use kit_rules::Federation;
use kit_schedule::Schedule;
use kit_telling::histories_text;
use std::alloc::{AllocError, Global};

/// The most rounds that a node takes part in.
const MOST_ROUNDS: u64 = (1 << 40) - 1;

/// Runs the nodes of a federation with the turns of a schedule, and tells how that ended.
pub(crate) fn tell_replay<K: Sink>(
    alloc: Global,
    federation: &Federation,
    schedule: &Schedule,
    sink: &mut K,
) -> Ended
    ensures told { EndsWith (ReplayCauses schedule.now federation.now)
        (IsRunOf federation.now schedule.now) (K.holds sink.old) (K.holds sink.new) result }
    ensures fault { result.status ≡ Status.WriteFault
        → Rose (K.faults sink.old) (K.faults sink.new) }
{
    let replayed = replay(alloc, federation, schedule.entries(), MOST_ROUNDS);
    let status = tell_replay_end(alloc, federation, replayed.end, &replayed.nodes, sink);
    Ended {
        status,
        nodes: replayed.nodes,
        floor: replayed.floor,
        account: None,
    }
}

/// Tells the end of a replay: where it is `Done`, by the text of the histories that the nodes
/// report.
fn tell_replay_end<K: Sink>(
    alloc: Global,
    federation: &Federation,
    end: End,
    nodes: &[NodeReport],
    sink: &mut K,
) -> Status
    requires { CanTell federation.now nodes.now end }
    ensures told { Told (EndCauses federation.now end)
        (K.holds sink.old) (K.holds sink.new) result }
    ensures fault { result ≡ Status.WriteFault → Rose (K.faults sink.old) (K.faults sink.new) }
{
    match end {
        End::Done => tell_histories(alloc, federation, nodes, sink),
        end => tell_bad_end(alloc, federation, end, sink),
    }
}

fn tell_histories<K: Sink>(
    alloc: Global,
    federation: &Federation,
    nodes: &[NodeReport],
    sink: &mut K,
) -> Status
    requires { AreWholeParts federation.now nodes.now }
    ensures told { Told (EndCauses federation.now End.Done)
        (K.holds sink.old) (K.holds sink.new) result }
    ensures fault { result ≡ Status.WriteFault → Rose (K.faults sink.old) (K.faults sink.new) }
{
    match histories_text(alloc, federation, nodes) {
        Ok(text) => tell(sink, &text, Status::Done),
        Err(AllocError) => Status::NoMemory,
    }
}
