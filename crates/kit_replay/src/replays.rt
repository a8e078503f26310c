ghost use Rattle.std.specs.Prelude.{◌^◌, ◌≤◌, ◌<◌};
ghost use Rattle.kit_replay.specs.Replays.{IsReplayed};

use crate::stage::Stage;
use kit_ground::PlainFloor;
use kit_lbts::Lbts;
use kit_node::{End, NodeReport};
use kit_rules::Federation;
use std::alloc::Global;

/// What a replay left.
#[derive(Drop)]
pub struct Replayed {
    pub end: End,
    /// The reports of the nodes, in the order of the federates.
    pub nodes: Vec<NodeReport>,
    /// The floor at the end.
    pub floor: Option<PlainFloor<Lbts>>,
}

/// Runs the nodes of a federation over one plain floor. Each entry of the schedule gives a turn to
/// that federate; one that names no federate does nothing.
pub fn replay(alloc: Global, federation: &Federation, schedule: &[u8], rounds: u64) -> Replayed
    requires some { 1 ≤ rounds }
    requires limit { rounds < 2 ^ 40 }
    ensures { IsReplayed federation.now schedule.now rounds
        result.end result.nodes.items result.floor }
{
    let Ok(mut stage) = Stage::new(alloc, federation, rounds) else {
        return Replayed {
            end: End::NoMemory,
            nodes: Vec::new(alloc),
            floor: None,
        };
    };
    let end = match stage.run(federation, schedule) {
        Some(end) => end,
        None => stage.closing_end(),
    };
    stage.close(end)
}
