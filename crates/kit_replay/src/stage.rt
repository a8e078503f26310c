ghost use Rattle.std.specs.Prelude.{◌≡◌, ◌^◌, ◌≤◌, ◌<◌, ◌++◌, ◌∷◌, [], ℕ, List, length};
ghost use Rattle.std.specs.Prelude.{vec_capacity, IfOk, None, Some};
ghost use Rattle.kit_ground.specs.Floors.{RulesHold};
ghost use Rattle.kit_lbts.specs.Agreement.{agreeing_rule};
ghost use Rattle.kit_node.specs.Ends.{end_by as node_end_by};
ghost use Rattle.kit_replay.specs.Stages.{AreReported, ClosesWith, GoesOn, IsNewFloor, IsStage};
ghost use Rattle.kit_replay.specs.Stages.{RunsTo, TurnsTo, end_by};

use crate::Replayed;
use kit_batch::BatchQueue;
use kit_ground::PlainFloor;
use kit_known::Known;
use kit_lbts::Lbts;
use kit_node::{End, Node, NodeReport, Turn, opening};
use kit_rules::Federation;
use std::alloc::{AllocError, Global};

/// A floor with its nodes.
#[derive(Drop)]
pub(crate) struct Stage {
    floor: PlainFloor<Lbts>,
    nodes: Vec<Node<BatchQueue>>,
    /// Room for the reports.
    reports: Vec<NodeReport>,
}

impl Stage {
    pub(crate) fn new(
        alloc: Global,
        federation: &Federation,
        rounds: u64,
    ) -> Result<Stage, AllocError>
        requires some { 1 ≤ rounds }
        requires limit { rounds < 2 ^ 40 }
        ensures { IfOk result (IsStage federation.now rounds [] None) }
    {
        let count = federation.count();
        let floor = floor_of(alloc, federation)?;
        let mut nodes = Vec::with_capacity(alloc, usize::from(count))?;
        for federate in 0..count {
            nodes.push(Node::new(alloc, federation, federate, rounds)?)?;
        }
        let reports = Vec::with_capacity(alloc, usize::from(count))?;
        Ok(Stage {
            floor,
            nodes,
            reports,
        })
    }

    /// Gives a turn to the federate of each entry, up to the first bad end, which it answers.
    pub(crate) fn run(&mut self, federation: &Federation, schedule: &[u8]) -> Option<End>
        requires { GoesOn federation.now self.old }
        ensures { (limit : ℕ) → IsStage federation.now limit [] None self.old
            → RunsTo federation.now limit schedule.now result self.new }
    {
        for federate in schedule {
            if let Some(end) = self.give_turn(federation, *federate) {
                return Some(end);
            }
        }
        None
    }

    /// Gives a federate a turn, if there is such a federate, and answers its bad end.
    fn give_turn(&mut self, federation: &Federation, federate: u8) -> Option<End>
        requires { GoesOn federation.now self.old }
        ensures { (limit : ℕ) (taken : List ℕ) → IsStage federation.now limit taken None self.old
            → TurnsTo federation.now limit (taken ++ federate ∷ []) result self.new }
    {
        let node = self.nodes.get_mut(usize::from(federate))?;
        self.floor.seat(federate);
        bad_end(federate, node.turn(federation, &mut self.floor))
    }

    /// The end where no node ended badly.
    pub(crate) fn closing_end(&self) -> End
        requires { length self.now.nodes.items ≤ 16 }
        ensures { ClosesWith self.now.nodes.items result }
    {
        for (federate, node) in self.nodes.iter().enumerate() {
            if !node.is_finished() {
                let federate = federate as u8;
                return End::Unfinished { federate };
            }
        }
        End::Done
    }

    pub(crate) fn close(self, end: End) -> Replayed
        requires room { length self.nodes.items ≤ vec_capacity self.reports }
        requires none { self.reports.items ≡ [] }
        ensures end { result.end ≡ end }
        ensures nodes { AreReported self.nodes.items result.nodes.items }
        ensures floor { result.floor ≡ Some self.floor }
        ensures ruled { RulesHold agreeing_rule self.floor }
    {
        let Stage {
            floor,
            nodes,
            mut reports,
        } = self;
        for node in nodes {
            // There is room for all of them.
            let _ = reports.push(node.report());
        }
        Replayed {
            end,
            nodes: reports,
            floor: Some(floor),
        }
    }
}

/// A new floor for the nodes of a federation.
pub(crate) fn floor_of(
    alloc: Global,
    federation: &Federation,
) -> Result<PlainFloor<Lbts>, AllocError>
    ensures { IfOk result (IsNewFloor federation.now) }
{
    let opening = Known::new(&opening(federation));
    PlainFloor::new(alloc, federation.count(), federation.buffers(), &opening)
}

/// The end of a run by this answer of a federate's turn, if the answer ends its node badly.
fn bad_end(federate: u8, turn: Turn) -> Option<End>
    ensures { result ≡ end_by federate (node_end_by turn) }
{
    match turn {
        Turn::Worked | Turn::Idle | Turn::Finished | Turn::Stopped => None,
        Turn::NoBuffer { number } => Some(End::NoBuffer { federate, number }),
        Turn::SendsSpent => Some(End::SendsSpent { federate }),
        Turn::RoundsSpent => Some(End::RoundsSpent { federate }),
        Turn::NoMemory => Some(End::NoMemory),
    }
}
