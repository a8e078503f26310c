//! A plain floor with the nodes of a run, and their turns.
ghost use Rattle.std.specs.Prelude.{◌≡◌, ◌≤◌, [], length, map, true, vec_capacity};
ghost use Rattle.std.specs.Prelude.{IfOk, IsTrue, Some};
ghost use Rattle.kit_ground.specs.Floors.{RulesHold};
ghost use Rattle.kit_lbts.specs.Agreement.{agreeing_rule};
ghost use Rattle.kit_deal.specs.Dealings.{is_last_turn};
ghost use Rattle.kit_replay.specs.Stages.{AreReported, IsNewFloor};
ghost use Rattle.kit_runner.specs.Ends.{EndsWith};
ghost use Rattle.kit_runner.specs.LockStages.{AllHaveEnded, AreNumbered, HasEnded, IsStage};
ghost use Rattle.kit_runner.specs.LockStages.{StaysEnded, end_of, node_of};

use crate::Locked;
use crate::ends::{activity_of, end_with, is_last};
use crate::hall::give_turn;
use crate::runs::MOST_ROUNDS;
use kit_batch::BatchQueue;
use kit_deal::Activity;
use kit_ground::PlainFloor;
use kit_known::Known;
use kit_lbts::Lbts;
use kit_node::{End, Node, NodeReport, opening};
use kit_rules::Federation;
use std::alloc::{AllocError, Global};
use std::sync::Wait;

/// A node of a run.
#[derive(Drop)]
pub(crate) struct Member {
    pub(crate) node: Node<BatchQueue>,
    /// Whether the node has ended, or saw that the run is to stop.
    pub(crate) has_ended: bool,
}

/// A plain floor with the nodes of a run, in the order of their federates.
#[derive(Drop)]
pub(crate) struct Stage {
    pub(crate) floor: PlainFloor<Lbts>,
    pub(crate) members: Vec<Member>,
    /// Room for the reports.
    pub(crate) reports: Vec<NodeReport>,
}

impl Stage {
    pub(crate) fn new(alloc: Global, federation: &Federation) -> Result<Stage, AllocError>
        ensures { IfOk result (IsStage federation.now) }
    {
        let count = federation.count();
        let floor = floor_of(alloc, federation)?;
        let mut members = Vec::with_capacity(alloc, usize::from(count))?;
        for federate in 0..count {
            let node = Node::new(alloc, federation, federate, MOST_ROUNDS)?;
            members.push(Member {
                node,
                has_ended: false,
            })?;
        }
        let reports = Vec::with_capacity(alloc, usize::from(count))?;
        Ok(Stage {
            floor,
            members,
            reports,
        })
    }

    /// Gives a federate a turn, where its node goes on, and stops the run where that ends the node
    /// badly.
    pub(crate) fn give_turn(&mut self, federation: &Federation, federate: u8) -> Activity
        requires { IsStage federation.now self.old }
        ensures stage { IsStage federation.now self.new }
        ensures ended { is_last_turn result ≡ true → HasEnded self.new federate }
        ensures stays { StaysEnded self.old self.new }
    {
        let Some(member) = self.members.get_mut(usize::from(federate)) else {
            return Activity::Ended;
        };
        if member.has_ended {
            return Activity::Ended;
        }
        self.floor.seat(federate);
        let turn = give_turn(&mut member.node, federation, &mut self.floor);
        let activity = activity_of(turn);
        member.has_ended = is_last(activity);
        activity
    }

    /// Gives a turn to each node that goes on, in the order of the federates, and says whether all
    /// have ended then.
    fn give_round(&mut self, federation: &Federation) -> bool
        requires { IsStage federation.now self.old }
        ensures stage { IsStage federation.now self.new }
        ensures ended { IsTrue result → AllHaveEnded self.new }
    {
        let mut have_ended = true;
        for federate in 0..federation.count() {
            if !is_last(self.give_turn(federation, federate)) {
                have_ended = false;
            }
        }
        have_ended
    }

    /// Gives turns to the nodes that go on until all have ended.
    pub(crate) fn finish(&mut self, rt: &impl Wait, federation: &Federation)
        requires { IsStage federation.now self.old }
        ensures stage { IsStage federation.now self.new }
        ensures ended { AllHaveEnded self.new }
    {
        for _ in rt.forever() {
            if self.give_round(federation) {
                return;
            }
        }
        unreachable!()
    }

    /// Takes the reports of all nodes.
    pub(crate) fn close(self) -> Locked
        requires numbers { AreNumbered self.members.items }
        requires few { length self.members.items ≤ 16 }
        requires room { length self.members.items ≤ vec_capacity self.reports }
        requires none { self.reports.items ≡ [] }
        ensures end { EndsWith (map end_of self.members.items) result.end }
        ensures nodes { AreReported (map node_of self.members.items) result.nodes.items }
        ensures floor { result.floor ≡ Some self.floor }
        ensures ruled { RulesHold agreeing_rule self.floor }
    {
        let Stage {
            floor,
            members,
            mut reports,
        } = self;
        floor.ruled();
        let mut end = End::Done;
        for member in members {
            let Member { node, has_ended: _ } = member;
            end = end_with(end, node.me(), node.ended());
            // There is room for all of them.
            let _ = reports.push(node.report());
        }
        Locked {
            end,
            nodes: reports,
            floor: Some(floor),
        }
    }
}

/// A new floor for the nodes of a federation.
fn floor_of(alloc: Global, federation: &Federation) -> Result<PlainFloor<Lbts>, AllocError>
    ensures { IfOk result (IsNewFloor federation.now) }
{
    let opening = Known::new(&opening(federation));
    PlainFloor::new(alloc, federation.count(), federation.buffers(), &opening)
}
