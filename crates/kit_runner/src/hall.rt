//! The floor that all nodes of a run stand on, and their turns.
ghost use Rattle.std.specs.Prelude.{◌≡◌, None, Some};
ghost use Rattle.kit_node.specs.Nodes.{end_in};
ghost use Rattle.kit_node.specs.Seats.{IsSeatOf};
ghost use Rattle.kit_replay.specs.Stages.{shown};
ghost use Rattle.kit_runner.specs.Halls.{HasPlayed, run_on};

use crate::ends::{activity_of, is_bad, is_last};
use crate::{Gate, PassingGround};
use kit_batch::BatchQueue;
use kit_deal::{Activity, Deal, Shop};
use kit_floor::{FloorSeat, TableFloor};
use kit_ground::Ground;
use kit_lbts::{Lbts, LbtsEvent};
use kit_node::{Node, Turn};
use kit_rules::Federation;
use std::marker::{Brand, PhantomData};

/// A node with its seat.
#[derive(Drop)]
pub(crate) struct Player {
    // In a box, so that little is moved where it is dealt.
    pub(crate) node: Box<Node<BatchQueue>>,
    pub(crate) seat: FloorSeat<Lbts>,
    /// Whether the node has ended, or saw that the run is to stop.
    pub(crate) has_ended: bool,
}

/// The floor and the federation of a run. Each run picks them, once the floor is laid.
pub(crate) trait Naming {
    ghost use Rattle.std.specs.Prelude.{Option};
    ghost use Rattle.kit_runner.specs.Halls.{RunName};

    ghost run: { Option RunName };
}

impl Naming for Brand {
    ghost use Rattle.std.specs.Prelude.{None};

    ghost run = { None };
}

/// The nodes of a run are dealt.
pub(crate) struct Players<J> {
    of: PhantomData<J>,
}

impl<J: Naming> Deal for Players<J> {
    ghost use Rattle.kit_runner.specs.Halls.{FitsRun, number_in, numbers_of};

    type Item = Player;

    ghost number = { number_in };

    ghost all = { numbers_of J.run };

    ghost Fits = { FitsRun J.run };

    ghost has_ended = { λ x. x.has_ended };
}

/// Gives a node that goes on a turn, and sets the stop word where the turn ends it badly.
pub(crate) fn give_turn<H: Ground<Under = Lbts>>(
    node: &mut Node<BatchQueue>,
    federation: &Federation,
    standing: &mut H,
) -> Turn
    requires seat { IsSeatOf shown federation.now node.old (H.place standing.old) }
    requires goes_on { end_in node.old ≡ None }
    ensures came { H.came standing.old standing.new }
    ensures played { HasPlayed federation.now result node.old node.new
        (H.place standing.old) (H.place standing.new) }
{
    let turn = node.turn(federation, standing);
    if is_bad(turn) {
        standing.stop::<LbtsEvent>();
    }
    turn
}

/// The floor that all stand on.
#[derive(Drop)]
pub(crate) struct Hall<'a, J: Naming> {
    pub(crate) floor: &'a TableFloor<Lbts>,
    pub(crate) federation: &'a Federation,
    pub(crate) run: PhantomData<J>,
    ghost named: { J.run ≡ Some (run_on floor.now federation.now) },
}

impl<J: Naming> Shop<Players<J>> for Hall<'_, J> {
    fn work<G: Gate>(&self, gate: &mut G, item: Player) -> (Player, Activity) {
        let Player {
            node,
            seat,
            has_ended: _,
        } = item;
        let mut node = node;
        gate.pass(node.me());
        let mut standing = PassingGround::new(self.floor.stand(seat), &*gate);
        let turn = give_turn(&mut *node, self.federation, &mut standing);
        let seat = standing.leave().leave();
        let activity = activity_of(turn);
        let player = Player {
            node,
            seat,
            has_ended: is_last(activity),
        };
        (player, activity)
    }
}
