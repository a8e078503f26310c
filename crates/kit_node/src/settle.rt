//! The return of the buffers of messages that cannot be retracted any more.

ghost use Rattle.std.specs.Prelude.{◌≡◌, ◌≤◌, []};
ghost use Rattle.kit_lbts.specs.Promises.{bound_of};
ghost use Rattle.kit_lbts.specs.SeatLaws.{IsInWorld};
ghost use Rattle.kit_node.specs.Settling.{HasSettled};

use crate::Node;
use crate::steps::release;
use kit_fly::Reduction;
use kit_ground::Ground;
use kit_lbts::Lbts;
use kit_queue::Order;

impl<Q: Order + Drop, R: Reduction + Drop> Node<Q, R> {
    ghost use Rattle.kit_node.specs.Mirrors.{Mirrors, shows};

    /// Gives back the buffer of each entry that is timed below the known bound, and says whether
    /// there was one. What was received since the bound was learnt is not, so there is something to
    /// do only where the bound rose.
    pub(crate) fn settle<G: Ground<Under = Lbts>>(&mut self, ground: &mut G) -> bool
        requires world { IsInWorld (G.place ground.old) }
        requires mirrors { Mirrors (shows Q.entries R.scheme R.state) self.old
            (G.place ground.old) }
        ensures came { G.came ground.old ground.new }
        ensures world { IsInWorld (G.place ground.new) }
        ensures mirrors { Mirrors (shows Q.entries R.scheme R.state) self.new (G.place ground.new) }
        ensures settled { HasSettled (bound_of (G.place ground.old).client) result
            (G.place ground.old) (G.place ground.new) }
        ensures others { self.new ≡ record self.old { inbox = self.new.inbox } }
    {
        let bound = self.rounds.bound;
        if self.inbox.settled == bound {
            return false;
        }
        self.inbox.settled = bound;
        settle_all(&mut self.inbox.queue, ground, bound)
    }
}

/// Gives back the buffer of each entry that is timed below the bound, and says whether there was
/// one.
fn settle_all<Q: Order, G: Ground<Under = Lbts>>(queue: &mut Q, ground: &mut G, bound: u64) -> bool
    requires world { IsInWorld (G.place ground.old) }
    requires bound { bound ≤ bound_of (G.place ground.old).client }
    requires queue { Q.entries queue.old ≡ (G.place ground.old).client.queue }
    requires spent { (G.place ground.old).client.spent ≡ [] }
    ensures came { G.came ground.old ground.new }
    ensures world { IsInWorld (G.place ground.new) }
    ensures queue { Q.entries queue.new ≡ (G.place ground.new).client.queue }
    ensures settled { HasSettled bound result (G.place ground.old) (G.place ground.new) }
{
    let mut released = false;
    while let Some((sender, buffer)) = queue.settle(bound) {
        release(ground, sender, buffer);
        released = true;
    }
    released
}
