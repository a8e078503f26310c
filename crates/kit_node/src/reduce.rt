//! The part in the rounds of the reduction, by which the bound (LBTS) is computed.

ghost use Rattle.std.specs.Prelude.{◌≡◌, ◌<◌, ◌≤◌, ◌+◌, ◌^◌, true, false, OnOk, OnErr, IfOk};
ghost use Rattle.std.specs.Prelude.{IfErr, length};
ghost use Rattle.kit_lbts.specs.LedgerLaws.{ready_place};
ghost use Rattle.kit_fly.specs.Rounds.{FollowsRound, SlotsShowRound};
ghost use Rattle.kit_lbts.specs.SeatLaws.{IsInWorld};

use crate::course::lookahead_of;
use crate::{Node, NodeEnd};
use kit_fly::{Poll, Reduction};
use kit_ground::Ground;
use kit_lbts::{Lbts, low_of, promise};
use kit_model::Share;
use kit_queue::Order;
use kit_rules::Federation;

impl<Q: Order + Drop, R: Reduction + Drop> Node<Q, R> {
    ghost use Rattle.kit_node.specs.Mirrors.{Mirrors, shows};
    ghost use Rattle.kit_node.specs.Reducing.{CanPromise, HasOpened, HasPolled, HasReduced};
    ghost use Rattle.kit_node.specs.Reducing.{HasSpentRounds, IsPastOpening, coloured};
    ghost use Rattle.kit_node.specs.Reducing.{promise_of_node, share_of_node};
    ghost use Rattle.kit_node.specs.Turns.{SameNode};

    /// Opens a round where none is under way and the bound is not beyond the end, and polls the
    /// round that is under way. It says whether it opened one, or a register showed the round.
    pub(crate) fn reduce<G: Ground<Under = Lbts>>(
        &mut self,
        federation: &Federation,
        ground: &mut G,
    ) -> Result<bool, NodeEnd>
        requires world { IsInWorld (G.place ground.old) }
        requires federation { (G.place ground.old).client.federation ≡ federation.now }
        requires mirrors { Mirrors (shows Q.entries R.scheme R.state) self.old
            (ready_place (G.place ground.old)) }
        ensures came { G.came ground.old ground.new }
        ensures world { IsInWorld (G.place ground.new) }
        ensures mirrors { OnOk result (Mirrors (shows Q.entries R.scheme R.state) self.new
            (G.place ground.new)) }
        ensures reduced { IfOk result (λ did. HasReduced did (G.place ground.old)
            (G.place ground.new)) }
        ensures same { SameNode self.old self.new }
        ensures spent { IfErr result (λ end. (end ≡ NodeEnd.RoundsSpent)
            × HasSpentRounds self.old.rounds.limit (G.place ground.old)) }
        ensures refused { OnErr result
            ((self.new ≡ self.old) × (G.place ground.new ≡ G.place ground.old)) }
    {
        let opened = self.open_round(federation, ground)?;
        let found = self.poll_round(ground);
        Ok(opened || found)
    }

    /// Contributes to the next round, where none is under way and the bound is not beyond the end.
    fn open_round<G: Ground<Under = Lbts>>(
        &mut self,
        federation: &Federation,
        ground: &mut G,
    ) -> Result<bool, NodeEnd>
        requires world { IsInWorld (G.place ground.old) }
        requires federation { (G.place ground.old).client.federation ≡ federation.now }
        requires mirrors { Mirrors (shows Q.entries R.scheme R.state) self.old
            (ready_place (G.place ground.old)) }
        ensures came { G.came ground.old ground.new }
        ensures world { IsInWorld (G.place ground.new) }
        ensures opened { IfOk result (λ did. did ≡ true
            → HasOpened (shows Q.entries R.scheme R.state) self.old self.new (G.place ground.old)
            (G.place ground.new)) }
        ensures none { IfOk result (λ did. did ≡ false
            → (self.new ≡ self.old) × (G.place ground.new ≡ G.place ground.old)
            × IsPastOpening self.old federation.now.end) }
        ensures spent { IfErr result (λ end. (end ≡ NodeEnd.RoundsSpent)
            × HasSpentRounds self.old.rounds.limit (G.place ground.old)) }
        ensures refused { OnErr result
            ((self.new ≡ self.old) × (G.place ground.new ≡ G.place ground.old)) }
    {
        if self.rounds.under_way || self.rounds.bound > federation.end() {
            return Ok(false);
        }
        if self.rounds.taken == self.rounds.limit {
            return Err(NodeEnd::RoundsSpent);
        }
        self.course.state.keeps_its_count();
        self.take_colour();
        let share = self.share(federation);
        let round = self.rounds.taken + 1;
        self.rounds.reduction.start(ground, round, share);
        self.rounds.taken = round;
        self.rounds.under_way = true;
        Ok(true)
    }

    /// Polls the round that is under way, if one is. It says whether a register showed the round.
    fn poll_round<G: Ground<Under = Lbts>>(&mut self, ground: &mut G) -> bool
        requires world { IsInWorld (G.place ground.old) }
        requires follows { self.old.rounds.under_way ≡ true
            → FollowsRound R.scheme (R.state self.old.rounds.reduction) (G.place ground.old) }
        requires shown { self.old.rounds.under_way ≡ true
            → SlotsShowRound R.scheme (R.state self.old.rounds.reduction) (G.place ground.old) }
        requires runs { self.old.rounds.run + 1 < 2 ^ 64 }
        ensures came { G.came ground.old ground.new }
        ensures world { IsInWorld (G.place ground.new) }
        ensures none { self.old.rounds.under_way ≡ false
            → (result ≡ false) × (self.new ≡ self.old) × (G.place ground.new ≡ G.place ground.old) }
        ensures polled { self.old.rounds.under_way ≡ true
            → HasPolled (shows Q.entries R.scheme R.state) result self.old self.new
            (G.place ground.old) (G.place ground.new) }
    {
        if !self.rounds.under_way {
            return false;
        }
        let before = self.rounds.reduction.taken();
        let answer = self.rounds.reduction.poll(ground);
        let found = self.rounds.reduction.taken() != before;
        match answer {
            Poll::Result(sum) => {
                self.rounds.close(sum);
                found
            }
            Poll::NotYet(_) => found,
        }
    }

    /// With its contribution to the first round of a run the federate takes the run's colour.
    fn take_colour(&mut self)
        requires posts { self.old.outbox.posts.older + self.old.outbox.posts.own < 2 ^ 32 }
        requires receipts { self.old.inbox.receipts.older + self.old.inbox.receipts.own < 2 ^ 32 }
        ensures { self.new ≡ coloured self.old }
    {
        if self.rounds.colour != self.rounds.run {
            self.rounds.colour = self.rounds.run;
            self.outbox.posts.turn();
            self.inbox.receipts.turn();
        }
    }

    /// What it contributes now, with the run's colour.
    fn share(&self, federation: &Federation) -> Share
        requires me { self.now.me < length federation.now.federates }
        requires course { CanPromise Q.entries federation.now self.now }
        ensures { result ≡ share_of_node Q.entries federation.now self.now }
    {
        let low = low_of(self.promised(federation), self.outbox.posts.least);
        Share {
            out: self.outbox.posts.older,
            inn: self.inbox.receipts.older,
            low: low as u32,
        }
    }

    /// What it promises now, between the parts of a turn.
    fn promised(&self, federation: &Federation) -> u64
        requires me { self.now.me < length federation.now.federates }
        requires course { CanPromise Q.entries federation.now self.now }
        ensures value { result ≡ promise_of_node Q.entries federation.now self.now }
        ensures small { result ≤ 100001 }
    {
        let end = federation.end();
        let lookahead = lookahead_of(federation, self.me);
        match self.course.request {
            Some(request) => {
                let due = request.due(self.inbox.queue.least());
                let waiting = !self.outbox.is_empty();
                promise(end, lookahead, self.course.now, due, waiting)
            }
            None => promise(end, lookahead, self.course.now, 0, true),
        }
    }
}
