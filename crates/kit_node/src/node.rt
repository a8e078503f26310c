use crate::course::Course;
use crate::inbox::Inbox;
use crate::outbox::Outbox;
use crate::rounds::Rounds;
use crate::steps::is_stopped;
use crate::turns::{no_turns, steps_of, with_turn};
use crate::{NodeEnd, Turn};
use kit_base::Message;
use kit_fly::{Butterfly, Reduction};
use kit_ground::Ground;
use kit_known::Known;
use kit_lbts::Lbts;
use kit_model::Journal;
use kit_queue::Order;
use kit_rules::Federation;
use std::alloc::{AllocError, Global};
use std::collections::LinkedList;

/// The node of one federate. It runs the federate over a seat of a floor, a turn at a time.
///
/// `Q` is how it keeps the messages that are to be delivered, and `R` how the federates compute the
/// bound together.
#[derive(Drop)]
pub struct Node<Q, R = Butterfly> {
    pub(crate) me: u8,
    pub(crate) ended: Option<NodeEnd>,
    pub(crate) course: Course,
    pub(crate) journal: Journal,
    pub(crate) inbox: Inbox<Q>,
    pub(crate) outbox: Outbox,
    pub(crate) rounds: Rounds<R>,
    /// Messages that a grant delivers; empty between turns.
    pub(crate) due: Vec<Message>,
    pub(crate) turns: Known<LinkedList<u64>>,
}

/// What a node leaves.
#[derive(Drop)]
pub struct NodeReport {
    pub journal: Journal,
    pub vars: [u32; 8],
    pub bound: u64,
    pub rounds: u64,
    pub turns: Known<LinkedList<u64>>,
    /// Why the node takes no further steps, if it takes none.
    pub ended: Option<NodeEnd>,
}

impl<Q: Order + Drop, R: Reduction + Drop> Node<Q, R> {
    ghost use Rattle.std.specs.Prelude.{◌≡◌, ◌==◌, ◌<◌, ◌≤◌, ◌-◌, ◌^◌, [], ◌∷◌, ◌++◌, length};
    ghost use Rattle.std.specs.Prelude.{IfOk, OnOk, IfErr, IsTrue, ◌↔◌, Some, None};
    ghost use Rattle.kit_lbts.specs.LedgerLaws.{ready_place};
    ghost use Rattle.kit_lbts.specs.SeatLaws.{IsInWorld};
    ghost use Rattle.kit_node.specs.Ends.{answer_of, closing_answer, end_by};
    ghost use Rattle.kit_node.specs.Mirrors.{Mirrors, shows};
    ghost use Rattle.kit_node.specs.Nodes.{BeginsAs, IsReported, SameBesidesTurns, end_in};
    ghost use Rattle.kit_node.specs.Nodes.{journal_in, known_bound, logical_time, number_of};
    ghost use Rattle.kit_node.specs.Nodes.{rounds_in};
    ghost use Rattle.kit_node.specs.Receiving.{ReceivesInOrder};
    ghost use Rattle.kit_node.specs.Seats.{IsBelowEnd, IsSeatOf, IsWithinEnd};
    ghost use Rattle.kit_node.specs.Turns.{HasEndedBy, HasWorked, IsHeldUpBy, IsListed, IsPosted};
    ghost use Rattle.kit_node.specs.Turns.{SameNode, TurnIs};

    /// The node of a federate before its first turn, which takes part in so many rounds at most.
    ///
    /// It fails only for want of memory.
    pub fn new(
        alloc: Global,
        federation: &Federation,
        federate: u8,
        rounds: u64,
    ) -> Result<Node<Q, R>, AllocError>
        requires federate { federate < length federation.now.federates }
        requires some { 1 ≤ rounds }
        requires limit { rounds < 2 ^ 40 }
        ensures { IfOk result
            (BeginsAs (shows Q.entries R.scheme R.state) federation.now federate rounds) }
    {
        Ok(Node {
            me: federate,
            ended: None,
            course: Course::new(alloc, federation, federate),
            journal: Journal::empty(alloc),
            inbox: Inbox::new(alloc),
            outbox: Outbox::new(alloc, federation.buffers())?,
            rounds: Rounds::new(federation.count(), federate, rounds),
            due: Vec::new(alloc),
            turns: no_turns(),
        })
    }

    /// Gives the federate one turn.
    ///
    /// A node that has ended answers its end and makes no step. Otherwise it looks whether the run
    /// is to stop, runs the start's rules if they have not run, receives what came, posts what it
    /// can, takes part in a round, gives back buffers of messages that cannot be retracted any
    /// more, and makes a grant if its request is due below the known bound.
    pub fn turn<G: Ground<Under = Lbts>>(&mut self, federation: &Federation, ground: &mut G) -> Turn
        requires { IsSeatOf (shows Q.entries R.scheme R.state) federation.now self.old
            (G.place ground.old) }
        ensures came { G.came ground.old ground.new }
        ensures seat { IsSeatOf (shows Q.entries R.scheme R.state) federation.now self.new
            (G.place ground.new) }
        ensures turn { TurnIs self.old.ended result self.old self.new (G.place ground.old)
            (G.place ground.new) }
        ensures listed { IsListed self.old self.new (G.place ground.old) (G.place ground.new) }
        ensures order { ReceivesInOrder (G.place ground.old) (G.place ground.new) }
    {
        let before = steps_of(ground);
        let answer = self.answer(federation, ground);
        self.count_turn(before, ground);
        answer
    }

    /// Adds a turn to the list, with the steps that the seat made since it had made these.
    fn count_turn<G: Ground<Under = Lbts>>(&mut self, before: Known<u64>, ground: &G)
        ensures turns { self.new.turns.value
            ≡ self.old.turns.value ++ ((G.place ground.now).own.steps - before.value) ∷ [] }
        ensures others { SameBesidesTurns self.old self.new }
    {
        let turns = std::mem::replace(&mut self.turns, no_turns());
        self.turns = with_turn(turns, before, steps_of(ground));
    }

    fn answer<G: Ground<Under = Lbts>>(&mut self, federation: &Federation, ground: &mut G) -> Turn
        requires { IsSeatOf (shows Q.entries R.scheme R.state) federation.now self.old
            (G.place ground.old) }
        ensures came { G.came ground.old ground.new }
        ensures seat { IsSeatOf (shows Q.entries R.scheme R.state) federation.now self.new
            (G.place ground.new) }
        ensures turn { TurnIs self.old.ended result self.old self.new (G.place ground.old)
            (G.place ground.new) }
        ensures turns { self.new.turns ≡ self.old.turns }
        ensures order { ReceivesInOrder (G.place ground.old) (G.place ground.new) }
    {
        if let Some(end) = self.ended {
            return end.turn();
        }
        if is_stopped(ground) {
            return Turn::Stopped;
        }
        match self.work(federation, ground) {
            Ok(busy) => self.close_turn(federation, busy),
            Err(end) => self.end_with(end),
        }
    }

    fn end_with(&mut self, end: NodeEnd) -> Turn
        ensures answer { result ≡ answer_of end }
        ensures ended { self.new ≡ record self.old { ended = Some end } }
    {
        self.ended = Some(end);
        end.turn()
    }

    /// The answer of a turn that went through all of its parts.
    fn close_turn(&mut self, federation: &Federation, busy: bool) -> Turn
        requires { self.old.ended ≡ None }
        ensures answer { result ≡ closing_answer (self.old.course.now == federation.now.end) busy }
        ensures ended { self.new ≡ record self.old { ended = end_by result } }
    {
        if self.course.now == federation.end() {
            self.end_with(NodeEnd::Finished)
        } else if busy {
            Turn::Worked
        } else {
            Turn::Idle
        }
    }

    /// The parts of a turn after the look at the stop word, in their order. It says whether
    /// anything was done.
    fn work<G: Ground<Under = Lbts>>(
        &mut self,
        federation: &Federation,
        ground: &mut G,
    ) -> Result<bool, NodeEnd>
        requires world { IsInWorld (G.place ground.old) }
        requires federation { (G.place ground.old).client.federation ≡ federation.now }
        requires mirrors { Mirrors (shows Q.entries R.scheme R.state) self.old
            (G.place ground.old) }
        requires early { IsBelowEnd (G.place ground.old).client }
        requires within { IsWithinEnd (G.place ground.old).client }
        ensures came { G.came ground.old ground.new }
        ensures world { IsInWorld (G.place ground.new) }
        ensures federation { (G.place ground.new).client.federation ≡ federation.now }
        ensures worked { IfOk result (λ busy. HasWorked busy (G.place ground.old)
            (G.place ground.new)) }
        ensures mirrors { OnOk result (Mirrors (shows Q.entries R.scheme R.state) self.new
            (G.place ground.new)) }
        ensures ends { IfErr result (λ end. HasEndedBy end self.new (G.place ground.old)
            (G.place ground.new)) }
        ensures same { SameNode self.old self.new }
        ensures order { ReceivesInOrder (G.place ground.old) (G.place ground.new) }
    {
        let started = self.start(federation)?;
        let received = self.receive(ground)?;
        let posted = self.post_waiting(federation, ground)?;
        let reduced = self.reduce(federation, ground)?;
        let released = self.settle(ground);
        let granted = self.grant(federation, ground)?;
        Ok(started | received | posted | reduced | released | granted)
    }

    /// Posts what waits in the outbox, where something does. It says whether a message was posted.
    fn post_waiting<G: Ground<Under = Lbts>>(
        &mut self,
        federation: &Federation,
        ground: &mut G,
    ) -> Result<bool, NodeEnd>
        requires world { IsInWorld (G.place ground.old) }
        requires federation { (G.place ground.old).client.federation ≡ federation.now }
        requires mirrors { Mirrors (shows Q.entries R.scheme R.state) self.old
            (ready_place (G.place ground.old)) }
        requires waits { (G.place ground.old).client.outbox
            ≡ (ready_place (G.place ground.old)).client.outbox }
        ensures came { G.came ground.old ground.new }
        ensures world { IsInWorld (G.place ground.new) }
        ensures mirrors { Mirrors (shows Q.entries R.scheme R.state) self.new
            (ready_place (G.place ground.new)) }
        ensures others { self.new ≡ record self.old { outbox = self.new.outbox } }
        ensures sent { IfOk result (λ posted. IsPosted posted (G.place ground.old)
            (G.place ground.new)) }
        ensures held_up { IfErr result
            (λ end. IsHeldUpBy end (G.place ground.old) (G.place ground.new)) }
    {
        if self.outbox.is_empty() {
            return Ok(false);
        }
        self.send(federation, ground)
    }

    /// The number of its federate.
    pub fn me(&self) -> u8
        ensures { result ≡ number_of self.now }
    {
        self.me
    }

    /// The federate's logical time: its last grant, or 0.
    pub fn now(&self) -> u64
        ensures { result ≡ logical_time self.now }
    {
        self.course.now
    }

    /// The bound (LBTS) of the last run of the reduction that ended, or 0.
    pub fn bound(&self) -> u64
        ensures { result ≡ known_bound self.now }
    {
        self.rounds.bound
    }

    /// How many rounds it took part in.
    pub fn rounds(&self) -> u64
        ensures { result ≡ rounds_in self.now }
    {
        self.rounds.taken
    }

    /// What happened to the federate.
    pub fn journal(&self) -> &Journal
        ensures { result.now ≡ journal_in self.now }
    {
        &self.journal
    }

    /// Why it takes no further steps, if it takes none.
    pub fn ended(&self) -> Option<NodeEnd>
        ensures { result ≡ end_in self.now }
    {
        self.ended
    }

    /// Whether the end time was granted.
    pub fn is_finished(&self) -> bool
        ensures { IsTrue result ↔ (end_in self.now ≡ Some NodeEnd.Finished) }
    {
        self.ended == Some(NodeEnd::Finished)
    }

    /// What the node leaves.
    pub fn report(self) -> NodeReport
        ensures { IsReported self result }
    {
        let Node {
            me: _,
            ended,
            course,
            journal,
            inbox: _,
            outbox: _,
            rounds,
            due: _,
            turns,
        } = self;
        NodeReport {
            journal,
            vars: course.state.vars(),
            bound: rounds.bound,
            rounds: rounds.taken,
            turns,
            ended,
        }
    }
}
