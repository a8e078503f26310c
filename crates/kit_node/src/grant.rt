//! The grant.

ghost use Rattle.std.specs.Prelude.{◌≡◌, ◌<◌, ◌≤◌, ◌++◌, ℕ, [], ◌∷◌, length, take, drop, IfSome};
ghost use Rattle.std.specs.Prelude.{IfNone, OnOk, IfOk, IfErr};
ghost use Rattle.kit_rules.specs.Limits.{most_time};
ghost use Rattle.kit_rules.specs.Simulation.{after_deliveries};
ghost use Rattle.kit_lbts.specs.SeatLaws.{IsInWorld};
ghost use Rattle.kit_node.specs.Granting.{IsRefusal, behind_due, block_entries, front_due};

use crate::course::Course;
use crate::steps::show_time;
use crate::{Node, NodeEnd};
use kit_base::Message;
use kit_fly::Reduction;
use kit_ground::Ground;
use kit_lbts::{Lbts, may_grant};
use kit_model::{Journal, JournalEntry};
use kit_queue::Order;
use kit_rules::{Federation, Trigger};

/// Runs the rules of one message that is delivered, and keeps it among those that were.
fn deliver(
    federation: &Federation,
    me: u8,
    due: u64,
    message: Message,
    course: &mut Course,
    delivered: &mut Vec<Message>,
    made: &mut Vec<Message>,
) -> Result<(), NodeEnd>
    requires federate { me < length federation.now.federates }
    requires time { due ≤ federation.now.end }
    ensures state { OnOk result (let s = course.old.state in
        course.new ≡ record course.old
        { state = after_deliveries federation.now me due s (message ∷ []) }) }
    ensures delivered { OnOk result (delivered.new.items ≡ delivered.old.items ++ message ∷ []) }
    ensures made { OnOk result (made.new.items
        ≡ made.old.items ++ drop (length course.old.state.sends) course.new.state.sends) }
    ensures kept { OnOk result (take (length course.old.state.sends) course.new.state.sends
        ≡ course.old.state.sends) }
    ensures now { course.new.now ≡ course.old.now }
    ensures refused { IfErr result IsRefusal }
    ensures spent { result ≡ Err NodeEnd.SendsSpent
        → 16385 < (after_deliveries federation.now me due course.old.state (message ∷ [])).next }
{
    delivered.push(message)?;
    let group = message.group;
    course.run(
        federation,
        me,
        Trigger::Got { group },
        due,
        message.value,
        made,
    )?;
    Ok(())
}

/// Delivers all that is due, in timestamp order.
fn deliver_all<Q: Order>(
    federation: &Federation,
    me: u8,
    due: u64,
    course: &mut Course,
    queue: &mut Q,
    delivered: &mut Vec<Message>,
    made: &mut Vec<Message>,
) -> Result<(), NodeEnd>
    requires federate { me < length federation.now.federates }
    requires time { due ≤ federation.now.end }
    requires none { delivered.old.items ≡ [] }
    ensures state { OnOk result (course.new.state
        ≡ after_deliveries federation.now me due course.old.state
        (front_due due (Q.entries queue.old))) }
    ensures now { course.new.now ≡ course.old.now }
    ensures request { OnOk result (course.new.request ≡ course.old.request) }
    ensures delivered { OnOk result (delivered.new.items ≡ front_due due (Q.entries queue.old)) }
    ensures queue { OnOk result (Q.entries queue.new ≡ behind_due due (Q.entries queue.old)) }
    ensures made { OnOk result (made.new.items
        ≡ made.old.items ++ drop (length course.old.state.sends) course.new.state.sends) }
    ensures longer { OnOk result (length course.old.state.sends ≤ length course.new.state.sends) }
    ensures refused { IfErr result IsRefusal }
    ensures spent { result ≡ Err NodeEnd.SendsSpent
        → 16385 < (after_deliveries federation.now me due course.old.state
        (front_due due (Q.entries queue.old))).next }
{
    while let Some(entry) = queue.pop_due(due) {
        deliver(federation, me, due, entry.message, course, delivered, made)?;
    }
    Ok(())
}

/// Enters the deliveries of a grant, and then the grant.
fn enter(journal: &mut Journal, due: &[Message], granted: u64)
    requires spare { length due.now < journal.old.spare }
    requires time { granted ≤ most_time }
    ensures { journal.new.entries ≡ journal.old.entries ++ block_entries granted due.now }
{
    for message in due {
        journal.push(JournalEntry::Delivered {
            granted: granted as u32,
            message: *message,
        });
    }
    journal.push(JournalEntry::Granted { time: granted });
}

impl<Q: Order + Drop, R: Reduction + Drop> Node<Q, R> {
    ghost use Rattle.kit_node.specs.Mirrors.{Mirrors, shows};
    ghost use Rattle.kit_node.specs.Granting.{HasGranted, HasRunBlock, IsGrantable, KeepsReport};
    ghost use Rattle.kit_node.specs.Granting.{SpendsAtGrant, SpendsInBlock};
    ghost use Rattle.kit_node.specs.Mirrors.{IsReportOf};
    ghost use Rattle.kit_node.specs.Seats.{IsBelowEnd};
    ghost use Rattle.kit_node.specs.Settling.{IsSettled};
    ghost use Rattle.kit_node.specs.Turns.{SameNode};

    /// Makes one grant where nothing waits in the outbox and the due time is below the known bound.
    /// It says whether it did.
    pub(crate) fn grant<G: Ground<Under = Lbts>>(
        &mut self,
        federation: &Federation,
        ground: &mut G,
    ) -> Result<bool, NodeEnd>
        requires world { IsInWorld (G.place ground.old) }
        requires federation { (G.place ground.old).client.federation ≡ federation.now }
        requires mirrors { Mirrors (shows Q.entries R.scheme R.state) self.old
            (G.place ground.old) }
        requires settled { IsSettled (G.place ground.old).client }
        requires early { IsBelowEnd (G.place ground.old).client }
        ensures came { G.came ground.old ground.new }
        ensures world { IsInWorld (G.place ground.new) }
        ensures mirrors { OnOk result (Mirrors (shows Q.entries R.scheme R.state) self.new
            (G.place ground.new)) }
        ensures granted { IfOk result (λ did. HasGranted did (G.place ground.old)
            (G.place ground.new)) }
        ensures rounds { self.new.rounds ≡ self.old.rounds }
        ensures same { SameNode self.old self.new }
        ensures spent { result ≡ Err NodeEnd.SendsSpent → SpendsAtGrant (G.place ground.old) }
        ensures refused { IfErr result
            (λ end. IsRefusal end × (G.place ground.new ≡ G.place ground.old)
            × IsReportOf self.new (G.place ground.old)) }
    {
        let Some(due) = self.grantable() else {
            return Ok(false);
        };
        self.run_block(federation, due)?;
        self.course.state.keeps_its_count();
        show_time(ground, self.me, due);
        let end = federation.end();
        enter(&mut self.journal, &self.due, due);
        self.due.clear();
        self.course.stand_at(due, end);
        Ok(true)
    }

    /// The due time, if it may be granted.
    fn grantable(&self) -> Option<u64>
        requires { self.now.outbox.done ≤ length self.now.outbox.messages.items }
        ensures some { IfSome result (IsGrantable Q.entries self.now) }
        ensures none { IfNone result ((due : ℕ) → IsGrantable Q.entries self.now due → ⊥) }
    {
        if !self.outbox.is_empty() {
            return None;
        }
        let due = self.course.request?.due(self.inbox.queue.least());
        if may_grant(due, self.rounds.bound) {
            Some(due)
        } else {
            None
        }
    }

    /// Runs the rules of each message that is due, and then those of the grant, and makes room for
    /// their entries. What is sent goes into the outbox.
    fn run_block(&mut self, federation: &Federation, due: u64) -> Result<(), NodeEnd>
        requires me { self.old.me < length federation.now.federates }
        requires time { due ≤ federation.now.end }
        requires none { self.old.due.items ≡ [] }
        requires sent { self.old.outbox.messages.items ≡ [] }
        ensures run { OnOk result (HasRunBlock Q.entries federation.now due self.old self.new) }
        ensures spent { result ≡ Err NodeEnd.SendsSpent
            → SpendsInBlock federation.now self.old.me due self.old.course.state
            (front_due due (Q.entries self.old.inbox.queue)) }
        ensures kept { KeepsReport self.old self.new }
        ensures refused { IfErr result IsRefusal }
    {
        let me = self.me;
        deliver_all(
            federation,
            me,
            due,
            &mut self.course,
            &mut self.inbox.queue,
            &mut self.due,
            &mut self.outbox.messages,
        )?;
        let made = &mut self.outbox.messages;
        self.course
            .run(federation, me, Trigger::Grant, due, 0, made)?;
        self.outbox.keep_transported(federation);
        self.journal.reserve(self.due.len() + 1)?;
        Ok(())
    }
}
