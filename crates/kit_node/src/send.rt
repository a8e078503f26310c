//! The posting of the messages of the outbox.

ghost use Rattle.std.specs.Prelude.{◌≡◌, ◌<◌, ◌≤◌, ◌+◌, ◌^◌, ℕ, Bool, true, slice_set};
ghost use Rattle.std.specs.Prelude.{if◌then◌else◌, IfSome, IfNone, IfOk, IfErr, Option};
ghost use Rattle.std.specs.Int.{bit_at};
ghost use Rattle.kit_ground.specs.declared.place.Deed.TheVariants.{PostedTo};
ghost use Rattle.kit_ground.specs.Steps.{buffer_of, place_after};
ghost use Rattle.kit_rules.specs.Delivery.{has_bit, receivers_of};
ghost use Rattle.kit_rounds.specs.Ledgers.{last_run};
ghost use Rattle.kit_lbts.specs.Progress.{view_after};
ghost use Rattle.kit_lbts.specs.SeatLaws.{IsInWorld};
ghost use Rattle.kit_node.specs.Fields.{one_post_more};
ghost use Rattle.kit_node.specs.Looks.{HasFound, HasFoundNone, LooksAtCounts};
ghost use Rattle.kit_node.specs.Mirrors.{MirrorsOutbox};
ghost use Rattle.kit_node.specs.Sending.{HasPosted, HasSent, IsFirstOf, IsHeldUp, charged_place};
ghost use Rattle.kit_node.specs.Sending.{posted_place, posts_after};

use crate::outbox::Outbox;
use crate::steps::{charge, is_free, post, write};
use crate::{Node, NodeEnd};
use kit_base::Message;
use kit_fly::Reduction;
use kit_ground::Ground;
use kit_lbts::Lbts;
use kit_queue::Order;
use kit_rules::{Federation, is_member, receivers};

/// The first own buffer whose count is 0: nobody is to read it any more.
fn free_buffer<G: Ground<Under = Lbts>>(ground: &mut G) -> Option<u16>
    requires world { IsInWorld (G.place ground.old) }
    requires whole { (G.place ground.old).client.sending ≡ None }
    ensures came { G.came ground.old ground.new }
    ensures world { IsInWorld (G.place ground.new) }
    ensures looks { LooksAtCounts (G.place ground.old) (G.place ground.new) }
    ensures found { IfSome result (HasFound (G.place ground.old) (G.place ground.new)) }
    ensures none { IfNone result
        (HasFoundNone (G.place ground.old) (G.place ground.new).own.buffers (G.place ground.new)) }
{
    for buffer in 0..ground.buffers() {
        if is_free(ground, buffer) {
            return Some(buffer);
        }
    }
    None
}

/// Does nothing: it says that a message's value is of 32 bits.
fn has_small_value(message: &Message)
    ensures { message.now.value < 2 ^ 32 }
{
    // To read the value is to learn its range.
    let _value = message.value;
}

impl Outbox {
    /// Puts the first message in a free buffer and charges that for its receivers.
    fn put<G: Ground<Under = Lbts>>(
        &mut self,
        ground: &mut G,
        message: &Message,
        colour: u64,
        buffer: u16,
        mask: u16,
    )
        requires world { IsInWorld (G.place ground.old) }
        requires buffer { buffer < (G.place ground.old).own.buffers }
        requires free { (buffer_of (G.place ground.old).own.stock buffer).free ≡ true }
        requires first { IsFirstOf message.now (G.place ground.old).client }
        requires mask { let f = (G.place ground.old).client.federation in
            mask ≡ receivers_of f message.now.sender message.now.group }
        requires colour { colour ≡ last_run (G.place ground.old).client.contributions }
        requires small { colour < 2 ^ 40 }
        requires mirrors { MirrorsOutbox self.old (G.place ground.old).client }
        ensures came { G.came ground.old ground.new }
        ensures world { IsInWorld (G.place ground.new) }
        ensures place { G.place ground.new
            ≡ charged_place message.now colour buffer mask (G.place ground.old) }
        ensures put { self.new.put.items ≡ slice_set self.old.put.items buffer message.now.time }
        ensures messages { self.new.messages ≡ self.old.messages }
        ensures done { self.new.done ≡ self.old.done }
        ensures posts { self.new.posts ≡ self.old.posts }
    {
        has_small_value(message);
        write(ground, buffer, message, colour);
        charge(ground, buffer, mask);
        self.put[usize::from(buffer)] = message.time;
    }

    /// Posts a charged buffer to each receiver, in ascending order.
    fn post_to_all<G: Ground<Under = Lbts>>(
        &mut self,
        ground: &mut G,
        time: u64,
        buffer: u16,
        mask: u16,
    )
        requires world { IsInWorld (G.place ground.old) }
        requires buffer { buffer < (G.place ground.old).own.buffers }
        requires owed { (buffer_of (G.place ground.old).own.stock buffer).to_post ≡ mask }
        requires posts { self.old.posts.own + 16 < 2 ^ 32 }
        ensures came { G.came ground.old ground.new }
        ensures world { IsInWorld (G.place ground.new) }
        ensures place { G.place ground.new ≡ posted_place buffer mask (G.place ground.old) }
        ensures counted { self.new.posts
            ≡ posts_after time mask (G.place ground.old).own.federates self.old.posts }
        ensures messages { self.new.messages ≡ self.old.messages }
        ensures done { self.new.done ≡ self.old.done }
        ensures put { self.new.put ≡ self.old.put }
    {
        for to in 0..ground.federates() {
            self.post_to_member(ground, time, buffer, mask, to);
        }
    }

    /// Posts a charged buffer to a federate, if it is one of the receivers.
    fn post_to_member<G: Ground<Under = Lbts>>(
        &mut self,
        ground: &mut G,
        time: u64,
        buffer: u16,
        mask: u16,
        to: u8,
    )
        requires world { IsInWorld (G.place ground.old) }
        requires buffer { buffer < (G.place ground.old).own.buffers }
        requires to { to < (G.place ground.old).own.federates }
        requires owed { has_bit mask to ≡ true
            → bit_at (buffer_of (G.place ground.old).own.stock buffer).to_post to ≡ 1 }
        requires posts { self.old.posts.own + 1 < 2 ^ 32 }
        ensures came { G.came ground.old ground.new }
        ensures world { IsInWorld (G.place ground.new) }
        ensures place { G.place ground.new
            ≡ (if has_bit mask to then place_after view_after (PostedTo buffer to)
            (G.place ground.old) else G.place ground.old) }
        ensures counted { self.new.posts
            ≡ (if has_bit mask to then one_post_more time self.old.posts else self.old.posts) }
        ensures messages { self.new.messages ≡ self.old.messages }
        ensures done { self.new.done ≡ self.old.done }
        ensures put { self.new.put ≡ self.old.put }
    {
        if is_member(mask, to) {
            post(ground, buffer, to);
            self.posts.add(time);
        }
    }

    /// Posts the first message in a free buffer.
    fn post_first<G: Ground<Under = Lbts>>(
        &mut self,
        ground: &mut G,
        federation: &Federation,
        message: &Message,
        colour: u64,
        buffer: u16,
    )
        requires world { IsInWorld (G.place ground.old) }
        requires federation { (G.place ground.old).client.federation ≡ federation.now }
        requires buffer { buffer < (G.place ground.old).own.buffers }
        requires free { (buffer_of (G.place ground.old).own.stock buffer).free ≡ true }
        requires first { IsFirstOf message.now (G.place ground.old).client }
        requires colour { colour ≡ last_run (G.place ground.old).client.contributions }
        requires small { colour < 2 ^ 40 }
        requires mirrors { MirrorsOutbox self.old (G.place ground.old).client }
        ensures came { G.came ground.old ground.new }
        ensures world { IsInWorld (G.place ground.new) }
        ensures posted { HasPosted 1 (G.place ground.old) (G.place ground.new) }
        ensures mirrors { MirrorsOutbox self.new (G.place ground.new).client }
    {
        let mask = receivers(federation, message.sender, message.group);
        self.put(ground, message, colour, buffer, mask);
        self.post_to_all(ground, message.time, buffer, mask);
        self.pass();
    }

    /// Posts the messages in their order, as long as a buffer is free. It says whether one was
    /// posted, and which waits.
    fn post_all<G: Ground<Under = Lbts>>(
        &mut self,
        ground: &mut G,
        federation: &Federation,
        colour: u64,
    ) -> Sent
        requires world { IsInWorld (G.place ground.old) }
        requires federation { (G.place ground.old).client.federation ≡ federation.now }
        requires whole { (G.place ground.old).client.sending ≡ None }
        requires colour { colour ≡ last_run (G.place ground.old).client.contributions }
        requires small { colour < 2 ^ 40 }
        requires mirrors { MirrorsOutbox self.old (G.place ground.old).client }
        ensures came { G.came ground.old ground.new }
        ensures world { IsInWorld (G.place ground.new) }
        ensures sent { HasSent result.posted result.waits (G.place ground.old)
            (G.place ground.new) }
        ensures mirrors { MirrorsOutbox self.new (G.place ground.new).client }
    {
        let mut posted = false;
        while let Some(message) = self.first() {
            let Some(buffer) = free_buffer(ground) else {
                let waits = Some(message.number);
                return Sent { posted, waits };
            };
            self.post_first(ground, federation, &message, colour, buffer);
            posted = true;
        }
        Sent {
            posted,
            waits: None,
        }
    }
}

/// What became of the outbox.
#[derive(Clone, Copy, Debug)]
pub(crate) struct Sent {
    /// Whether a message was posted.
    pub(crate) posted: bool,
    /// The number of the message that waits for a buffer, if one does.
    pub(crate) waits: Option<u16>,
}

impl<Q: Order + Drop, R: Reduction + Drop> Node<Q, R> {
    ghost use Rattle.kit_node.specs.Mirrors.{Mirrors, shows};

    /// Posts the messages of the outbox in their order, as long as a buffer is free. It says
    /// whether one was posted.
    ///
    /// Where none is free the node ends, if none can become free before its time goes on.
    pub(crate) fn send<G: Ground<Under = Lbts>>(
        &mut self,
        federation: &Federation,
        ground: &mut G,
    ) -> Result<bool, NodeEnd>
        requires world { IsInWorld (G.place ground.old) }
        requires federation { (G.place ground.old).client.federation ≡ federation.now }
        requires mirrors { Mirrors (shows Q.entries R.scheme R.state) self.old
            (G.place ground.old) }
        ensures came { G.came ground.old ground.new }
        ensures world { IsInWorld (G.place ground.new) }
        ensures mirrors { Mirrors (shows Q.entries R.scheme R.state) self.new (G.place ground.new) }
        ensures others { self.new ≡ record self.old { outbox = self.new.outbox } }
        ensures sent { IfOk result (λ posted. (waits : Option ℕ)
            × HasSent posted waits (G.place ground.old) (G.place ground.new)
            × (IsHeldUp (G.place ground.new) → waits ≡ None)) }
        ensures held_up { IfErr result
            (λ end. (number : ℕ) × (posted : Bool) × (end ≡ NodeEnd.NoBuffer number)
            × HasSent posted (Some number) (G.place ground.old) (G.place ground.new)
            × IsHeldUp (G.place ground.new)) }
    {
        let colour = self.rounds.colour;
        let Sent { posted, waits } = self.outbox.post_all(ground, federation, colour);
        let Some(number) = waits else {
            return Ok(posted);
        };
        if self.outbox.is_held_up(self.course.now) {
            Err(NodeEnd::NoBuffer { number })
        } else {
            Ok(posted)
        }
    }
}
