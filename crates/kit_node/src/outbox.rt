//! The messages that a federate is still to post, and what it put in its buffers.

ghost use Rattle.std.specs.Prelude.{◌≡◌, ◌+◌, ◌<◌, ◌≤◌, [], ◌∷◌, drop, filter, length, replicate};
ghost use Rattle.std.specs.Prelude.{All, IfOk, IfSome, IfNone, IsTrue, ◌↔◌};
ghost use Rattle.kit_rules.specs.Delivery.{is_transported};
ghost use Rattle.kit_node.specs.Fields.{no_posts, waiting_in};

use crate::posts::Posts;
use kit_base::Message;
use kit_rules::{Federation, transported};
use std::alloc::{AllocError, Global};

/// The transported messages that are still to be posted, in the order of their numbers.
#[derive(Drop)]
pub(crate) struct Outbox {
    /// All that came with the last start or grant; it is emptied when the last is posted.
    pub(crate) messages: Vec<Message>,
    /// How many of them are posted.
    pub(crate) done: usize,
    /// For each own buffer the time of the message that was last put in it.
    pub(crate) put: Vec<u64>,
    pub(crate) posts: Posts,
}

impl Outbox {
    pub(crate) fn new(alloc: Global, buffers: u16) -> Result<Outbox, AllocError>
        ensures messages { IfOk result (λ o. o.messages.items ≡ []) }
        ensures done { IfOk result (λ o. o.done ≡ 0) }
        ensures put { IfOk result (λ o. o.put.items ≡ replicate buffers 0) }
        ensures posts { IfOk result (λ o. o.posts ≡ no_posts) }
    {
        let mut put = Vec::new(alloc);
        put.resize(usize::from(buffers), 0)?;
        Ok(Outbox {
            messages: Vec::new(alloc),
            done: 0,
            put,
            posts: Posts::none(),
        })
    }

    /// The message that is to be posted next.
    pub(crate) fn first(&self) -> Option<Message>
        ensures some { IfSome result (λ m. waiting_in self.now
            ≡ m ∷ drop (self.now.done + 1) self.now.messages.items) }
        ensures none { IfNone result (waiting_in self.now ≡ []) }
        ensures inside { IfSome result (λ _. self.now.done < length self.now.messages.items) }
    {
        self.messages.get(self.done).copied()
    }

    pub(crate) fn is_empty(&self) -> bool
        requires { self.now.done ≤ length self.now.messages.items }
        ensures { IsTrue result ↔ (waiting_in self.now ≡ []) }
    {
        self.done == self.messages.len()
    }

    /// Drops what is not transported of the messages that were just made.
    pub(crate) fn keep_transported(&mut self, federation: &Federation)
        ensures messages { self.new.messages.items
            ≡ filter (is_transported federation.now) self.old.messages.items }
        ensures done { self.new.done ≡ self.old.done }
        ensures put { self.new.put ≡ self.old.put }
        ensures posts { self.new.posts ≡ self.old.posts }
    {
        self.messages
            .retain(|message| transported(federation, message));
    }

    /// The first message was posted to all of its receivers.
    pub(crate) fn pass(&mut self)
        requires { self.old.done < length self.old.messages.items }
        ensures waiting { waiting_in self.new ≡ drop 1 (waiting_in self.old) }
        ensures done { self.new.done ≤ length self.new.messages.items }
        ensures emptied { waiting_in self.new ≡ [] → self.new.messages.items ≡ [] }
        ensures put { self.new.put ≡ self.old.put }
        ensures posts { self.new.posts ≡ self.old.posts }
    {
        self.done += 1;
        if self.is_empty() {
            self.messages.clear();
            self.done = 0;
        }
    }

    /// Whether each buffer holds a message timed after `now`.
    pub(crate) fn is_held_up(&self, now: u64) -> bool
        ensures { IsTrue result ↔ All (λ t. now < t) self.now.put.items }
    {
        self.put.iter().all(|time| *time > now)
    }
}
