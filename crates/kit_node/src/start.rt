//! The start.

ghost use Rattle.std.specs.Prelude.{◌≡◌, ◌<◌, [], length, true, false, None, OnOk, OnErr, IfOk};
ghost use Rattle.std.specs.Prelude.{IfErr, is_some};
ghost use Rattle.kit_node.specs.Granting.{IsRefusal, KeepsReport};
ghost use Rattle.kit_node.specs.Starting.{IsBegun, IsSpentAtStart};

use crate::{Node, NodeEnd};
use kit_fly::Reduction;
use kit_queue::Order;
use kit_rules::{Federation, Trigger};

impl<Q: Order + Drop, R: Reduction + Drop> Node<Q, R> {
    /// Runs the start's rules and makes the first request, if that was not done. It says whether it
    /// did. What is sent that is transported waits in the outbox.
    ///
    /// The seat's view follows with its next step that needs it, a collect or a contribution.
    pub(crate) fn start(&mut self, federation: &Federation) -> Result<bool, NodeEnd>
        requires me { self.old.me < length federation.now.federates }
        requires empty { self.old.course.request ≡ None → self.old.outbox.messages.items ≡ [] }
        ensures done { is_some self.old.course.request ≡ true
            → (result ≡ Ok false) × (self.new ≡ self.old) }
        ensures begun { self.old.course.request ≡ None
            → OnOk result (IsBegun federation.now self.old self.new) }
        ensures answer { self.old.course.request ≡ None → IfOk result (λ did. did ≡ true) }
        ensures spent { result ≡ Err NodeEnd.SendsSpent
            → (self.old.course.request ≡ None) × IsSpentAtStart federation.now self.old }
        ensures refused { OnErr result (KeepsReport self.old self.new) }
        ensures bad { IfErr result IsRefusal }
    {
        if self.course.request.is_some() {
            return Ok(false);
        }
        let made = &mut self.outbox.messages;
        self.course
            .run(federation, self.me, Trigger::Start, 0, 0, made)?;
        self.outbox.keep_transported(federation);
        self.course.stand_at(0, federation.end());
        Ok(true)
    }
}
