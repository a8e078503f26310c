ghost use Rattle.std.specs.Prelude.{◌≡◌, ◌<◌, ◌≤◌, length, All};
ghost use Rattle.kit_regions.specs.declared.region.Subscription.{Subscription};
ghost use Rattle.kit_regions.specs.declared.region.Update.{Update};
ghost use Rattle.kit_rules.specs.declared.table.Federate.{Federate};
ghost use Rattle.kit_rules.specs.Limits.{most_federates, most_rules};
ghost use Rattle.kit_regions.specs.Limits.{IsPlan, most_updates};

use crate::{Subscription, Update};
use kit_base::Items;
use kit_rules::{Federate, Name};
use std::marker::Model;

/// A plan: a federation with regions. Its groups have no members; what is sent goes to an update,
/// which is a region of a group, and who receives it follows from the subscriptions. So in its
/// rules a Send's group is the number of an update, and a Got's group is the number of a group.
///
/// It keeps the limits that [`is_plan`](crate::is_plan) tests, as [`Regioned::new`] lists them.
#[derive(Debug, Drop)]
pub struct Regioned {
    end: u64,
    buffers: u16,
    groups: Items<Name>,
    updates: Items<Update>,
    subscriptions: Items<Subscription>,
    federates: Items<Federate>,
}

impl Model for Regioned {
    ghost use Rattle.kit_regions.specs.Plan.{Plan};

    ghost Value = { Plan };

    ghost view = { λ plan. record {
      end = plan.end;
      buffers = plan.buffers;
      groups = plan.groups;
      updates = plan.updates;
      subscriptions = plan.subscriptions;
      federates = plan.federates;
    } };

    ghost use Rattle.kit_regions.specs.Limits.{IsPlan};

    ghost invariant = { λ plan. IsPlan (record {
      end = plan.end;
      buffers = plan.buffers;
      groups = plan.groups;
      updates = plan.updates;
      subscriptions = plan.subscriptions;
      federates = plan.federates;
    }) };
}

impl Regioned {
    /// The plan with these parts, which have to keep the limits.
    ///
    /// - What is said of a federation's end time, buffers, federates, variables, rules and names
    ///   holds here too, but that rules Send to updates.
    /// - There are 0 to 32 groups and 0 to 32 updates. The names of the groups differ from each
    ///   other, and so do those of the updates.
    /// - Updates and subscriptions are of groups that are there, and a group has at most 256
    ///   subscriptions, of federates that are there.
    /// - A range has a number: its `from` is below its `to`.
    pub fn new(
        end: u64,
        buffers: u16,
        groups: Items<Name>,
        updates: Items<Update>,
        subscriptions: Items<Subscription>,
        federates: Items<Federate>,
    ) -> Regioned
        requires { IsPlan (record {
          end = end;
          buffers = buffers;
          groups = groups;
          updates = updates;
          subscriptions = subscriptions;
          federates = federates;
        }) }
        ensures { result ≡ record {
          end = end;
          buffers = buffers;
          groups = groups;
          updates = updates;
          subscriptions = subscriptions;
          federates = federates;
        } }
    {
        Regioned {
            end,
            buffers,
            groups,
            updates,
            subscriptions,
            federates,
        }
    }

    /// The end time.
    pub fn end(&self) -> u64
        ensures value { result ≡ self.now.end }
        ensures sound { IsPlan self.now }
    {
        self.end
    }

    /// How many buffers each federate has.
    pub fn buffers(&self) -> u16
        ensures { result ≡ self.now.buffers }
    {
        self.buffers
    }

    /// The names of the groups, in the order of their numbers.
    pub fn groups(&self) -> &[Name]
        ensures { result.now ≡ self.now.groups }
    {
        self.groups.as_slice()
    }

    /// The updates, in the order of their numbers.
    pub fn updates(&self) -> &[Update]
        ensures items { result.now ≡ self.now.updates }
        ensures few { length self.now.updates ≤ most_updates }
        ensures groups { All (λ (u : Update). u.group < length self.now.groups) self.now.updates }
    {
        self.updates.as_slice()
    }

    /// The subscriptions, in the order of the plan.
    pub fn subscriptions(&self) -> &[Subscription]
        ensures items { result.now ≡ self.now.subscriptions }
        ensures few { All (λ (s : Subscription). s.federate < most_federates)
            self.now.subscriptions }
    {
        self.subscriptions.as_slice()
    }

    /// The federates, in the order of their numbers.
    pub fn federates(&self) -> &[Federate]
        ensures items { result.now ≡ self.now.federates }
        ensures few { length self.now.federates ≤ most_federates }
        ensures few_rules { All (λ (f : Federate). length f.rules ≤ most_rules) self.now.federates }
    {
        self.federates.as_slice()
    }
}
