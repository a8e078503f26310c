//! What lowering keeps: each law is the contract of a function that does nothing.

ghost use Rattle.kit_regions.specs.Laws.{PlansMakeFederations, ReceiversOverlap, SameSimulation};
ghost use Rattle.kit_regions.specs.Laws.{MasksAreSubscribers, SameSpender, SameNeeds, SameText};

/// The federation of a plan keeps the limits of a federation, where no table becomes too long.
pub fn plans_make_federations()
    ensures { PlansMakeFederations }
{}

/// Who receives a message in it is another federate than the sender, with a subscription to the
/// update's group that overlaps its range.
pub fn receivers_overlap()
    ensures { ReceiversOverlap }
{}

/// Its simulation is that of the plan.
pub fn same_simulation()
    ensures { SameSimulation }
{}

/// The mask of an update has the federates with a subscription to its group that overlaps its
/// range, where subscriptions are of 16 federates at most.
pub fn masks_are_subscribers()
    ensures { MasksAreSubscribers }
{}

/// The federate that first takes number 16,385 in it is the one that does so in the simulation of
/// the plan.
pub fn same_spender()
    ensures { SameSpender }
{}

/// The need of each federate in it is that in the simulation of the plan.
pub fn same_needs()
    ensures { SameNeeds }
{}

/// The text of its simulation is that of the plan's, which prints updates by their names.
pub fn same_text()
    ensures { SameText }
{}
