//! Laws of moments at which a number is a bound on what is still to come.

ghost use Rattle.kit_parts.specs.Laws.{NobodySendsBelow, AllIsHeard, GrantsAgree, BoundsAreCuts};
ghost use Rattle.kit_parts.specs.Laws.{ListsAreSplit, BoundsCarry, WhatComesIsNew, WhatWaitsIsNew};
ghost use Rattle.kit_parts.specs.Laws.{NobodySendsToItself};

/// At a cut, all messages of the simulation that are timed below the bound were sent: nobody will
/// send below it.
pub fn nobody_sends_below()
    ensures { NobodySendsBelow }
{}

/// At a cut, what each federate received that is timed below the bound is all that there will be
/// for it.
pub fn all_is_heard()
    ensures { AllIsHeard }
{}

/// A grant that is due below a bound below which all is heard is the simulation's next block of the
/// federate, with the same deliveries in the same order.
pub fn grants_agree()
    ensures { GrantsAgree }
{}

/// Where what is in transit is timed a number or later, what waits is timed its sender's promise or
/// later, and each promise is that number or more, there is a cut at that number.
pub fn bounds_are_cuts()
    ensures { BoundsAreCuts }
{}

/// Where the lists say so in the order of sending, what one federate sent to another is split into
/// what was received, what is in transit and what waits.
pub fn lists_are_split()
    ensures { ListsAreSplit }
{}

/// A bound stays a bound from one moment to the next, where what comes into transit waited before
/// and no promise falls but by a receipt.
pub fn bounds_carry()
    ensures { BoundsCarry }
{}

/// What is in transit was sent, is for its receiver, and shares its sender and number with nothing
/// that was received.
pub fn what_comes_is_new()
    ensures { WhatComesIsNew }
{}

/// What waits was sent, is for its receiver, and shares its sender and number with nothing that was
/// received.
pub fn what_waits_is_new()
    ensures { WhatWaitsIsNew }
{}

/// A federate receives nothing from itself.
pub fn nobody_sends_to_itself()
    ensures { NobodySendsToItself }
{}
