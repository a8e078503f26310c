//! What lookahead means for what is sent, when requests are due, and what names are: each law is
//! the contract of a function that does nothing.

ghost use Rattle.kit_rules.specs.Laws.{DuesByTheLeast, LookaheadsArePositive, SendsKeepLookahead};
ghost use Rattle.kit_rules.specs.Laws.{OnlyRegulatingSend};
ghost use Rattle.kit_rules.specs.Names.{NamesAreTested};

/// The effective lookahead of each federate is at least 1: its lookahead, or one more than the end
/// time where it is not regulating.
pub fn lookaheads_are_positive()
    ensures { LookaheadsArePositive }
{}

/// What a federate sends, Retractions among it, is timed no sooner than its time and its effective
/// lookahead.
pub fn sends_keep_lookahead()
    ensures { SendsKeepLookahead }
{}

/// A federate that is not regulating sends nothing, and so takes nothing back.
pub fn only_regulating_send()
    ensures { OnlyRegulatingSend }
{}

/// When a request is due depends on the least time of the pending messages alone.
pub fn dues_by_the_least()
    ensures { DuesByTheLeast }
{}

/// Bytes pass the test of names exactly where they have the form of a name.
pub fn names_are_tested()
    ensures { NamesAreTested }
{}
