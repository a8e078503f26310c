//! Laws of whole runs of all federates, in any order of their steps.

ghost use Rattle.kit_parts.specs.Flows.{FlowsKeepBounds, FlowsAgree, FlowsAreLawful, EndsAgree};
ghost use Rattle.kit_parts.specs.Flows.{EndsMakeTheText};

/// In a run of all federates, in any order of their steps, a bound stays a bound.
pub fn flows_keep_bounds()
    ensures { FlowsKeepBounds }
{}

/// All that a federate does in a run of all federates is the beginning of its part.
pub fn flows_agree()
    ensures { FlowsAgree }
{}

/// What a federate receives in a run of all federates after a grant is timed later.
pub fn flows_are_lawful()
    ensures { FlowsAreLawful }
{}

/// A federate that was granted the end time in a run of all federates has made its whole part.
pub fn ends_agree()
    ensures { EndsAgree }
{}

/// Once each federate was granted the end time, the merge of what they did and the variables that
/// this left make the text of the simulation.
pub fn ends_make_the_text()
    ensures { EndsMakeTheText }
{}
