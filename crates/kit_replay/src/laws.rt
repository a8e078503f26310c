//! Laws of what a replay comes to: each is the contract of a function that does nothing.

ghost use Rattle.kit_replay.specs.Parts.{WholePartsMerge};

/// The whole parts of a federation's federates, merged, are the sequential simulation, with its
/// text.
pub fn whole_parts_merge()
    ensures { WholePartsMerge }
{}
