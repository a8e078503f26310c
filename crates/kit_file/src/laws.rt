//! Laws of the walk: each is the contract of a function that does nothing.

ghost use Rattle.kit_file.specs.Laws.{KeysMean, PlansMean, OthersHaveNone, SameFaults};
ghost use Rattle.kit_file.specs.Ranges.{NumbersAreTaken, ListsAreTaken, NamesAreTaken};

/// A file that is accepted means what its keys say: version 1 to 3, the end time under `end`, the
/// size of the pools under `buffers`, and for each member of `federates` a federate, with the
/// lookahead under `lookahead`, or none where its version knows `regulating` and that says false.
pub fn keys_mean()
    ensures { KeysMean }
{}

/// A file that has a plan is of version 3, and its federation is what the plan is lowered to. One
/// that is accepted and of version 1 or 2 has no plan. What one walk refuses the other refuses
/// too, with the same fault.
pub fn plans_mean()
    ensures lowered { PlansMean }
    ensures none { OthersHaveNone }
    ensures faults { SameFaults }
{}

/// No place refuses what is within its limit: each number, the length of each list, and each text
/// of the form of a name that no name before it repeats.
pub fn places_take_their_range()
    ensures numbers { NumbersAreTaken }
    ensures lists { ListsAreTaken }
    ensures names { NamesAreTaken }
{}
