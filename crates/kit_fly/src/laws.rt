//! Laws of the definitions: each is the contract of a function that does nothing.

ghost use Rattle.kit_fly.specs.Laws.{RegistersAreFew, RegistersDiffer, WholeRoundsShow};

/// A federate of a butterfly takes in at most as many registers as there are stages, and one more;
/// so many looks are the most in one poll.
pub fn butterflies_are_small()
    ensures { RegistersAreFew }
{}

/// No register is taken in twice.
pub fn registers_differ()
    ensures { RegistersDiffer }
{}

/// Who has taken in all registers of a round shows all that it publishes of it, as the start of the
/// next one asks.
pub fn whole_rounds_show()
    ensures { WholeRoundsShow }
{}
