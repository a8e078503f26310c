//! What is written is read again: each law is the contract of a function that does nothing.

ghost use Rattle.kit_save.specs.Laws.{OperandsComeBack, CondsComeBack, ActionsComeBack};
ghost use Rattle.kit_save.specs.Laws.{ComesBack, FederationsComeBack};
ghost use Rattle.kit_save.specs.CutLaws.{CutsComeBack};

/// The reader takes the value of each operand, condition and action for what was written, where it
/// keeps the limits of a federation and its numbers have 32 bits.
pub fn pieces_come_back()
    ensures operands { OperandsComeBack }
    ensures conds { CondsComeBack }
    ensures actions { ActionsComeBack }
{}

/// The reader takes the value of each federation for that federation, where its numbers have 32
/// bits; so it does where further keys stand beside.
pub fn federations_come_back()
    ensures alone { FederationsComeBack }
    ensures beside_others { ComesBack }
{}

/// The readers take the value of each federation with a valid cut for that federation and that
/// cut, where their numbers have 32 bits.
pub fn cuts_come_back()
    ensures { CutsComeBack }
{}
