//! What a saved file holds is valid: the law is the contract of a function that does nothing.

ghost use Rattle.kit_restore.specs.Laws.{ReadCutsAreValid};

/// What the walk of a cut accepts is a cut from which the simulation can be resumed.
pub fn read_cuts_are_valid()
    ensures { ReadCutsAreValid }
{}
