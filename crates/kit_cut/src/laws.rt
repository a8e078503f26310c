//! Laws of cuts: each is the contract of a function that does nothing.

ghost use Rattle.kit_cut.specs.Laws.{SimulationIsCutInTwo, CutsAreValid};

/// The simulation is what it does up to a time, and then what is resumed from the cut at that
/// time: its blocks are those timed then or earlier, followed by the resumed ones; its messages are
/// those sent up to then, followed by the resumed ones; and its closing variables are the resumed
/// ones.
pub fn simulation_is_cut_in_two()
    ensures { SimulationIsCutInTwo }
{}

/// The cut of the simulation at a time is valid, where no number 16,385 is taken up to it.
pub fn cuts_are_valid()
    ensures { CutsAreValid }
{}
