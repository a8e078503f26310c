//! Laws of a table with seats: each is the contract of a function that does nothing.

ghost use Rattle.kit_pool.specs.Laws.{StepsAreAllowed, StoresAreAllowed, LooksAreAllowed};
ghost use Rattle.kit_pool.specs.Laws.{ZerosAreAllowed};
ghost use Rattle.kit_pool.specs.Laws.{SeatsAreCut, SeatsAreTakenIn, OpensSo};

use kit_ground::Protocol;

/// Every step that is planned for a federate's own place keeps both rules and what is asked of each
/// guest, over a list of words that may lack those in front; so do a guest's look, a cut of a seat
/// and the taking in of one; and the rules hold at the opening. This is what each floor on a table
/// rests on.
pub fn seats_keep_the_rules<P: Protocol>()
    ensures steps { StepsAreAllowed P.rule }
    ensures zeros { ZerosAreAllowed P.rule }
    ensures stores { StoresAreAllowed P.rule }
    ensures looks { LooksAreAllowed P.rule }
    ensures cut { SeatsAreCut P.rule }
    ensures taken_in { SeatsAreTakenIn P.rule }
    ensures opening { OpensSo P.rule }
{}
