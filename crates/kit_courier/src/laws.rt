ghost use Rattle.kit_courier.specs.Guests.{GuestsLearn};

/// A guest may look at each clock: in every world in which it knows no more of the clocks than they
/// show, that is so after the look. It is the contract of a function that does nothing.
pub fn guests_learn()
    ensures { GuestsLearn }
{}
