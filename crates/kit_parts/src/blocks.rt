//! Laws of a federate's own blocks: their times, their end, what is outstanding after them.

ghost use Rattle.kit_parts.specs.OwnLaws.{PartsRise, PartsEnd, EndsAreWhole, NothingComesLate};
ghost use Rattle.kit_parts.specs.OwnLaws.{NeedCovers, NeedHolds, SpentAgrees, SpentAmong};
ghost use Rattle.kit_parts.specs.OwnLaws.{SendsAreNumbered, SendsGrow, GotIsDelivered};
ghost use Rattle.kit_parts.specs.OwnLaws.{WholePartsAreSeats, FrontsAreReached, FrontsSend};

/// The grants of a federate rise strictly, from 1 to the end time.
pub fn parts_rise()
    ensures { PartsRise }
{}

/// The last grant of a federate is the end time.
pub fn parts_end()
    ensures { PartsEnd }
{}

/// A federate that was granted the end time has made its whole part.
pub fn ends_are_whole()
    ensures { EndsAreWhole }
{}

/// Where all is heard below a bound, nothing more comes that is timed below it.
pub fn nothing_comes_late()
    ensures { NothingComesLate }
{}

/// What a federate has outstanding after any of its blocks is not more than its need.
pub fn need_covers()
    ensures { NeedCovers }
{}

/// Buffers that hold outstanding messages, no two the same, are not more than the need.
pub fn need_holds()
    ensures { NeedHolds }
{}

/// A federate that takes number 16,385 in its start or in a block does so in the simulation.
pub fn spent_agrees()
    ensures { SpentAgrees }
{}

/// A federate that takes number 16,385 among the deliveries of its next block does so in the
/// simulation.
pub fn spent_among()
    ensures { SpentAmong }
{}

/// What a federate has sent after any blocks is numbered from 1 on, and its next number follows.
pub fn sends_are_numbered()
    ensures { SendsAreNumbered }
{}

/// More blocks only add to what a federate has sent.
pub fn sends_grow()
    ensures { SendsGrow }
{}

/// What was delivered to a federate is what its blocks deliver.
pub fn got_is_delivered()
    ensures { GotIsDelivered }
{}

/// What the whole part of a federate leads to is what the simulation leaves at it.
pub fn whole_parts_are_seats()
    ensures { WholePartsAreSeats }
{}

/// The first blocks of a federate's part are those that it has in the simulation after so many
/// grants, and it stands there where they lead to.
pub fn fronts_are_reached()
    ensures { FrontsAreReached }
{}

/// What a federate has sent after the first blocks of its part is of the simulation.
pub fn fronts_send()
    ensures { FrontsSend }
{}
