//! Laws of the floor: each is the contract of a function that does nothing.

ghost use Rattle.kit_ground.specs.Laws.{WordsAreInside, WordsAreApart, WordsAreStored};
ghost use Rattle.kit_ground.specs.Laws.{ReadersAreCounted, FreeBuffersHaveNobody};
ghost use Rattle.kit_ground.specs.Laws.{UncountedBuffersHaveNobody, CountsAreSmall};
ghost use Rattle.kit_ground.specs.Laws.{NobodyDueHoldsNone, NobodyDueIsOwedNone};
ghost use Rattle.kit_ground.specs.Laws.{ReadersFindWhatWasWritten, ReadersWereCharged};
ghost use Rattle.kit_ground.specs.Laws.{WordsStayForReaders, StepsKeepTheFloor, StepsKeepBothRules};
ghost use Rattle.kit_ground.specs.Laws.{StepsKeepGuests, WorldsTell};

use crate::Protocol;

/// Where the words of a floor stand: each inside, no two at one place, and a store in the list of
/// words is a store in the memory.
pub fn words_stand_apart()
    ensures inside { WordsAreInside }
    ensures apart { WordsAreApart }
    ensures stored { WordsAreStored }
{}

/// Whom a count counts: everybody in one of the buffer's three sets, and nobody where it is 0 or
/// the buffer was seen free; so it is never more than the number of federates.
pub fn readers_are_counted()
    ensures counted { ReadersAreCounted }
    ensures free { FreeBuffersHaveNobody }
    ensures uncounted { UncountedBuffersHaveNobody }
    ensures small { CountsAreSmall }
{}

/// Where nobody is in a set of a buffer: who is in none for any buffer of a federate holds none of
/// them, and a buffer for which nobody is in one is to be posted to nobody.
pub fn sets_are_exact()
    ensures held { NobodyDueHoldsNone }
    ensures owed { NobodyDueIsOwedNone }
{}

/// Whoever is in a set of a buffer was charged for, finds in it the words that the owner last
/// wrote, and these stay through every step that is allowed as long as somebody is.
pub fn readers_find_what_was_written<P: Protocol>()
    ensures charged { ReadersWereCharged P.View }
    ensures found { ReadersFindWhatWasWritten }
    ensures stay { WordsStayForReaders P.View }
{}

/// Every step that is allowed keeps the floor's rule; one that keeps the client's rule in every
/// world keeps both over a list of words, and what is asked of each guest.
pub fn steps_keep_the_rules<P: Protocol>()
    ensures floor { StepsKeepTheFloor P.View }
    ensures both { StepsKeepBothRules P.rule }
    ensures guests { StepsKeepGuests P.rule }
{}

/// What a client's step may use of the floor in every world: the sizes of what its seat knows, and
/// what it knows of its own buffers, its mail, and the buffers that it holds.
pub fn worlds_tell<P: Protocol>()
    ensures { WorldsTell P.rule }
{}
