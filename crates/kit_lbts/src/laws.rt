//! Laws of the protocol: each is the contract of a function that does nothing.
//!
//! Those of steps have the form that a call of the floor asks, with premises on the seat's own
//! place alone.

ghost use Rattle.kit_lbts.specs.Agreement.{agreeing_rule};
ghost use Rattle.kit_lbts.specs.AgreementLaws.{MomentsAreSound, KnownBoundsBound, StartsAgree};
ghost use Rattle.kit_lbts.specs.AgreementLaws.{AsidesAgree, OthersAgree, OpeningsAgree};
ghost use Rattle.kit_lbts.specs.AgreementLaws.{ToldWithAgreement, NextBlocksAgree, SpentAtGrants};
ghost use Rattle.kit_lbts.specs.AgreementLaws.{SpentAtStarts, OutstandingIsNeeded};
ghost use Rattle.kit_lbts.specs.AgreementLaws.{FullPoolsAreShort};
ghost use Rattle.kit_lbts.specs.LedgerLaws.{AsidesLeaveLedgers, PostsAre, ReceiptsAre, CollectsAre};
ghost use Rattle.kit_lbts.specs.LedgerLaws.{ReadyIs, GrantsAre, ContributionsAre};
ghost use Rattle.kit_lbts.specs.LookLaws.{LooksTeach, AllTaughtIsResult};
ghost use Rattle.kit_lbts.specs.Openings.{OpeningsHold};
ghost use Rattle.kit_lbts.specs.ReductionLaws.{PublishedAreValues, AllIsResult, KnownLasts};
ghost use Rattle.kit_lbts.specs.ReductionLaws.{SourcesArePublished};
ghost use Rattle.kit_lbts.specs.RoundLaws.{PostsKeepRounds, ReceiptsKeepRounds, RisesKeepRounds};
ghost use Rattle.kit_lbts.specs.RoundLaws.{ContributionsKeepRounds};
ghost use Rattle.kit_lbts.specs.Promises.{LowsAreLeast};
ghost use Rattle.kit_lbts.specs.SeatLaws.{PlacesTell, DuesAreAhead, DuesGoByFirst, CopiesAreFew};
ghost use Rattle.kit_lbts.specs.SeatLaws.{NextSharesFit, ReceiptsAreNear};
ghost use Rattle.kit_lbts.specs.WorldLaws.{CountsAreOfSets, BlocksAreAFront, DeliveredWasReceived};
ghost use Rattle.kit_lbts.specs.WorldLaws.{StatesAreSimulated, OutboxesStandBehind, SendsArePosted};
ghost use Rattle.kit_lbts.specs.WorldLaws.{WaitingIsLate, QueuesArePending, EntriesLieInBuffers};
ghost use Rattle.kit_lbts.specs.WorldLaws.{SettledAreBelow, OrphansAreRetracted};
ghost use Rattle.kit_lbts.specs.WorldLaws.{CopiesAreInOnePlace, MessagesAreChargedOnce};
ghost use Rattle.kit_lbts.specs.WorldLaws.{CountedAreLetters, HalfPostedAreFirst, EndedAreComplete};
ghost use Rattle.kit_lbts.specs.WorldLaws.{OneIsCurrent, ColoursDifferByOne};
ghost use Rattle.kit_lbts.specs.WorldLaws.{ContributionsAreFaithful, OldCopiesAreBalanced};
ghost use Rattle.kit_lbts.specs.WorldLaws.{EndedRunsBound, BoundsNeverFall, LeastHolds};
ghost use Rattle.kit_lbts.specs.WorldLaws.{NoneIsNewer, RegistersShow, LearntIsTrue};
ghost use Rattle.kit_lbts.specs.WorldLaws.{KnownBoundIsOfARun, KnownBoundBounds, GrantsAreBelow};
ghost use Rattle.kit_lbts.specs.WorldLaws.{ClocksShow, JournalsAreLawful};
ghost use Rattle.kit_lbts.specs.StepLaws.{LooksKeep, StopLooksKeep, StopsKeep};
ghost use Rattle.kit_lbts.specs.PublishLaws.{ContributionsKeep, ValuesKeep, BacksKeep, GrantsKeep};
ghost use Rattle.kit_lbts.specs.MessageLaws.{WritesKeep, ChargesKeep, PostsKeep, CollectsKeep};
ghost use Rattle.kit_lbts.specs.MessageLaws.{HeadsKeep, BodiesKeep, BodiesTell, ReleasesKeep};
ghost use Rattle.kit_lbts.specs.MessageLaws.{SettlesTell, CountLooksKeep};

/// How a message is sent: its words are written into a buffer that was seen free, the buffer is
/// charged for all its receivers, and a copy is posted to each.
pub fn messages_are_sent()
    ensures looks { CountLooksKeep agreeing_rule }
    ensures writes { WritesKeep agreeing_rule }
    ensures charges { ChargesKeep agreeing_rule }
    ensures posts { PostsKeep agreeing_rule }
{}

/// How it comes: mail is collected, the heads of the copies in hand are read, and a copy is
/// received with its body.
///
/// What is received was posted to the reader, is timed at or after the bound that the reader knows
/// and after its last grant, and was not received before.
pub fn messages_are_received()
    ensures collects { CollectsKeep agreeing_rule }
    ensures heads { HeadsKeep agreeing_rule }
    ensures bodies { BodiesKeep agreeing_rule }
    ensures told { BodiesTell agreeing_rule }
{}

/// A buffer is released whose message is done with, or is timed below the known bound and waits on
/// without it. The first of a queue that is timed below the bound is such a one, and is the only
/// one that is settled.
pub fn buffers_are_released()
    ensures releases { ReleasesKeep agreeing_rule }
    ensures first { SettlesTell agreeing_rule }
{}

/// The rule holds on a new floor for the federates of a federation.
pub fn openings_hold()
    ensures { OpeningsHold }
{}

/// Looks at registers and at the stop word keep the rule, and so does the setting of the stop word.
pub fn looks_keep_the_rule()
    ensures looks { LooksKeep agreeing_rule }
    ensures stop_looks { StopLooksKeep agreeing_rule }
    ensures stops { StopsKeep agreeing_rule }
{}

/// What each deed of a federate is to its ledger, by what it knows itself: a post, a receipt, a
/// rise of its promise, a contribution, or nothing.
pub fn deeds_are_steps()
    ensures asides { AsidesLeaveLedgers }
    ensures posts { PostsAre }
    ensures receipts { ReceiptsAre }
    ensures ready { ReadyIs }
    ensures collects { CollectsAre }
    ensures grants { GrantsAre }
    ensures contributions { ContributionsAre }
{}

/// Such a step of one federate's ledger keeps the rule of the rounds.
pub fn steps_keep_rounds()
    ensures posts { PostsKeepRounds }
    ensures receipts { ReceiptsKeepRounds }
    ensures rises { RisesKeepRounds }
    ensures contributions { ContributionsKeepRounds }
{}

/// What comes of the shares that are taken in, in either scheme: the value of each place that is
/// published, and at last the result. Whatever is taken in is a place that another federate
/// publishes.
pub fn shares_come_together()
    ensures sources { SourcesArePublished }
    ensures published { PublishedAreValues }
    ensures result { AllIsResult }
{}

/// What a federate learns by looks at registers: the share of the place that shows its round; and
/// with the last one the result, to which all have contributed, with a bound where its sums are
/// equal.
pub fn looks_teach()
    ensures lasts { KnownLasts }
    ensures look { LooksTeach }
    ensures result { AllTaughtIsResult }
{}

/// A federate that has published all of its last round contributes to the next one. It publishes a
/// value on the way once it has taken in what that needs, and the result once the round is closed.
pub fn shares_are_published()
    ensures contributions { ContributionsKeep agreeing_rule }
    ensures values { ValuesKeep agreeing_rule }
    ensures backs { BacksKeep agreeing_rule }
{}

/// A federate that has nothing to post grants itself the time at which its request is due, where
/// that is below the known bound and what is delivered needs no buffer any more.
pub fn times_are_granted()
    ensures { GrantsKeep agreeing_rule }
{}

/// Where all federates agree with the simulation, a floor shows a sound moment of a run, and what a
/// federate knows as a bound is one then.
pub fn floors_show_moments()
    ensures moments { MomentsAreSound }
    ensures bounds { KnownBoundsBound }
{}

/// At the opening all federates agree with the simulation. With agreement the rule tells what it
/// tells without.
pub fn agreement_begins()
    ensures first { OpeningsAgree }
    ensures told { ToldWithAgreement }
{}

/// The next block of a federate that may be granted its due time is the simulation's. Where its
/// numbers do not suffice for it, or for the start, they do not in the simulation; and what it has
/// outstanding is not more than its need.
pub fn next_blocks_are_known()
    ensures next { NextBlocksAgree }
    ensures spent { SpentAtGrants }
    ensures spent_first { SpentAtStarts }
    ensures outstanding { OutstandingIsNeeded }
{}

/// A federate goes on to agree with the simulation: by its start, and by any step but a grant that
/// keeps the rule without agreement.
pub fn federates_agree()
    ensures starts { StartsAgree }
    ensures asides { AsidesAgree }
    ensures others { OthersAgree }
{}

/// A federate whose outbox waits while each of its buffers has a message that is timed after its
/// logical time has fewer buffers than it needs, and what waits is a message of the simulation.
pub fn full_pools_are_short()
    ensures { FullPoolsAreShort }
{}

/// Between any two steps each federate agrees with the sequential simulation.
///
/// Its deliveries and grants are the first blocks of its part, and it stands where the simulation
/// has it after them. What it sent is posted or waits in order, charged into one buffer each; what
/// was posted to it is received, in hand or in the mail; its queue and its orphans are those of
/// what it received.
pub fn federates_are_as_simulated()
    ensures blocks { BlocksAreAFront }
    ensures delivered { DeliveredWasReceived }
    ensures states { StatesAreSimulated }
    ensures outbox { OutboxesStandBehind }
    ensures sends { SendsArePosted }
    ensures waiting { WaitingIsLate }
    ensures queue { QueuesArePending }
    ensures buffers { EntriesLieInBuffers }
    ensures settled { SettledAreBelow }
    ensures orphans { OrphansAreRetracted }
    ensures copies { CopiesAreInOnePlace }
    ensures charged { MessagesAreChargedOnce }
    ensures letters { CountedAreLetters }
    ensures half_posted { HalfPostedAreFirst }
    ensures complete { EndedAreComplete }
{}

/// Between any two steps one round of the reduction is under way, the old copies balance, the
/// bounds of ended runs bound all copies on their way and all promises and never fall, and the
/// least number of the round that is under way holds.
pub fn rounds_are_as_counted()
    ensures current { OneIsCurrent }
    ensures colours { ColoursDifferByOne }
    ensures faithful { ContributionsAreFaithful }
    ensures balance { OldCopiesAreBalanced }
    ensures bounds { EndedRunsBound }
    ensures rise { BoundsNeverFall }
    ensures least { LeastHolds }
    ensures newest { NoneIsNewer }
{}

/// Between any two steps the counts are those of the sets of the buffers, each register shows what
/// its round has to show, what a federate learnt is true, its known bound is that of a run that
/// ended, its grants are below that, and its journal is lawful.
pub fn registers_are_as_contributed()
    ensures counts { CountsAreOfSets }
    ensures registers { RegistersShow }
    ensures learnt { LearntIsTrue }
    ensures known { KnownBoundIsOfARun }
    ensures bounds { KnownBoundBounds }
    ensures grants { GrantsAreBelow }
    ensures clocks { ClocksShow }
    ensures lawful { JournalsAreLawful }
{}

/// The low that is contributed is the promise, or the least time of the posts of the run's colour.
pub fn lows_are_least()
    ensures { LowsAreLeast }
{}

/// What a federate's own place tells, in any world in which the rule holds: its parts of the rule;
/// when its request is due; that it has posted and received no more copies than its next
/// contribution has room for; and that what it received has its own colour or the next one at most.
pub fn places_tell()
    ensures tell { PlacesTell }
    ensures due { DuesAreAhead }
    ensures first { DuesGoByFirst }
    ensures few { CopiesAreFew }
    ensures fit { NextSharesFit }
    ensures near { ReceiptsAreNear }
{}
