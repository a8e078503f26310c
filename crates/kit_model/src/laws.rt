//! Laws of the definitions: each is the contract of a function that does nothing.

ghost use Rattle.kit_model.specs.Laws.{EmptyIsLawful, PushesAreLawful, ReceiptsAreLawful};
ghost use Rattle.kit_model.specs.Laws.{DeliveriesAreLawful, GrantsAreLawful, OthersKeepTheTime};
ghost use Rattle.kit_model.specs.Laws.{FrontsAreLawful, CopiesCountOnce, PostsCount, ReceiptsCount};
ghost use Rattle.kit_model.specs.Laws.{CountsKeepGrowing, LaterRunsCountMore, AllColoursGetOld};
ghost use Rattle.kit_model.specs.Laws.{NewCopiesDoNotCount, JoinCommutes, JoinAssociates};
ghost use Rattle.kit_model.specs.Laws.{SharesComeBack, SharesAreWords, WordsShowTheirRound};
ghost use Rattle.kit_model.specs.Laws.{OldWordsDiffer, ZeroShowsNoRound};
ghost use Rattle.kit_model.specs.BlockLaws.{WidthIsGreatest, BlocksAreApart, EverybodyIsIn};
ghost use Rattle.kit_model.specs.BlockLaws.{FirstBlock, NextBlock, PartnersAreApart};
ghost use Rattle.kit_model.specs.BlockLaws.{PartnersAreWithin, PartnersAreMutual, LastBlock};
ghost use Rattle.kit_model.specs.BlockLaws.{BlocksOfSix, OneShare, OneMoreShare, GroupsJoin};
ghost use Rattle.kit_model.specs.BlockLaws.{GroupsDecide, GroupsStayWithin, FirstValue, NextValue};
ghost use Rattle.kit_model.specs.BlockLaws.{LastValue, BlockDecides};

/// When a journal is lawful: with no entry it is, with one more exactly where it was and the entry
/// may follow the last grant, and with some taken off the end where it was.
pub fn journals_are_lawful()
    ensures empty { EmptyIsLawful }
    ensures pushed { PushesAreLawful }
    ensures received { ReceiptsAreLawful }
    ensures delivered { DeliveriesAreLawful }
    ensures granted { GrantsAreLawful }
    ensures same_time { OthersKeepTheTime }
    ensures front { FrontsAreLawful }
{}

/// How copies of messages count, by their colours: one more counts for itself, where it is old;
/// none leaves; later runs count more, and a run above all colours counts all.
pub fn copies_count()
    ensures once { CopiesCountOnce }
    ensures posted { PostsCount }
    ensures received { ReceiptsCount }
    ensures grows { CountsKeepGrowing }
    ensures later { LaterRunsCountMore }
    ensures all { AllColoursGetOld }
    ensures new { NewCopiesDoNotCount }
{}

/// Shares may be joined in any order and grouping.
pub fn shares_join()
    ensures commutes { JoinCommutes }
    ensures associates { JoinAssociates }
{}

/// A share comes back from its word, with its round modulo 8, and from no other word.
pub fn shares_come_back()
    ensures back { SharesComeBack }
    ensures only { SharesAreWords }
{}

/// Which rounds a word shows: its own modulo 8, so not the next of the same parity; and 0 not the
/// first.
pub fn words_show_their_round()
    ensures own { WordsShowTheirRound }
    ensures old { OldWordsDiffer }
    ensures zero { ZeroShowsNoRound }
{}

/// What the blocks of a butterfly are, stage by stage: two of a stage are equal or apart, everybody
/// is in one, and the next stage's are made of two that are partners, until one has everybody.
pub fn blocks_double()
    ensures greatest { WidthIsGreatest }
    ensures apart { BlocksAreApart }
    ensures in_one { EverybodyIsIn }
    ensures first { FirstBlock }
    ensures next { NextBlock }
    ensures partners { PartnersAreApart }
    ensures within { PartnersAreWithin }
    ensures mutual { PartnersAreMutual }
    ensures last { LastBlock }
    ensures six { BlocksOfSix }
{}

/// How the shares of some federates come together: one by one, or in sets that have nobody in
/// common.
pub fn groups_join()
    ensures one { OneShare }
    ensures more { OneMoreShare }
    ensures union { GroupsJoin }
    ensures decide { GroupsDecide }
    ensures within { GroupsStayWithin }
{}

/// What a federate knows after each stage of a butterfly: the shares of its block together, and
/// after the last stage those of everybody.
pub fn values_double()
    ensures first { FirstValue }
    ensures next { NextValue }
    ensures last { LastValue }
    ensures decides { BlockDecides }
{}
