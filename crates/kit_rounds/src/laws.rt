//! Laws of the rounds: each is the contract of a function that does nothing.

ghost use Rattle.kit_rounds.specs.Laws.{WayBalances, FullRoundBalances, PostsKeep, ReceiptsKeep};
ghost use Rattle.kit_rounds.specs.Laws.{RisesKeep, ContributionsKeep, FullRoundsClose};
ghost use Rattle.kit_rounds.specs.Laws.{EqualSumsBound, LowIsGreatest, BoundsRise, NewLedgersKeep};
ghost use Rattle.kit_rounds.specs.Laws.{ColoursAreNear, CopiesAreNear, OpensNext, OpensAtFirst};
ghost use Rattle.kit_rounds.specs.Laws.{OpensWithResult, RunIsKnown, NextContributionsKeep};
ghost use Rattle.kit_rounds.specs.Laws.{ContributionsLast, ResultsLast, OthersAreUnreceived};
ghost use Rattle.kit_rounds.specs.Laws.{RestIsUnreceived, StepsInLists};
ghost use Rattle.kit_rounds.specs.Least.{LeastIsGreatest, LeastIsKept, LeastIsAll};
ghost use Rattle.kit_rounds.specs.Least.{OldCopiesBalance};

/// The rule holds of ledgers with no entry, and each step of a federate keeps it: a post, a receipt
/// of a copy that is on its way, a contribution to the round that is under way, and a rise of a
/// promise.
pub fn rounds_keep()
    ensures first { NewLedgersKeep }
    ensures posts { PostsKeep }
    ensures receipts { ReceiptsKeep }
    ensures contributions { ContributionsKeep }
    ensures next { NextContributionsKeep }
    ensures rises { RisesKeep }
{}

/// A round to which all have contributed is done. Its counts differ by the old copies that came
/// late or are on their way; where they are equal, its low bounds all copies on their way and all
/// promises.
pub fn rounds_close()
    ensures closes { FullRoundsClose }
    ensures balances { FullRoundBalances }
    ensures bounds { EqualSumsBound }
{}

/// The low of a round is the greatest number that each low of its contributions allows, and the
/// bounds of later runs are not below those of earlier ones.
pub fn bounds_last()
    ensures greatest { LowIsGreatest }
    ensures rise { BoundsRise }
{}

/// What was posted was received or is on its way, by any test of stamps. Of the old copies of a
/// round, those posted are those that its contributions count, those that came later, those that
/// others received, and those on their way.
pub fn copies_balance()
    ensures way { WayBalances }
    ensures old { OldCopiesBalance }
{}

/// When a federate may contribute to its next round: where it has contributed to none, or has the
/// result of each round that it contributed to.
pub fn rounds_open()
    ensures next { OpensNext }
    ensures first { OpensAtFirst }
    ensures result { OpensWithResult }
{}

/// What a federate knows of the others: the run, from the results of the rounds before; that
/// colours are near each other; and that contributions and results of full rounds last.
pub fn federates_know()
    ensures run { RunIsKnown }
    ensures colours { ColoursAreNear }
    ensures copies { CopiesAreNear }
    ensures contributions { ContributionsLast }
    ensures results { ResultsLast }
{}

/// How a layer with lists of its own has the channels and the steps.
pub fn lists_serve()
    ensures others { OthersAreUnreceived }
    ensures rest { RestIsUnreceived }
    ensures steps { StepsInLists }
{}

/// The rule of the round under way says of every number below it what it says of the least of the
/// lows, posts and receipts that it is made of.
pub fn rounds_with_the_least()
    ensures greatest { LeastIsGreatest }
    ensures kept { LeastIsKept }
    ensures all { LeastIsAll }
{}
