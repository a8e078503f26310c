use kit_ground::{Ground, Reg};
use kit_lbts::Lbts;
use kit_model::Share;

/// What a poll came to.
#[derive(Clone, Copy, Debug, PartialEq, Eq)]
pub enum Poll {
    /// The shares of all federates together.
    Result(Share),
    /// This register does not show the round yet; it is the next that has to.
    NotYet(Reg),
}

/// How the shares of a round come together. No call takes memory or waits.
pub trait Reduction {
    ghost use Rattle.std.specs.Prelude.{◌≡◌, ◌≤◌, ◌<◌};
    ghost use Rattle.kit_model.specs.Shares.{share_word};
    ghost use Rattle.kit_lbts.specs.declared.view.Scheme.{Scheme};
    ghost use Rattle.kit_lbts.specs.Reduction.{share_stage};
    ghost use Rattle.kit_fly.specs.Rounds.{FollowsRound, LeavesSeat, LeavesSlots, RoundState};
    ghost use Rattle.kit_fly.specs.Rounds.{SlotsShowRound, shown_word};
    ghost use Rattle.kit_fly.specs.Starts.{LooksNowhere, MayStart, view_started};
    ghost use Rattle.kit_lbts.specs.SeatLaws.{IsInWorld};
    ghost use Rattle.kit_fly.specs.Polls.{IsAnswer, IsNew, LooksOnce, TakesIn};

    ghost scheme: { Scheme };

    // What it keeps of the round that was started last.
    ghost state: { Self → RoundState };

    /// The reduction of one of so many federates, with no round under way.
    fn new(federates: u8, me: u8) -> Self
        requires federates { (1 ≤ federates) × (federates ≤ 16) }
        requires me { me < federates }
        ensures federates { (state result).federates ≡ federates }
        ensures number { (state result).number ≡ me };

    /// How many registers were taken in since the round was started.
    fn taken(&self) -> u8
        ensures { result ≡ (state self.now).taken };

    /// Starts a round: publishes the federate's own share, and what else needs no other one.
    fn start<G: Ground<Under = Lbts>>(&mut self, ground: &mut G, round: u64, share: Share)
        requires world { IsInWorld (G.place ground.old) }
        requires next { MayStart scheme (state self.old) round share (G.place ground.old) }
        ensures came { G.came ground.old ground.new }
        ensures world { IsInWorld (G.place ground.new) }
        ensures left { LeavesSeat (G.place ground.old) (G.place ground.new) }
        ensures looks { LooksNowhere (G.place ground.old) (G.place ground.new) }
        ensures federates { (state self.new).federates ≡ (state self.old).federates }
        ensures number { (state self.new).number ≡ (state self.old).number }
        ensures round { (state self.new).round ≡ round }
        ensures taken { (state self.new).taken ≡ 0 }
        ensures view { (G.place ground.new).client ≡ view_started (G.place ground.old) }
        ensures follows { FollowsRound scheme (state self.new) (G.place ground.new) }
        ensures share { shown_word (state self.new) (G.place ground.new) share_stage
            ≡ share_word share round }
        ensures shown { SlotsShowRound scheme (state self.new) (G.place ground.new) }
        ensures slots { LeavesSlots scheme (state self.new) (λ many. many ≡ 0) (G.place ground.old)
            (G.place ground.new) };

    /// Goes on as far as the registers show the round.
    fn poll<G: Ground<Under = Lbts>>(&mut self, ground: &mut G) -> Poll
        requires world { IsInWorld (G.place ground.old) }
        requires follows { FollowsRound scheme (state self.old) (G.place ground.old) }
        requires shown { SlotsShowRound scheme (state self.old) (G.place ground.old) }
        ensures came { G.came ground.old ground.new }
        ensures world { IsInWorld (G.place ground.new) }
        ensures left { LeavesSeat (G.place ground.old) (G.place ground.new) }
        ensures taken { TakesIn scheme (state self.old) (state self.new) (G.place ground.old)
            (G.place ground.new) }
        ensures answer { IsAnswer scheme (state self.old) (state self.new) (G.place ground.old)
            (G.place ground.new) result }
        ensures looks { LooksOnce (state self.old) (state self.new) (G.place ground.old)
            (G.place ground.new) result }
        ensures follows { FollowsRound scheme (state self.new) (G.place ground.new) }
        ensures shown { SlotsShowRound scheme (state self.new) (G.place ground.new) }
        ensures slots { LeavesSlots scheme (state self.new)
            (IsNew (state self.old) (state self.new)) (G.place ground.old) (G.place ground.new) };
}
