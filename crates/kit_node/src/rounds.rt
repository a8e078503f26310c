//! A federate's part in the computation of the bound (LBTS).

ghost use Rattle.std.specs.Prelude.{◌≡◌, ◌+◌, ◌<◌, ◌≤◌, ◌^◌, false};
ghost use Rattle.kit_node.specs.Fields.{AreNoRounds, closed_with};

use kit_fly::Reduction;
use kit_model::Share;

/// Where a federate stands in the rounds of the reduction.
#[derive(Drop)]
pub(crate) struct Rounds<R> {
    pub(crate) reduction: R,
    /// How many rounds it contributed to, and how many it may.
    pub(crate) taken: u64,
    pub(crate) limit: u64,
    /// Whether the last of them is under way.
    pub(crate) under_way: bool,
    /// The run of the round that is under way, or else of the next.
    pub(crate) run: u64,
    /// The run to which it contributed last, or 0: the colour of its messages.
    pub(crate) colour: u64,
    /// The bound of the last run that ended, or 0.
    pub(crate) bound: u64,
}

impl<R: Reduction + Drop> Rounds<R> {
    /// No round yet, for one of so many federates, which takes part in so many rounds at most.
    pub(crate) fn new(federates: u8, me: u8, limit: u64) -> Rounds<R>
        requires federates { (1 ≤ federates) × (federates ≤ 16) }
        requires me { me < federates }
        ensures federates { (R.state result.reduction).federates ≡ federates }
        ensures number { (R.state result.reduction).number ≡ me }
        ensures none { AreNoRounds limit result }
    {
        Rounds {
            reduction: R::new(federates, me),
            taken: 0,
            limit,
            under_way: false,
            run: 1,
            colour: 0,
            bound: 0,
        }
    }

    /// The round that is under way has this result. Equal sums end the run.
    pub(crate) fn close(&mut self, sum: Share)
        requires { self.old.run + 1 < 2 ^ 64 }
        ensures { self.new ≡ closed_with sum self.old }
    {
        self.under_way = false;
        if sum.out == sum.inn {
            self.bound = u64::from(sum.low);
            self.run += 1;
        }
    }
}
