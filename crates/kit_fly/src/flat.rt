ghost use Rattle.std.specs.Prelude.{◌≡◌, ◌<◌, ◌≤◌, ◌+◌};
ghost use Rattle.kit_model.specs.Shares.{FitsWord, share_sum};
ghost use Rattle.kit_ground.specs.Steps.{IsReg};
ghost use Rattle.kit_lbts.specs.declared.view.Scheme.TheVariants as scheme;
ghost use Rattle.kit_fly.specs.Rounds.{register_in};

use crate::registers::{SHARE, find, register, show};
use crate::{Poll, Reduction};
use kit_ground::{Ground, Reg};
use kit_lbts::Lbts;
use kit_model::{Share, join_shares};

/// Each federate reads the share of every other, in ascending order.
#[derive(Drop)]
pub struct FlatReduction {
    federates: u8,
    me: u8,
    round: u64,
    /// The own share with those that were taken in.
    value: Share,
    taken: u8,
    ghost few: { (1 ≤ federates) × (federates ≤ 16) },
    ghost one: { me < federates },
    ghost fits: { FitsWord value },
    ghost taken_of: { taken + 1 ≤ federates },
}

impl FlatReduction {
    /// The register to be taken in next.
    fn next(&self) -> Reg
        requires { self.now.taken + 1 < self.now.federates }
        ensures inside { IsReg self.now.federates result }
        ensures is { result ≡ register_in scheme.Flat self.now.federates self.now.me self.now.round
            self.now.taken }
    {
        let owner = if self.taken < self.me {
            self.taken
        } else {
            self.taken + 1
        };
        register(owner, self.round, SHARE)
    }

    /// Nothing is taken in of the new round.
    fn begin(&mut self, round: u64, share: Share)
        requires { FitsWord share }
        ensures federates { self.new.federates ≡ self.old.federates }
        ensures me { self.new.me ≡ self.old.me }
        ensures round { self.new.round ≡ round }
        ensures value { self.new.value ≡ share }
        ensures taken { self.new.taken ≡ 0 }
    {
        self.round = round;
        self.value = share;
        self.taken = 0;
    }

    fn take_in(&mut self, share: Share)
        requires more { self.old.taken + 1 < self.old.federates }
        requires fits { FitsWord (share_sum self.old.value share) }
        ensures federates { self.new.federates ≡ self.old.federates }
        ensures me { self.new.me ≡ self.old.me }
        ensures round { self.new.round ≡ self.old.round }
        ensures taken { self.new.taken ≡ self.old.taken + 1 }
        ensures value { self.new.value ≡ share_sum self.old.value share }
    {
        self.value = join_shares(self.value, share);
        self.taken += 1;
    }
}

impl Reduction for FlatReduction {
    ghost use Rattle.kit_lbts.specs.declared.view.Scheme.TheVariants.{Flat};
    ghost use Rattle.kit_fly.specs.Rounds.{RoundState};

    ghost scheme = { Flat };

    ghost state = { λ r. record {
      federates = r.federates;
      number = r.me;
      round = r.round;
      value = r.value;
      taken = r.taken;
    } };

    fn new(federates: u8, me: u8) -> FlatReduction {
        FlatReduction {
            federates,
            me,
            round: 0,
            value: Share {
                out: 0,
                inn: 0,
                low: 0,
            },
            taken: 0,
        }
    }

    fn taken(&self) -> u8 {
        self.taken
    }

    fn start<G: Ground<Under = Lbts>>(&mut self, ground: &mut G, round: u64, share: Share) {
        self.begin(round, share);
        show(ground, self.me, round, SHARE, share);
    }

    fn poll<G: Ground<Under = Lbts>>(&mut self, ground: &mut G) -> Poll {
        while self.taken + 1 < self.federates {
            let reg = self.next();
            match find(ground, reg, self.round) {
                None => return Poll::NotYet(reg),
                Some(share) => self.take_in(share),
            }
        }
        Poll::Result(self.value)
    }
}
