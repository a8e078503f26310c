ghost use Rattle.std.specs.Prelude.{◌≡◌, ◌<◌, ◌≤◌, ◌+◌, ◌*◌, ◌^◌, IfSome, IsTrue, ◌↔◌};
ghost use Rattle.kit_model.specs.Blocks.{partner_of, stages, width};
ghost use Rattle.kit_model.specs.Shares.{FitsWord, share_sum};
ghost use Rattle.kit_ground.specs.Steps.{IsReg};
ghost use Rattle.kit_lbts.specs.declared.view.Scheme.TheVariants as scheme;
ghost use Rattle.kit_fly.specs.Rounds.{register_in};
ghost use Rattle.kit_fly.specs.Shows.{HoldsValue, ShowsDue};
ghost use Rattle.kit_lbts.specs.SeatLaws.{IsInWorld};
ghost use Rattle.kit_fly.specs.Stages.{AreStagesOf, IsDueSlot, IsExponent, folds_of};
ghost use Rattle.kit_fly.specs.Stages.{registers_among};

use crate::registers::{RESULT, SHARE, find, register, show};
use crate::{Poll, Reduction};
use kit_ground::{Ground, Reg};
use kit_lbts::Lbts;
use kit_model::{Share, join_shares};

/// The federate with which this one exchanges at a stage: the one whose number differs in that bit.
pub fn partner(federates: u8, me: u8, stage: u8) -> u8
    requires federates { (1 ≤ federates) × (federates ≤ 16) }
    requires me { me < width federates }
    requires stage { stage < stages federates }
    ensures { result ≡ partner_of stage me }
{
    let _ = federates;
    across(me, stage)
}

fn across(me: u8, stage: u8) -> u8
    requires me { me < 16 }
    requires stage { stage < 4 }
    ensures { result ≡ partner_of stage me }
{
    me ^ (1 << stage)
}

/// A butterfly among as many federates as the greatest power of two allows, its width. Each outer
/// federate gives its share to the one that is the width below it, and has the result from there.
#[derive(Drop)]
pub struct Butterfly {
    federates: u8,
    me: u8,
    /// How many stages there are; the width is that power of two.
    stages: u8,
    round: u64,
    /// The own share with those that were taken in.
    value: Share,
    taken: u8,
    ghost few: { (1 ≤ federates) × (federates ≤ 16) },
    ghost one: { me < federates },
    ghost halved: { IsExponent stages federates },
    ghost counted: { AreStagesOf stages federates },
    ghost fits: { FitsWord value },
    ghost taken_of: { taken ≤ registers_among federates stages me },
}

impl Butterfly {
    fn width(&self) -> u8
        ensures value { result ≡ 2 ^ self.now.stages }
        ensures low { result ≤ self.now.federates }
        ensures high { self.now.federates < 2 * result }
    {
        1 << self.stages
    }

    /// Whether the federate stands outside the butterfly.
    fn is_outer(&self) -> bool
        ensures { IsTrue result ↔ (2 ^ self.now.stages ≤ self.now.me) }
    {
        self.me >= self.width()
    }

    /// How many outer federates give their share to this one: one or none.
    fn folds(&self) -> u8
        ensures { result ≡ folds_of self.now.federates self.now.stages self.now.me }
    {
        if self.width() + self.me < self.federates {
            1
        } else {
            0
        }
    }

    /// How many registers there are to be taken in.
    fn registers(&self) -> u8
        ensures { result ≡ registers_among self.now.federates self.now.stages self.now.me }
    {
        if self.is_outer() {
            1
        } else {
            self.folds() + self.stages
        }
    }

    /// The register to be taken in next.
    fn next(&self) -> Reg
        requires { self.now.taken < registers_among self.now.federates self.now.stages self.now.me }
        ensures inside { IsReg self.now.federates result }
        ensures is { result ≡ register_in scheme.Butterfly self.now.federates self.now.me
            self.now.round self.now.taken }
    {
        if self.is_outer() {
            return register(self.me - self.width(), self.round, RESULT);
        }
        if self.taken < self.folds() {
            return register(self.width() + self.me, self.round, SHARE);
        }
        let stage = self.taken - self.folds();
        register(partner(self.federates, self.me, stage), self.round, stage)
    }

    /// The stage, beside the own share, that is published with the registers taken in so far.
    fn due_stage(&self) -> Option<u8>
        ensures { IsDueSlot self.now.federates self.now.me self.now.taken result }
    {
        if self.is_outer() || self.taken < self.folds() {
            return None;
        }
        let stage = self.taken - self.folds();
        if stage < self.stages || stage == 0 {
            Some(stage)
        } else if self.folds() == 1 {
            Some(RESULT)
        } else {
            None
        }
    }

    fn show_value<G: Ground<Under = Lbts>>(&self, ground: &mut G)
        requires world { IsInWorld (G.place ground.old) }
        requires holds { HoldsValue (record {
          federates = self.now.federates;
          number = self.now.me;
          round = self.now.round;
          value = self.now.value;
          taken = self.now.taken;
        })
            (G.place ground.old) }
        ensures came { G.came ground.old ground.new }
        ensures world { IsInWorld (G.place ground.new) }
        ensures shows { ShowsDue (record {
          federates = self.now.federates;
          number = self.now.me;
          round = self.now.round;
          value = self.now.value;
          taken = self.now.taken;
        })
            (G.place ground.old) (G.place ground.new) }
    {
        if let Some(stage) = self.due_stage() {
            show(ground, self.me, self.round, stage, self.value);
        }
    }

    /// Nothing is taken in of the new round.
    fn begin(&mut self, round: u64, share: Share)
        requires { FitsWord share }
        ensures federates { self.new.federates ≡ self.old.federates }
        ensures me { self.new.me ≡ self.old.me }
        ensures stages { self.new.stages ≡ self.old.stages }
        ensures round { self.new.round ≡ round }
        ensures value { self.new.value ≡ share }
        ensures taken { self.new.taken ≡ 0 }
    {
        self.round = round;
        self.value = share;
        self.taken = 0;
    }

    /// An outer federate takes the result as it stands: its own share is in it.
    fn take_in(&mut self, share: Share)
        requires more { self.old.taken < registers_among self.old.federates self.old.stages
            self.old.me }
        requires fits { FitsWord share }
        requires together { self.old.me < 2 ^ self.old.stages
            → FitsWord (share_sum self.old.value share) }
        ensures federates { self.new.federates ≡ self.old.federates }
        ensures me { self.new.me ≡ self.old.me }
        ensures stages { self.new.stages ≡ self.old.stages }
        ensures round { self.new.round ≡ self.old.round }
        ensures taken { self.new.taken ≡ self.old.taken + 1 }
        ensures inner { self.old.me < 2 ^ self.old.stages
            → self.new.value ≡ share_sum self.old.value share }
        ensures outer { 2 ^ self.old.stages ≤ self.old.me → self.new.value ≡ share }
    {
        self.value = if self.is_outer() {
            share
        } else {
            join_shares(self.value, share)
        };
        self.taken += 1;
    }
}

impl Reduction for Butterfly {
    ghost use Rattle.kit_lbts.specs.declared.view.Scheme.TheVariants.{Butterfly};
    ghost use Rattle.kit_fly.specs.Rounds.{RoundState};

    ghost scheme = { Butterfly };

    ghost state = { λ r. record {
      federates = r.federates;
      number = r.me;
      round = r.round;
      value = r.value;
      taken = r.taken;
    } };

    fn new(federates: u8, me: u8) -> Butterfly {
        Butterfly {
            federates,
            me,
            stages: stages_of(federates),
            round: 0,
            value: Share {
                out: 0,
                inn: 0,
                low: 0,
            },
            taken: 0,
        }
    }

    fn taken(&self) -> u8 {
        self.taken
    }

    fn start<G: Ground<Under = Lbts>>(&mut self, ground: &mut G, round: u64, share: Share) {
        self.begin(round, share);
        show(ground, self.me, round, SHARE, share);
        self.show_value(ground);
    }

    fn poll<G: Ground<Under = Lbts>>(&mut self, ground: &mut G) -> Poll {
        while self.taken < self.registers() {
            let reg = self.next();
            match find(ground, reg, self.round) {
                None => return Poll::NotYet(reg),
                Some(share) => {
                    self.take_in(share);
                    self.show_value(ground);
                }
            }
        }
        Poll::Result(self.value)
    }
}

/// How many stages so many federates take.
fn stages_of(federates: u8) -> u8
    requires low { 1 ≤ federates }
    requires high { federates ≤ 16 }
    ensures exponent { IsExponent result federates }
    ensures counted { AreStagesOf result federates }
{
    if federates < 2 {
        0
    } else if federates < 4 {
        1
    } else if federates < 8 {
        2
    } else if federates < 16 {
        3
    } else {
        4
    }
}
