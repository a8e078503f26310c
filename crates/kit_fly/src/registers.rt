//! The registers of a round.

ghost use Rattle.std.specs.Prelude.{◌≡◌, ◌<◌, ◌+◌, IfSome};
ghost use Rattle.kit_model.specs.Shares.{FitsWord, share_word};
ghost use Rattle.kit_ground.specs.declared.address.Address.TheVariants.{Register};
ghost use Rattle.kit_ground.specs.declared.place.Deed.TheVariants.{Published};
ghost use Rattle.kit_ground.specs.Rules.{Keeps};
ghost use Rattle.kit_ground.specs.Steps.{IsReg, place_after};
ghost use Rattle.kit_lbts.specs.Agreement.{agreeing_rule};
ghost use Rattle.kit_lbts.specs.Progress.{view_after};
ghost use Rattle.kit_lbts.specs.Reduction.{reg_of};
ghost use Rattle.kit_fly.specs.Looks.{HasLooked};
ghost use Rattle.kit_lbts.specs.SeatLaws.{IsInWorld};

use kit_ground::{Ground, Reg};
use kit_lbts::{Lbts, LbtsEvent};
use kit_model::{Share, pack_share, unpack_share};

/// The stage of a federate's own share, among those of a parity.
pub(crate) const SHARE: u8 = 4;

/// The stage of the result for a federate outside the butterfly.
pub(crate) const RESULT: u8 = 5;

/// How many stages each parity has.
const STAGES: u8 = 6;

/// A register of a round: there are slots for odd and for even rounds.
pub(crate) fn register(owner: u8, round: u64, stage: u8) -> Reg
    requires { stage < 6 }
    ensures value { result ≡ reg_of owner stage round }
    ensures small { result.slot < 12 }
{
    Reg {
        owner,
        slot: (round % 2) as u8 * STAGES + stage,
    }
}

/// Publishes a share of this round in an own slot.
pub(crate) fn show<G: Ground<Under = Lbts>>(
    ground: &mut G,
    me: u8,
    round: u64,
    stage: u8,
    share: Share,
)
    requires me { (G.place ground.old).own.number ≡ me }
    requires stage { stage < 6 }
    requires fits { FitsWord share }
    requires rule { Keeps agreeing_rule view_after (G.place ground.old)
        (Register (reg_of me stage round))
        (λ _. Published (reg_of me stage round) (share_word share round)) }
    ensures came { G.came ground.old ground.new }
    ensures place { G.place ground.new ≡ place_after view_after
        (Published (reg_of me stage round) (share_word share round)) (G.place ground.old) }
    ensures world { IsInWorld (G.place ground.new) }
{
    ground.publish::<LbtsEvent>(register(me, round, stage), pack_share(share, round));
}

/// The share in a register, if it shows this round.
pub(crate) fn find<G: Ground<Under = Lbts>>(ground: &mut G, reg: Reg, round: u64) -> Option<Share>
    requires { IsReg (G.place ground.old).own.federates reg }
    ensures came { G.came ground.old ground.new }
    ensures world { IsInWorld (G.place ground.new) }
    ensures fits { IfSome result FitsWord }
    ensures looked { HasLooked (G.place ground.old) reg round (G.place ground.new) result }
{
    let (share, shown) = unpack_share(ground.look::<LbtsEvent>(reg));
    if u64::from(shown) == round % 8 {
        Some(share)
    } else {
        None
    }
}
