ghost use Rattle.std.specs.Prelude.{◌≡◌, ◌+◌, ◌≤◌, slice_index};
ghost use Rattle.kit_courier.specs.Calls.{AdvanceLeaves, HasLooked, IsLeast};

use crate::{Couriers, Deliveries};
use kit_ground::{Ground, Reg};

/// The slot of a federate's clock.
const CLOCK: u8 = 12;

/// Looks once at the clock of each other federate in turn, and then shows `to` in the own clock.
///
/// The answer is the least clock that it found, or the greatest number where there is no other
/// federate.
pub fn advance<G: Ground<Under = Couriers>>(seat: &mut G, to: u64) -> u64
    requires { slice_index (G.place seat.old).own.shown 12 ≤ to }
    ensures came { G.came seat.old seat.new }
    ensures looked { HasLooked (G.place seat.old) (G.place seat.old).own.federates
        (G.place seat.new) }
    ensures least { let o = (G.place seat.old).own in
        IsLeast (G.place seat.new).client.known o.federates o.number result }
    ensures shown { slice_index (G.place seat.new).own.shown 12 ≡ to }
    ensures steps { (G.place seat.new).own.steps
        ≡ (G.place seat.old).own.steps + (G.place seat.old).own.federates }
    ensures looks { (G.place seat.new).own.looks + 1
        ≡ (G.place seat.old).own.looks + (G.place seat.old).own.federates }
    ensures leaves { AdvanceLeaves (G.place seat.old) (G.place seat.new) }
{
    let me = seat.me();
    let mut least = u64::MAX;
    for federate in 0..seat.federates() {
        if federate != me {
            let clock = Reg {
                owner: federate,
                slot: CLOCK,
            };
            let found = seat.look::<Deliveries>(clock);
            if found < least {
                least = found;
            }
        }
    }
    let clock = Reg {
        owner: me,
        slot: CLOCK,
    };
    seat.publish::<Deliveries>(clock, to);
    least
}
