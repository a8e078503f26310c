//! A guest that looks at the clocks of two federates while they trade.
ghost use Rattle.std.specs.Prelude.{◌≡◌, ◌≢◌, ℕ, ◌<◌, ◌≤◌, slice_index};
ghost use Rattle.kit_floor.specs.FloorViews.{federates_of};
ghost use Rattle.kit_floor.specs.GuestViews.{IsGuestOf};
ghost use Rattle.letter_threads.specs.Knowing.{known_by};

use crate::trades::{OVER, TURNS};
use kit_courier::{Couriers, Deliveries};
use kit_floor::{GuestSeat, TableFloor};
use std::thread::yield_now;

/// What a guest saw: the last words of both clocks, and how often one was less than before.
#[derive(Clone, Copy)]
pub struct Sight {
    pub first: u64,
    pub second: u64,
    pub fell: u64,
}

impl Sight {
    /// Whether both federates have shown that they are through.
    pub fn is_over(&self) -> bool {
        self.first == OVER && self.second == OVER
    }
}

/// A guest looks at a clock, which is never less than what it knew of it.
fn look_at(floor: &TableFloor<Couriers>, guest: &mut GuestSeat<Couriers>, federate: u8) -> u64
    requires guest { IsGuestOf floor.now guest.old }
    requires federate { federate < federates_of floor.now }
    ensures guest { IsGuestOf floor.now guest.new }
    ensures risen { slice_index (known_by floor.now guest.old) federate ≤ result }
    ensures found { slice_index (known_by floor.now guest.new) federate ≡ result }
    ensures others { (k : ℕ) → k ≢ federate
        → slice_index (known_by floor.now guest.new) k
        ≡ slice_index (known_by floor.now guest.old) k }
{
    floor.clock::<Deliveries>(guest, federate)
}

/// A guest looks at the clocks of two federates until both are through. No clock is ever less than
/// before.
pub fn watch(floor: &TableFloor<Couriers>, mut guest: GuestSeat<Couriers>) -> Sight
    requires guest { IsGuestOf floor.now guest }
    requires two { federates_of floor.now ≡ 2 }
    ensures { result.fell ≡ 0 }
{
    let mut sight = Sight {
        first: 0,
        second: 0,
        fell: 0,
    };
    for _look in 0..TURNS {
        let first = look_at(floor, &mut guest, 0);
        let second = look_at(floor, &mut guest, 1);
        if first < sight.first || second < sight.second {
            sight.fell = sight.fell.wrapping_add(1);
        }
        sight.first = first;
        sight.second = second;
        if sight.is_over() {
            break;
        }
        yield_now();
    }
    sight
}
