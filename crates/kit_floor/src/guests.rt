//! What guests do on a floor: each call is one look at one word, and stores nothing.
ghost use Rattle.std.specs.Prelude.{◌≡◌, ℕ, ◌<◌, ◌==◌, ◌∷◌, ◌++◌};
ghost use Rattle.kit_ground.specs.declared.address.Address.TheVariants.{Register, Stop};
ghost use Rattle.kit_ground.specs.declared.place.Deed.TheVariants.{Looked, SawStop};
ghost use Rattle.kit_ground.specs.Guests.{GuestKeeps};
ghost use Rattle.kit_ground.specs.Steps.{place_after};
ghost use Rattle.kit_pool.specs.GuestViews.{IsSameGuestSeat, guest_desk_of, guests_with};
ghost use Rattle.kit_ground.specs.Guests.{WasSeen};
ghost use Rattle.kit_floor.specs.FloorViews.{federates_of};
ghost use Rattle.kit_floor.specs.GuestViews.{IsGuestOf, guest_place_of};
ghost use Rattle.kit_ground.specs.Layout.{clock_of};

use crate::{TableFloor, Whole};
use kit_ground::{Address, Deed, Event, Protocol, Reg};
use kit_pool::GuestSeat;
use std::marker::Brand;

/// The slot of a federate's clock.
const CLOCK: u8 = 12;

impl<P: Protocol> TableFloor<P> {
    /// A guest looks at a federate's clock. By `E` its client's view changes, and the caller shows
    /// that what the client asks of guests holds after the look. It is told that both rules held at
    /// the look, with the clock that was found.
    pub fn clock<E: Event<P::View>>(&self, guest: &mut GuestSeat<P>, federate: u8) -> u64
        requires guest { IsGuestOf self.now guest.old }
        requires federate { federate < federates_of self.now }
        requires rule { GuestKeeps P.rule E.next (guest_place_of P.first self.now guest.old)
            (Register (clock_of federate)) (λ word. Looked (clock_of federate) word) }
        ensures same { IsSameGuestSeat guest.old guest.new }
        ensures place { guest_desk_of guest.new
            ≡ place_after E.next (Looked (clock_of federate) result)
            (guest_place_of P.first self.now guest.old) ∷ guests_with guest.old }
        ensures told { WasSeen P.rule (guest_place_of P.first self.now guest.old)
            (Register (clock_of federate)) result }
    {
        let reg = Reg {
            owner: federate,
            slot: CLOCK,
        };
        let address = Address::Register(reg);
        let at = address.index(guest.federates(), guest.buffers());
        let about = Deed::Looked { reg, word: 0 };
        guest.load::<Whole, Brand, E>(&self.table, at, address, about)
    }

    /// A guest looks whether the stop word is 1.
    pub fn stopped<E: Event<P::View>>(&self, guest: &mut GuestSeat<P>) -> bool
        requires guest { IsGuestOf self.now guest.old }
        requires rule { GuestKeeps P.rule E.next (guest_place_of P.first self.now guest.old) Stop
            (λ word. SawStop (word == 1)) }
        ensures same { IsSameGuestSeat guest.old guest.new }
        ensures place { guest_desk_of guest.new
            ≡ place_after E.next (SawStop result)
            (guest_place_of P.first self.now guest.old) ∷ guests_with guest.old }
        ensures told { (found : ℕ) × WasSeen P.rule
            (guest_place_of P.first self.now guest.old) Stop found × (result ≡ (found == 1)) }
    {
        let address = Address::Stop;
        let at = address.index(guest.federates(), guest.buffers());
        let about = Deed::SawStop { set: true };
        guest.load::<Whole, Brand, E>(&self.table, at, address, about) == 1
    }

    /// A guest takes another guest's seat in, and has its place too from now on, behind its own.
    pub fn join_guests(&self, guest: &mut GuestSeat<P>, other: GuestSeat<P>)
        requires guest { IsGuestOf self.now guest.old }
        requires other { IsGuestOf self.now other }
        ensures same { IsSameGuestSeat guest.old guest.new }
        ensures places { guest_desk_of guest.new ≡ guest_desk_of guest.old ++ guest_desk_of other }
    {
        guest.take_in::<Whole>(&self.table, other);
    }
}
