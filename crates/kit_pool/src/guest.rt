//! Seats of guests: they look at words, and store nothing.
ghost use Rattle.std.specs.Prelude.{◌≡◌, []};
ghost use Rattle.kit_pool.specs.Seats.{IsOwn};
ghost use Rattle.kit_pool.specs.Watching.{AreGuests, IsGuestWithin};

use crate::rule::{Front, OwnFirst, Plan, SeatingTable, Sees};
use atomic_table::Seat;
use kit_ground::{Address, Deed, Event, Place, Protocol};
use std::collections::LinkedList;

/// A seat of a table for a guest beside its federates, and for the guests whose seats it took in.
#[derive(Drop)]
pub struct GuestSeat<P: Protocol> {
    seat: Seat<(), LinkedList<Place<P::View>>>,
    number: u8,
    federates: u8,
    buffers: u16,
    ghost within: { IsGuestWithin number federates buffers },
    ghost bare: { seat.me.1 ≡ [] },
    ghost own: { IsOwn number federates buffers seat.me.0 },
    ghost guests: { AreGuests federates seat.me.0 },
}

impl<P: Protocol> GuestSeat<P> {
    ghost use Rattle.std.specs.Prelude.{◌≡◌, ℕ, ◌+◌, ◌-◌, ◌<◌, [], ◌∷◌, ◌++◌, length};
    ghost use Rattle.kit_ground.specs.Layout.{index_of};
    ghost use Rattle.kit_ground.specs.Steps.{place_after};
    ghost use Rattle.kit_pool.specs.Dealing.{GuestIsOf, HasWords, IsLaidFor, IsToDeal};
    ghost use Rattle.kit_pool.specs.GuestViews.{IsGuestOn, IsNewGuestOn, IsSameGuestSeat};
    ghost use Rattle.kit_pool.specs.GuestViews.{guest_desk_of, guest_place_on, guests_with};
    ghost use Rattle.kit_pool.specs.Seats.{IsSized};
    ghost use Rattle.kit_pool.specs.Watching.{GuestPlans, IsGuestWithin};
    ghost use Rattle.kit_ground.specs.Guests.{WasSeen};

    /// The number of the guest. Guests are numbered after the federates.
    pub fn number(&self) -> u8
        ensures { result ≡ self.now.number }
    {
        self.number
    }

    /// How many federates there are.
    pub fn federates(&self) -> u8
        ensures { result ≡ self.now.federates }
    {
        self.federates
    }

    /// How many buffers each federate has.
    pub fn buffers(&self) -> u16
        ensures { result ≡ self.now.buffers }
    {
        self.buffers
    }

    /// Loads a word.
    pub fn load<F: Front, D: Plan, E: Event<P::View>>(
        &mut self,
        table: &SeatingTable<P, F>,
        at: usize,
        address: Address,
        _about: Deed,
    ) -> u64
        requires seat { IsGuestOn table.now.shared self.old }
        requires sized { IsSized (F.front self.old.federates) self.old.federates self.old.buffers
            table.now.shared.table_id }
        requires at { length (F.front self.old.federates) + at
            ≡ index_of self.old.federates self.old.buffers address }
        requires plan { GuestPlans P.rule E.next
            (guest_place_on P.first table.now.shared self.old) address D.deed }
        ensures same { IsSameGuestSeat self.old self.new }
        ensures place { guest_desk_of self.new
            ≡ place_after E.next (D.deed result)
            (guest_place_on P.first table.now.shared self.old) ∷ guests_with self.old }
        ensures told { WasSeen P.rule (guest_place_on P.first table.now.shared self.old) address
            result }
    {
        let seat = &mut self.seat;
        table.shared.load::<Sees<P, E, D>>(seat, at)
    }

    /// Takes another guest's seat in: this one has its places too from now on, behind its own.
    pub fn take_in<F: Front>(&mut self, table: &SeatingTable<P, F>, other: GuestSeat<P>)
        requires seat { IsGuestOn table.now.shared self.old }
        requires other { IsGuestOn table.now.shared other }
        requires some { HasWords table.now.shared }
        ensures same { IsSameGuestSeat self.old self.new }
        ensures places { guest_desk_of self.new ≡ guest_desk_of self.old ++ guest_desk_of other }
    {
        let seat = &mut self.seat;
        table.shared.join_seat::<OwnFirst>(seat, other.into_seat());
    }

    /// The seat of the table.
    pub fn into_seat(self) -> Seat<(), LinkedList<Place<P::View>>>
        ensures seat { result ≡ self.seat }
        ensures bare { self.seat.me.1 ≡ [] }
    {
        let GuestSeat {
            seat,
            number: _,
            federates: _,
            buffers: _,
        } = self;
        seat
    }

    /// The first of the places that are still to be dealt, of as many as there are in all, goes to
    /// a guest's seat of its own.
    pub(crate) fn part<F: Front>(
        table: &SeatingTable<P, F>,
        rest: &mut Seat<(), LinkedList<Place<P::View>>>,
        number: u8,
        federates: u8,
        buffers: u16,
        _all: u8,
    ) -> GuestSeat<P>
        requires laid { IsLaidFor table.now.shared federates buffers }
        requires within { IsGuestWithin number federates buffers }
        requires all { number < _all }
        requires rest { IsToDeal P.first table.now.shared number _all rest.old }
        ensures rest { IsToDeal P.first table.now.shared (number + 1) _all rest.new }
        ensures seat { IsNewGuestOn P.first table.now.shared number result }
    {
        let seat = table.shared.split_seat::<OwnFirst>(rest);
        GuestSeat {
            seat,
            number,
            federates,
            buffers,
        }
    }
}
