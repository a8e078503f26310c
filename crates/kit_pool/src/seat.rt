//! Seats of a table, and the steps that they make on its words.
ghost use Rattle.std.specs.Prelude.{◌≡◌, []};
ghost use Rattle.std.specs.Int.Count.{ones};
ghost use Rattle.kit_pool.specs.Seats.{IsOwn, IsWithin};

use crate::guest::GuestSeat;
use crate::rule::{Finds, FindsZero, Front, OwnFirst, Plan, SeatingTable, Stores};
use atomic_table::Seat;
use kit_ground::{Address, Deed, Event, Place, Protocol};
use std::collections::LinkedList;

/// How many federates there are in a mask.
pub fn readers(mask: u16) -> u64
    ensures { result ≡ ones mask }
{
    u64::from(mask.count_ones())
}

/// A seat of a table, which stands for one federate, and for those of the seats that it took in.
#[derive(Drop)]
pub struct TableSeat<P: Protocol> {
    seat: Seat<(), LinkedList<Place<P::View>>>,
    number: u8,
    federates: u8,
    buffers: u16,
    ghost within: { IsWithin number federates buffers },
    ghost bare: { seat.me.1 ≡ [] },
    ghost own: { IsOwn number federates buffers seat.me.0 },
}

impl<P: Protocol> TableSeat<P> {
    ghost use Rattle.std.specs.Prelude.{◌≡◌, ℕ, ◌+◌, ◌-◌, ◌<◌, ◌≤◌, ◌%◌, ◌^◌, [], ◌∷◌, ◌++◌};
    ghost use Rattle.std.specs.Prelude.{bit_or, length, true, false};
    ghost use Rattle.kit_ground.specs.Layout.{index_of};
    ghost use Rattle.kit_ground.specs.Rules.{WasFound};
    ghost use Rattle.kit_ground.specs.Steps.{place_after};
    ghost use Rattle.kit_pool.specs.Dealing.{GuestIsOf, HasWords, IsLaidFor, IsOf, IsToDeal};
    ghost use Rattle.kit_pool.specs.GuestViews.{guest_desk_of};
    ghost use Rattle.kit_pool.specs.Seating.{Plans};
    ghost use Rattle.kit_pool.specs.Seats.{IsSized, IsWithin};
    ghost use Rattle.kit_pool.specs.SeatViews.{IsNewSeatOn, IsSameTableSeat, IsSeatOn, desk_of};
    ghost use Rattle.kit_pool.specs.SeatViews.{others_with, place_on};

    /// The number of the seat's federate.
    pub fn number(&self) -> u8
        ensures { result ≡ self.now.number }
    {
        self.number
    }

    /// How many federates there are.
    pub fn federates(&self) -> u8
        ensures { result ≡ self.now.federates }
    {
        self.federates
    }

    /// How many buffers each federate has.
    pub fn buffers(&self) -> u16
        ensures { result ≡ self.now.buffers }
    {
        self.buffers
    }

    /// Loads a word.
    pub fn load<F: Front, D: Plan, E: Event<P::View>>(
        &mut self,
        table: &SeatingTable<P, F>,
        at: usize,
        address: Address,
        _about: Deed,
    ) -> u64
        requires seat { IsSeatOn table.now.shared self.old }
        requires sized { IsSized (F.front self.old.federates) self.old.federates self.old.buffers
            table.now.shared.table_id }
        requires at { length (F.front self.old.federates) + at
            ≡ index_of self.old.federates self.old.buffers address }
        requires plan { Plans P.rule E.next (place_on P.first table.now.shared self.old) address
            (λ n. n) D.deed }
        ensures same { IsSameTableSeat self.old self.new }
        ensures place { desk_of self.new
            ≡ place_after E.next (D.deed result)
            (place_on P.first table.now.shared self.old) ∷ others_with self.old }
        ensures told { WasFound P.rule (place_on P.first table.now.shared self.old) address result }
    {
        let seat = &mut self.seat;
        table.shared.load::<Finds<P, E, D>>(seat, at)
    }

    /// Swaps a word for 0, or finds by a load that it is 0. Whichever it is, it is one step: a load
    /// that finds another word is none.
    ///
    /// A load leaves the word's cache line with those who read it, and a swap takes it from them.
    pub fn swap<F: Front, D: Plan, E: Event<P::View>>(
        &mut self,
        table: &SeatingTable<P, F>,
        at: usize,
        address: Address,
        _about: Deed,
    ) -> u64
        requires seat { IsSeatOn table.now.shared self.old }
        requires sized { IsSized (F.front self.old.federates) self.old.federates self.old.buffers
            table.now.shared.table_id }
        requires at { length (F.front self.old.federates) + at
            ≡ index_of self.old.federates self.old.buffers address }
        requires plan { Plans P.rule E.next (place_on P.first table.now.shared self.old) address
            (λ _. 0) D.deed }
        ensures same { IsSameTableSeat self.old self.new }
        ensures place { desk_of self.new
            ≡ place_after E.next (D.deed result)
            (place_on P.first table.now.shared self.old) ∷ others_with self.old }
        ensures told { WasFound P.rule (place_on P.first table.now.shared self.old) address result }
    {
        if self.find_zero::<F, D, E>(table, at, address, _about) {
            return 0;
        }
        self.swap_word::<F, D, E>(table, at, address, _about)
    }

    /// Loads a word, and says whether it was 0: then the load was the step of a swap for 0.
    fn find_zero<F: Front, D: Plan, E: Event<P::View>>(
        &mut self,
        table: &SeatingTable<P, F>,
        at: usize,
        address: Address,
        _about: Deed,
    ) -> bool
        requires seat { IsSeatOn table.now.shared self.old }
        requires sized { IsSized (F.front self.old.federates) self.old.federates self.old.buffers
            table.now.shared.table_id }
        requires at { length (F.front self.old.federates) + at
            ≡ index_of self.old.federates self.old.buffers address }
        requires plan { Plans P.rule E.next (place_on P.first table.now.shared self.old) address
            (λ _. 0) D.deed }
        ensures same { IsSameTableSeat self.old self.new }
        ensures step { result ≡ true → desk_of self.new
            ≡ place_after E.next (D.deed 0)
            (place_on P.first table.now.shared self.old) ∷ others_with self.old }
        ensures told { result ≡ true → WasFound P.rule
            (place_on P.first table.now.shared self.old) address 0 }
        ensures no_step { result ≡ false → desk_of self.new ≡ desk_of self.old }
    {
        let seat = &mut self.seat;
        table.shared.load::<FindsZero<P, E, D>>(seat, at) == 0
    }

    /// Swaps a word for 0, whatever it is.
    fn swap_word<F: Front, D: Plan, E: Event<P::View>>(
        &mut self,
        table: &SeatingTable<P, F>,
        at: usize,
        address: Address,
        _about: Deed,
    ) -> u64
        requires seat { IsSeatOn table.now.shared self.old }
        requires sized { IsSized (F.front self.old.federates) self.old.federates self.old.buffers
            table.now.shared.table_id }
        requires at { length (F.front self.old.federates) + at
            ≡ index_of self.old.federates self.old.buffers address }
        requires plan { Plans P.rule E.next (place_on P.first table.now.shared self.old) address
            (λ _. 0) D.deed }
        ensures same { IsSameTableSeat self.old self.new }
        ensures place { desk_of self.new
            ≡ place_after E.next (D.deed result)
            (place_on P.first table.now.shared self.old) ∷ others_with self.old }
        ensures told { WasFound P.rule (place_on P.first table.now.shared self.old) address result }
    {
        let seat = &mut self.seat;
        table.shared.swap::<Finds<P, E, D>>(seat, at, 0)
    }

    /// Adds to a word.
    pub fn add<F: Front, D: Plan, E: Event<P::View>>(
        &mut self,
        table: &SeatingTable<P, F>,
        at: usize,
        more: u64,
        address: Address,
        _about: Deed,
    ) -> u64
        requires seat { IsSeatOn table.now.shared self.old }
        requires sized { IsSized (F.front self.old.federates) self.old.federates self.old.buffers
            table.now.shared.table_id }
        requires at { length (F.front self.old.federates) + at
            ≡ index_of self.old.federates self.old.buffers address }
        requires plan { Plans P.rule E.next (place_on P.first table.now.shared self.old) address
            (λ n. (n + more) % 2 ^ 64) D.deed }
        ensures same { IsSameTableSeat self.old self.new }
        ensures place { desk_of self.new
            ≡ place_after E.next (D.deed result)
            (place_on P.first table.now.shared self.old) ∷ others_with self.old }
        ensures told { WasFound P.rule (place_on P.first table.now.shared self.old) address result }
    {
        let seat = &mut self.seat;
        table.shared.fetch_add::<Finds<P, E, D>>(seat, at, more)
    }

    /// Subtracts 1 from a word.
    pub fn take_one<F: Front, D: Plan, E: Event<P::View>>(
        &mut self,
        table: &SeatingTable<P, F>,
        at: usize,
        address: Address,
        _about: Deed,
    ) -> u64
        requires seat { IsSeatOn table.now.shared self.old }
        requires sized { IsSized (F.front self.old.federates) self.old.federates self.old.buffers
            table.now.shared.table_id }
        requires at { length (F.front self.old.federates) + at
            ≡ index_of self.old.federates self.old.buffers address }
        requires plan { Plans P.rule E.next (place_on P.first table.now.shared self.old) address
            (λ n. (n + (2 ^ 64 - 1)) % 2 ^ 64) D.deed }
        ensures same { IsSameTableSeat self.old self.new }
        ensures place { desk_of self.new
            ≡ place_after E.next (D.deed result)
            (place_on P.first table.now.shared self.old) ∷ others_with self.old }
        ensures told { WasFound P.rule (place_on P.first table.now.shared self.old) address result }
    {
        let seat = &mut self.seat;
        table.shared.fetch_sub::<Finds<P, E, D>>(seat, at, 1)
    }

    /// Joins a word with bits.
    pub fn join_bit<F: Front, D: Plan, E: Event<P::View>>(
        &mut self,
        table: &SeatingTable<P, F>,
        at: usize,
        bits: u64,
        address: Address,
        _about: Deed,
    ) -> u64
        requires seat { IsSeatOn table.now.shared self.old }
        requires sized { IsSized (F.front self.old.federates) self.old.federates self.old.buffers
            table.now.shared.table_id }
        requires at { length (F.front self.old.federates) + at
            ≡ index_of self.old.federates self.old.buffers address }
        requires plan { Plans P.rule E.next (place_on P.first table.now.shared self.old) address
            (λ n. bit_or n bits) D.deed }
        ensures same { IsSameTableSeat self.old self.new }
        ensures place { desk_of self.new
            ≡ place_after E.next (D.deed result)
            (place_on P.first table.now.shared self.old) ∷ others_with self.old }
        ensures told { WasFound P.rule (place_on P.first table.now.shared self.old) address result }
    {
        let seat = &mut self.seat;
        table.shared.fetch_or::<Finds<P, E, D>>(seat, at, bits)
    }

    /// Stores a word.
    pub fn store<F: Front, D: Plan, E: Event<P::View>>(
        &mut self,
        table: &SeatingTable<P, F>,
        at: usize,
        word: u64,
        address: Address,
        _about: Deed,
    )
        requires seat { IsSeatOn table.now.shared self.old }
        requires sized { IsSized (F.front self.old.federates) self.old.federates self.old.buffers
            table.now.shared.table_id }
        requires at { length (F.front self.old.federates) + at
            ≡ index_of self.old.federates self.old.buffers address }
        requires plan { Plans P.rule E.next (place_on P.first table.now.shared self.old) address
            (λ _. word) (λ _. D.deed word) }
        ensures same { IsSameTableSeat self.old self.new }
        ensures place { desk_of self.new
            ≡ place_after E.next (D.deed word)
            (place_on P.first table.now.shared self.old) ∷ others_with self.old }
        ensures told { (found : ℕ) × WasFound P.rule
            (place_on P.first table.now.shared self.old) address found }
    {
        let seat = &mut self.seat;
        table.shared.store::<Stores<P, E, D>>(seat, at, word);
    }

    /// Takes another seat in: this one has its places too from now on, behind its own.
    pub fn take_in<F: Front>(&mut self, table: &SeatingTable<P, F>, other: TableSeat<P>)
        requires seat { IsOf table.now.shared self.old }
        requires other { IsOf table.now.shared other }
        requires some { HasWords table.now.shared }
        ensures same { IsSameTableSeat self.old self.new }
        ensures places { desk_of self.new ≡ desk_of self.old ++ desk_of other }
    {
        let TableSeat {
            seat: theirs,
            number: _,
            federates: _,
            buffers: _,
        } = other;
        let seat = &mut self.seat;
        table.shared.join_seat::<OwnFirst>(seat, theirs);
    }

    /// Takes a guest's seat in, as where the table is to be closed.
    pub(crate) fn take_in_guest<F: Front>(
        &mut self,
        table: &SeatingTable<P, F>,
        guest: GuestSeat<P>,
    )
        requires seat { IsOf table.now.shared self.old }
        requires guest { GuestIsOf table.now.shared guest }
        requires some { HasWords table.now.shared }
        ensures same { IsSameTableSeat self.old self.new }
        ensures places { desk_of self.new ≡ desk_of self.old ++ guest_desk_of guest }
    {
        let seat = &mut self.seat;
        table.shared.join_seat::<OwnFirst>(seat, guest.into_seat());
    }

    /// The seat of the table.
    pub fn into_seat(self) -> Seat<(), LinkedList<Place<P::View>>>
        ensures seat { result ≡ self.seat }
        ensures bare { self.seat.me.1 ≡ [] }
    {
        let TableSeat {
            seat,
            number: _,
            federates: _,
            buffers: _,
        } = self;
        seat
    }

    /// The first of the places that are still to be dealt, of as many as there are in all, goes to
    /// a seat of its own.
    pub(crate) fn part<F: Front>(
        table: &SeatingTable<P, F>,
        rest: &mut Seat<(), LinkedList<Place<P::View>>>,
        number: u8,
        federates: u8,
        buffers: u16,
        _all: u8,
    ) -> TableSeat<P>
        requires laid { IsLaidFor table.now.shared federates buffers }
        requires within { IsWithin number federates buffers }
        requires all { federates ≤ _all }
        requires rest { IsToDeal P.first table.now.shared number _all rest.old }
        ensures rest { IsToDeal P.first table.now.shared (number + 1) _all rest.new }
        ensures seat { IsNewSeatOn P.first table.now.shared number result }
    {
        let seat = table.shared.split_seat::<OwnFirst>(rest);
        TableSeat {
            seat,
            number,
            federates,
            buffers,
        }
    }
}
