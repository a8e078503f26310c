//! A floor that no thread shares any more.
ghost use Rattle.std.specs.Prelude.{◌≡◌, ℕ, ◌<◌, ◌≤◌, length};
ghost use mathlib.Core.Option.{some};
ghost use lib.ListN.{get_elem?};
ghost use Rattle.kit_ground.specs.declared.address.Address.TheVariants.{Register};
ghost use Rattle.kit_ground.specs.Words.{RuledWords};
ghost use Rattle.kit_pool.specs.Dealing.{IsLaidFor, IsOf};
ghost use Rattle.kit_pool.specs.SeatViews.{desk_of};
ghost use Rattle.kit_floor.specs.Accounts.{count_of_federates, memory_at_end};

use crate::Whole;
use atomic_table::Closed;
use kit_ground::{Address, Place, Protocol, Reg};
use kit_known::{Known, Reads};
use kit_pool::{SeatingTable, TableSeat};
use std::alloc::Global;
use std::collections::LinkedList;
use std::marker::{Model, PhantomData};

/// What a floor came to: its words, and what each seat knows.
pub struct FloorAccount<P: Protocol> {
    closed: Closed<(), Global>,
    federates: u8,
    buffers: u16,
    places: Known<LinkedList<Place<P::View>>>,
}

impl<P: Protocol> Model for FloorAccount<P> {
    ghost use Rattle.std.specs.Prelude.{◌≡◌, ◌≤◌, length};
    ghost use Rattle.std.specs.Mem.Slots.{slots_items, slots_len, IsFull};
    ghost use Rattle.kit_ground.specs.Words.{RuledWords};
    ghost use Rattle.kit_floor.specs.Accounts.{Account};

    ghost Value = { Account P.View };

    ghost view = { λ a. record {
      buffers = a.buffers;
      words = slots_items a.closed.words;
      places = a.places.value;
    } };

    ghost invariant = { λ a. RuledWords P.rule a.buffers (slots_items a.closed.words) a.places.value
        × (length a.places.value ≡ a.federates) × IsFull a.closed.words
        × (slots_len a.closed.slots ≡ 0) };
}

/// A seat that has taken all others in, of so many federates.
#[derive(Drop)]
struct Ending<P: Protocol> {
    all: TableSeat<P>,
    federates: u8,
}

/// The places of all federates, in their order.
struct AllPlaces<P> {
    of: PhantomData<P>,
}

impl<P: Protocol> Reads<Ending<P>, LinkedList<Place<P::View>>> for AllPlaces<P> {
    ghost use Rattle.kit_floor.specs.Accounts.{places_in_order};

    ghost read = { λ e. places_in_order e.federates e.all.seat.me.0 };
}

impl<P: Protocol> FloorAccount<P> {
    /// Of a table that a seat has the places of all federates of, and those of guests.
    pub(crate) fn of(
        table: SeatingTable<P, Whole>,
        all: TableSeat<P>,
        federates: u8,
        buffers: u16,
    ) -> FloorAccount<P>
        requires of_it { IsOf table.shared all }
        requires laid { IsLaidFor table.shared federates buffers }
        requires slots { table.shared.table_id.slots ≡ 0 }
        requires places { count_of_federates federates (desk_of all) ≡ federates }
        ensures buffers { result.buffers ≡ buffers }
        ensures many { length result.places ≡ federates }
        ensures each { (k : ℕ) (p : _) → get_elem? (desk_of all) k ≡ some p
            → p.own.number < federates → get_elem? result.places p.own.number ≡ some p }
        ensures sees { (k : ℕ) (p : _) → get_elem? (desk_of all) k ≡ some p
            → federates ≤ p.own.number → P.rule.sees (memory_at_end result) result.places p }
    {
        let ending = Ending { all, federates };
        let places = Known::of::<Ending<P>, AllPlaces<P>>(&ending);
        let Ending { all, federates } = ending;
        let closed = table.close_with(all.into_seat());
        FloorAccount {
            closed,
            federates,
            buffers,
            places,
        }
    }

    /// Both rules held at the end.
    pub fn ruled(&self)
        ensures { RuledWords P.rule self.now.buffers self.now.words self.now.places }
    {
        let _ = &self.places;
    }

    /// The closing word of a federate's clock.
    pub fn clock(&self, federate: u8) -> u64
        requires { federate < length self.now.places }
        ensures { result ≡ memory_at_end self.now
            (Register (record { owner = federate; slot = 12 })) }
    {
        let clock = Address::Register(Reg {
            owner: federate,
            slot: 12,
        });
        self.closed.word(clock.index(self.federates, self.buffers))
    }
}

impl<P: Protocol> Drop for FloorAccount<P> {
    fn drop(self) {
        let FloorAccount {
            closed,
            federates: _,
            buffers: _,
            places: _,
        } = self;
        closed.free();
    }
}
