//! The floor, and its seats.
ghost use Rattle.std.specs.Prelude.{◌≡◌, ◌≤◌, []};
ghost use Rattle.kit_pool.specs.Dealing.{IsLaidFor};
ghost use Rattle.kit_pool.specs.Seats.{IsSized};

use crate::{FloorAccount, FloorGround};
use kit_ground::{Protocol, zeros};
use kit_known::Known;
use kit_pool::{Front, GuestSeat, SeatingTable, TableSeat, gather, gather_guests, lay};
use std::alloc::{AllocError, Global};

/// A floor has all its words on its table.
pub struct Whole;

impl Front for Whole {
    ghost use Rattle.std.specs.Prelude.{[]};

    ghost front = { λ n. [] };
}

/// A floor that threads share.
#[derive(Drop)]
pub struct TableFloor<P: Protocol> {
    pub(crate) table: SeatingTable<P, Whole>,
    federates: u8,
    buffers: u16,
    ghost laid: { IsLaidFor table.shared federates buffers },
    ghost within: { (1 ≤ federates) × (federates ≤ 16) × (1 ≤ buffers) × (buffers ≤ 1024) },
    ghost sized: { IsSized [] table.shared.key.federates table.shared.key.buffers
        table.shared.table_id },
}

impl<P: Protocol> TableFloor<P> {
    ghost use Rattle.std.specs.Prelude.{◌≡◌, ℕ, ◌+◌, ◌≤◌, length, IfOk};
    ghost use mathlib.Core.Option.{some};
    ghost use lib.ListN.{get_elem?};
    ghost use Rattle.kit_ground.specs.Rules.{zero_memory, places_at_first};
    ghost use Rattle.kit_ground.specs.Words.{RuledWords};
    ghost use Rattle.kit_pool.specs.GuestViews.{guest_desk_of};
    ghost use Rattle.kit_pool.specs.Watching.{GuestsSee};
    ghost use Rattle.kit_floor.specs.Accounts.{memory_at_end};
    ghost use Rattle.kit_floor.specs.FloorViews.{CanStand, IsNewSeatOf, buffers_of, federates_of};
    ghost use Rattle.kit_floor.specs.FloorViews.{opening_of, place_of};
    ghost use Rattle.kit_floor.specs.GuestViews.{IsGuestOf, IsNewGuestOf};

    /// A floor whose words are 0, with the client's opening, and its seats in the order of the
    /// federates.
    ///
    /// It fails only for want of memory.
    pub fn lay(
        alloc: Global,
        federates: u8,
        buffers: u16,
        opening: &Known<P::Opening>,
    ) -> Result<(TableFloor<P>, Vec<TableSeat<P>>), AllocError>
        requires federates { (1 ≤ federates) × (federates ≤ 16) }
        requires buffers { (1 ≤ buffers) × (buffers ≤ 1024) }
        requires rule { P.rule.holds zero_memory
            (places_at_first (P.first opening.now.value) federates buffers) }
        ensures federates { IfOk result (λ r. federates_of r.0 ≡ federates) }
        ensures buffers { IfOk result (λ r. buffers_of r.0 ≡ buffers) }
        ensures opening { IfOk result (λ r. opening_of r.0 ≡ opening.now.value) }
        ensures many { IfOk result (λ r. length r.1.items ≡ federates) }
        ensures seats { IfOk result (λ r. (k : ℕ) (s : _) → get_elem? r.1.items k ≡ some s
            → IsNewSeatOf P.first r.0 k s) }
    {
        let (floor, seats, _) = TableFloor::lay_for(alloc, federates, buffers, 0, opening)?;
        Ok((floor, seats))
    }

    /// A floor as by `lay`, and beside the seats of the federates those of so many guests, who are
    /// numbered after the federates.
    ///
    /// It fails only for want of memory.
    pub fn lay_watched(
        alloc: Global,
        federates: u8,
        buffers: u16,
        guests: u8,
        opening: &Known<P::Opening>,
    ) -> Result<(TableFloor<P>, Vec<TableSeat<P>>, Vec<GuestSeat<P>>), AllocError>
        requires federates { (1 ≤ federates) × (federates ≤ 16) }
        requires buffers { (1 ≤ buffers) × (buffers ≤ 1024) }
        requires guests { (1 ≤ guests) × (guests ≤ 4) }
        requires rule { P.rule.holds zero_memory
            (places_at_first (P.first opening.now.value) federates buffers) }
        requires sees { GuestsSee P.rule (P.first opening.now.value) federates buffers guests }
        ensures federates { IfOk result (λ r. federates_of r.0 ≡ federates) }
        ensures buffers { IfOk result (λ r. buffers_of r.0 ≡ buffers) }
        ensures opening { IfOk result (λ r. opening_of r.0 ≡ opening.now.value) }
        ensures many { IfOk result (λ r. length r.1.items ≡ federates) }
        ensures seats { IfOk result (λ r. (k : ℕ) (s : _) → get_elem? r.1.items k ≡ some s
            → IsNewSeatOf P.first r.0 k s) }
        ensures watchers { IfOk result (λ r. length r.2.items ≡ guests) }
        ensures guests { IfOk result (λ r. (k : ℕ) (s : _) → get_elem? r.2.items k ≡ some s
            → IsNewGuestOf P.first r.0 (federates + k) s) }
    {
        TableFloor::lay_for(alloc, federates, buffers, guests, opening)
    }

    /// A floor with this many guests, if any.
    fn lay_for(
        alloc: Global,
        federates: u8,
        buffers: u16,
        guests: u8,
        opening: &Known<P::Opening>,
    ) -> Result<(TableFloor<P>, Vec<TableSeat<P>>, Vec<GuestSeat<P>>), AllocError>
        requires federates { (1 ≤ federates) × (federates ≤ 16) }
        requires buffers { (1 ≤ buffers) × (buffers ≤ 1024) }
        requires guests { guests ≤ 4 }
        requires rule { P.rule.holds zero_memory
            (places_at_first (P.first opening.now.value) federates buffers) }
        requires sees { GuestsSee P.rule (P.first opening.now.value) federates buffers guests }
        ensures federates { IfOk result (λ r. federates_of r.0 ≡ federates) }
        ensures buffers { IfOk result (λ r. buffers_of r.0 ≡ buffers) }
        ensures opening { IfOk result (λ r. opening_of r.0 ≡ opening.now.value) }
        ensures many { IfOk result (λ r. length r.1.items ≡ federates) }
        ensures seats { IfOk result (λ r. (k : ℕ) (s : _) → get_elem? r.1.items k ≡ some s
            → IsNewSeatOf P.first r.0 k s) }
        ensures watchers { IfOk result (λ r. length r.2.items ≡ guests) }
        ensures guests { IfOk result (λ r. (k : ℕ) (s : _) → get_elem? r.2.items k ≡ some s
            → IsNewGuestOf P.first r.0 (federates + k) s) }
    {
        let words = zeros(alloc, federates, buffers)?;
        let (table, seats, watchers) = lay::<P, Whole>(
            alloc,
            words.as_slice(),
            federates,
            buffers,
            guests,
            opening,
        )?;
        let floor = TableFloor {
            table,
            federates,
            buffers,
        };
        Ok((floor, seats, watchers))
    }

    /// Seats a federate on the floor.
    pub fn stand(&self, seat: TableSeat<P>) -> FloorGround<'_, P>
        requires { CanStand self.now seat }
        ensures seat { result.seat ≡ seat }
        ensures floor { result.floor.now ≡ self.now }
    {
        FloorGround { floor: self, seat }
    }

    /// Takes all seats of federates in, whatever their order is; guests are let go. No thread
    /// shares the floor any more.
    pub fn close(self, seats: Vec<TableSeat<P>>) -> FloorAccount<P>
        requires count { length seats.items ≡ federates_of self }
        requires seats { (k : ℕ) (s : _) → get_elem? seats.items k ≡ some s → CanStand self s }
        ensures buffers { result.buffers ≡ buffers_of self }
        ensures many { length result.places ≡ federates_of self }
        ensures each { (k : ℕ) (s : _) → get_elem? seats.items k ≡ some s
            → let p = place_of P.first self s in get_elem? result.places p.own.number ≡ some p }
        ensures rules { RuledWords P.rule result.buffers result.words result.places }
    {
        let TableFloor {
            table,
            federates,
            buffers,
        } = self;
        let all = gather::<P, Whole>(&table, seats);
        let account = FloorAccount::of(table, all, federates, buffers);
        account.ruled();
        account
    }

    /// Takes all seats of federates in, as `close` does, and those of guests. What the client asks
    /// of guests holds of each guest at the end.
    pub fn close_watched(
        self,
        seats: Vec<TableSeat<P>>,
        guests: Vec<GuestSeat<P>>,
    ) -> FloorAccount<P>
        requires count { length seats.items ≡ federates_of self }
        requires seats { (k : ℕ) (s : _) → get_elem? seats.items k ≡ some s → CanStand self s }
        requires guests { (k : ℕ) (s : _) → get_elem? guests.items k ≡ some s → IsGuestOf self s }
        ensures buffers { result.buffers ≡ buffers_of self }
        ensures many { length result.places ≡ federates_of self }
        ensures each { (k : ℕ) (s : _) → get_elem? seats.items k ≡ some s
            → let p = place_of P.first self s in get_elem? result.places p.own.number ≡ some p }
        ensures rules { RuledWords P.rule result.buffers result.words result.places }
        ensures sees { (k : ℕ) (s : _) → get_elem? guests.items k ≡ some s → (j : ℕ) (g : _)
            → get_elem? (guest_desk_of s) j ≡ some g
            → P.rule.sees (memory_at_end result) result.places g }
    {
        let TableFloor {
            table,
            federates,
            buffers,
        } = self;
        let mut all = gather::<P, Whole>(&table, seats);
        gather_guests::<P, Whole>(&table, &mut all, guests);
        let account = FloorAccount::of(table, all, federates, buffers);
        account.ruled();
        account
    }
}
