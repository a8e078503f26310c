//! Tables are laid, and their seats dealt and taken in.
ghost use Rattle.std.specs.Prelude.{◌≡◌, ℕ, ◌+◌, ◌<◌, ◌≤◌, ◌++◌, length, map, replicate, IfOk};
ghost use mathlib.Core.Option.{some};
ghost use lib.ListN.{get_elem?};
ghost use Rattle.kit_ground.specs.Layout.{size_of};
ghost use Rattle.kit_ground.specs.Rules.{zero_memory, places_at_first};
ghost use Rattle.kit_pool.specs.Dealing.{GuestIsOf, HasWords, IsLaidFor, IsOf, IsToDeal};
ghost use Rattle.kit_pool.specs.GuestViews.{IsNewGuestOn, guest_desk_of};
ghost use Rattle.kit_pool.specs.Seats.{IsSized, desks_taken_in};
ghost use Rattle.kit_pool.specs.SeatViews.{IsNewSeatOn, desk_of};
ghost use Rattle.kit_pool.specs.Watching.{GuestsSee};

use crate::guest::GuestSeat;
use crate::rule::{Front, Laid, SeatingTable};
use crate::seat::TableSeat;
use atomic_table::{Seat, Table};
use kit_ground::{Place, Protocol};
use kit_known::Known;
use std::alloc::{AllocError, Global};
use std::collections::LinkedList;

/// A table whose words are these, and its seats: those of the federates in their order, and those
/// of the guests.
pub fn lay<P: Protocol, F: Front>(
    alloc: Global,
    words: &[u64],
    federates: u8,
    buffers: u16,
    guests: u8,
    opening: &Known<P::Opening>,
) -> Result<(SeatingTable<P, F>, Vec<TableSeat<P>>, Vec<GuestSeat<P>>), AllocError>
    requires federates { (1 ≤ federates) × (federates ≤ 16) }
    requires buffers { (1 ≤ buffers) × (buffers ≤ 1024) }
    requires guests { guests ≤ 4 }
    requires words { F.front federates ++ words.now ≡ replicate (size_of federates buffers) 0 }
    requires some { 0 < length words.now }
    requires rule { P.rule.holds zero_memory
        (places_at_first (P.first opening.now.value) federates buffers) }
    requires sees { GuestsSee P.rule (P.first opening.now.value) federates buffers guests }
    ensures laid { IfOk result (λ r. IsLaidFor r.0.shared federates buffers) }
    ensures opening { IfOk result (λ r. r.0.shared.key.opening.value ≡ opening.now.value) }
    ensures words { IfOk result (λ r. r.0.shared.table_id.words ≡ length words.now) }
    ensures sized { IfOk result (λ r. IsSized
        (F.front federates) federates buffers r.0.shared.table_id) }
    ensures many { IfOk result (λ r. length r.1.items ≡ federates) }
    ensures seats { IfOk result (λ r. (k : ℕ) (s : _) → get_elem? r.1.items k ≡ some s
        → IsNewSeatOn P.first r.0.shared k s) }
    ensures watchers { IfOk result (λ r. length r.2.items ≡ guests) }
    ensures guests { IfOk result (λ r. (k : ℕ) (s : _) → get_elem? r.2.items k ≡ some s
        → IsNewGuestOn P.first r.0.shared (federates + k) s) }
{
    let about = Laid {
        federates,
        buffers,
        guests,
        opening: opening.again(),
    };
    let (table, mut rest) = Table::of_words(alloc, words, &about)?;
    let all = federates + guests;
    let seats = deal::<P, F>(alloc, &table, &mut rest, federates, buffers, all)?;
    let watchers = deal_guests::<P, F>(alloc, &table, rest, federates, buffers, all)?;
    Ok((table, seats, watchers))
}

/// A seat for each federate.
fn deal<P: Protocol, F: Front>(
    alloc: Global,
    table: &SeatingTable<P, F>,
    rest: &mut Seat<(), LinkedList<Place<P::View>>>,
    federates: u8,
    buffers: u16,
    all: u8,
) -> Result<Vec<TableSeat<P>>, AllocError>
    requires laid { IsLaidFor table.now.shared federates buffers }
    requires within { (federates ≤ 16) × (buffers ≤ 1024) }
    requires all { federates ≤ all }
    requires rest { IsToDeal P.first table.now.shared 0 all rest.old }
    ensures many { IfOk result (λ r. length r.items ≡ federates) }
    ensures seats { IfOk result (λ r. (k : ℕ) (s : _) → get_elem? r.items k ≡ some s
        → IsNewSeatOn P.first table.now.shared k s) }
    ensures rest { IfOk result (λ r. IsToDeal P.first table.now.shared federates all rest.new) }
{
    let mut seats = Vec::new(alloc);
    for number in 0..federates {
        let seat = TableSeat::part::<F>(table, rest, number, federates, buffers, all);
        seats.push(seat)?;
    }
    Ok(seats)
}

/// A seat for each guest, after those of the federates.
fn deal_guests<P: Protocol, F: Front>(
    alloc: Global,
    table: &SeatingTable<P, F>,
    mut rest: Seat<(), LinkedList<Place<P::View>>>,
    federates: u8,
    buffers: u16,
    all: u8,
) -> Result<Vec<GuestSeat<P>>, AllocError>
    requires laid { IsLaidFor table.now.shared federates buffers }
    requires within { (federates ≤ 16) × (buffers ≤ 1024) }
    requires all { federates ≤ all }
    requires rest { IsToDeal P.first table.now.shared federates all rest }
    ensures many { IfOk result (λ r. federates + length r.items ≡ all) }
    ensures seats { IfOk result (λ r. (k : ℕ) (s : _) → get_elem? r.items k ≡ some s
        → IsNewGuestOn P.first table.now.shared (federates + k) s) }
{
    let mut guests = Vec::new(alloc);
    for number in federates..all {
        let guest = GuestSeat::part::<F>(table, &mut rest, number, federates, buffers, all);
        guests.push(guest)?;
    }
    Ok(guests)
}

/// Takes all seats in, the last first.
pub fn gather<P: Protocol, F: Front>(
    table: &SeatingTable<P, F>,
    mut seats: Vec<TableSeat<P>>,
) -> TableSeat<P>
    requires any { 0 < length seats.items }
    requires some { HasWords table.now.shared }
    requires of_it { (k : ℕ) (s : _) → get_elem? seats.items k ≡ some s → IsOf table.now.shared s }
    ensures of_it { IsOf table.now.shared result }
    ensures places { desk_of result ≡ desks_taken_in (map desk_of seats.items) }
{
    let Some(mut all) = seats.pop() else {
        unreachable!()
    };
    while let Some(seat) = seats.pop() {
        all.take_in::<F>(table, seat);
    }
    all
}

/// Takes the seats of guests in, the last first.
pub fn gather_guests<P: Protocol, F: Front>(
    table: &SeatingTable<P, F>,
    all: &mut TableSeat<P>,
    mut guests: Vec<GuestSeat<P>>,
)
    requires some { HasWords table.now.shared }
    requires seat { IsOf table.now.shared all.old }
    requires of_it { (k : ℕ) (s : _) → get_elem? guests.items k ≡ some s
        → GuestIsOf table.now.shared s }
    ensures of_it { IsOf table.now.shared all.new }
    ensures places { desk_of all.new
        ≡ desk_of all.old ++ desks_taken_in (map guest_desk_of guests.items) }
{
    while let Some(guest) = guests.pop() {
        all.take_in_guest::<F>(table, guest);
    }
}
