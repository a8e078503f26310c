//! Buffers and mail by themselves, without a client.
ghost use Rattle.std.specs.Prelude.{◌≡◌, ◌<◌, ◌≤◌, ◌++◌, length, replicate, IfOk};
ghost use Rattle.kit_ground.specs.Layout.{size_of};
ghost use Rattle.kit_pool.specs.Pools.{idle_registers};
ghost use Rattle.kit_pool.specs.Seats.{IsSized};

use crate::dealing::lay;
use crate::rule::{Front, SeatingTable};
use crate::seat::{TableSeat, readers};
use kit_ground::{Address, Bare, Deed, Unmoved, mail_bit, mail_word};
use kit_known::Known;
use std::alloc::{AllocError, Global};
use std::marker::Brand;

/// A pool has no registers and no stop word.
pub struct Registers;

impl Front for Registers {
    ghost use Rattle.kit_pool.specs.Pools.{idle_registers};

    ghost front = { idle_registers };
}

/// The counts, the contents and the mail of a floor, on words that threads share.
#[derive(Drop)]
pub struct Pool {
    table: SeatingTable<Bare, Registers>,
    ghost some: { 0 < table.shared.table_id.words },
    ghost sized: { IsSized (idle_registers table.shared.key.federates) table.shared.key.federates
        table.shared.key.buffers table.shared.table_id },
}

/// A seat of a pool.
pub type PoolSeat = TableSeat<Bare>;

impl Pool {
    ghost use Rattle.std.specs.Prelude.{◌≡◌, ℕ, ◌≤◌, length, IfOk};
    ghost use mathlib.Core.Option.{some};
    ghost use lib.ListN.{get_elem?};
    ghost use Rattle.kit_pool.specs.PoolViews.{IsNewSeatOf, buffers_of, federates_of};

    /// A pool whose buffers are free, and its seats in the order of the federates.
    ///
    /// It fails only for want of memory.
    pub fn lay(
        alloc: Global,
        federates: u8,
        buffers: u16,
    ) -> Result<(Pool, Vec<PoolSeat>), AllocError>
        requires federates { (1 ≤ federates) × (federates ≤ 16) }
        requires buffers { (1 ≤ buffers) × (buffers ≤ 1024) }
        ensures federates { IfOk result (λ r. federates_of r.0 ≡ federates) }
        ensures buffers { IfOk result (λ r. buffers_of r.0 ≡ buffers) }
        ensures many { IfOk result (λ r. length r.1.items ≡ federates) }
        ensures seats { IfOk result (λ r. (k : ℕ) (s : _) → get_elem? r.1.items k ≡ some s
            → IsNewSeatOf r.0 k s) }
    {
        let words = zeros(alloc, federates, buffers)?;
        let (table, seats, _) = lay::<Bare, Registers>(
            alloc,
            words.as_slice(),
            federates,
            buffers,
            0,
            &Known::new(&()),
        )?;
        Ok((Pool { table }, seats))
    }
}

#[tactic(auto, unfolding(crate::specs::Pools::idle_registers, kit_ground::specs::Layout::mail_words))]
/// The words of a new pool.
fn zeros(alloc: Global, federates: u8, buffers: u16) -> Result<Vec<u64>, AllocError>
    requires some { (1 ≤ federates) × (1 ≤ buffers) }
    requires few { federates ≤ 16 }
    requires small { buffers ≤ 1024 }
    ensures all { IfOk result (λ words. idle_registers federates ++ words.items
        ≡ replicate (size_of federates buffers) 0) }
    ensures some { IfOk result (λ words. 0 < length words.items) }
{
    let n = usize::from(federates);
    let b = usize::from(buffers);
    let m = (b + 63) / 64;
    let mut words = Vec::new(alloc);
    words.resize(m * (n * n) + b * n + b * n * 2, 0)?;
    Ok(words)
}

impl TableSeat<Bare> {
    ghost use Rattle.std.specs.Prelude.{◌≡◌, ◌≢◌, ℕ, ◌+◌, ◌*◌, ◌/◌, ◌<◌, ◌≤◌, ◌==◌, ◌∷◌, ◌++◌};
    ghost use Rattle.std.specs.Prelude.{true, length, slice_index};
    ghost use Rattle.std.specs.Int.{bit_at};
    ghost use Rattle.kit_ground.specs.declared.address.Address.TheVariants.{Mail, Count, Part};
    ghost use Rattle.kit_ground.specs.declared.place.Deed.TheVariants.{SawFree, Wrote, Charged};
    ghost use Rattle.kit_ground.specs.declared.place.Deed.TheVariants.{PostedTo, Collected};
    ghost use Rattle.kit_ground.specs.declared.place.Deed.TheVariants.{Released};
    ghost use Rattle.kit_ground.specs.Layout.{index_of, is_there, mail_words};
    ghost use Rattle.kit_ground.specs.Rules.{WasFound};
    ghost use Rattle.kit_ground.specs.Steps.{IsChargeable, IsMask, place_after, buffer_of};
    ghost use Rattle.kit_pool.specs.Pools.{as_it_is, bare_rule, idle_registers};
    ghost use Rattle.kit_pool.specs.PoolViews.{IsSeatOf, place_of};
    ghost use Rattle.kit_pool.specs.SeatViews.{IsSameTableSeat, desk_of, others_with};

    /// Where the word of an address stands in a pool.
    fn place_of(&self, address: Address) -> usize
        requires there { is_there self.now.federates self.now.buffers address ≡ true }
        requires pool { 13 * self.now.federates + 1 ≤ index_of self.now.federates self.now.buffers
            address }
        ensures { length (idle_registers self.now.federates) + result
            ≡ index_of self.now.federates self.now.buffers address }
    {
        let federates = self.federates();
        address.index(federates, self.buffers()) - (13 * usize::from(federates) + 1)
    }

    /// Whether the count of an own buffer was 0; then nobody reads it any more. No post of the
    /// buffer may be owed.
    pub fn look_free(&mut self, pool: &Pool, buffer: u16) -> bool
        requires seat { IsSeatOf pool.now self.old }
        requires buffer { buffer < (place_of self.old).own.buffers }
        requires posted { (buffer_of (place_of self.old).own.stock buffer).to_post ≡ 0 }
        ensures same { IsSameTableSeat self.old self.new }
        ensures place { desk_of self.new
            ≡ place_after as_it_is (SawFree buffer result)
            (place_of self.old) ∷ others_with self.old }
        ensures told { (count : ℕ) × WasFound bare_rule (place_of self.old)
            (Count (place_of self.old).own.number buffer) count × (result ≡ (count == 0)) }
    {
        let owner = self.number();
        let address = Address::Count { owner, buffer };
        let at = self.place_of(address);
        let about = Deed::SawFree { buffer, free: true };
        self.load::<Registers, Brand, Unmoved>(&pool.table, at, address, about) == 0
    }

    /// Stores a content word of an own buffer that was seen free.
    pub fn write_part(&mut self, pool: &Pool, buffer: u16, part: u8, word: u64)
        requires seat { IsSeatOf pool.now self.old }
        requires buffer { buffer < (place_of self.old).own.buffers }
        requires part { part < 2 }
        requires free { (buffer_of (place_of self.old).own.stock buffer).free ≡ true }
        ensures same { IsSameTableSeat self.old self.new }
        ensures place { desk_of self.new
            ≡ place_after as_it_is (Wrote buffer part word)
            (place_of self.old) ∷ others_with self.old }
        ensures told { (found : ℕ) × WasFound bare_rule (place_of self.old)
            (Part (place_of self.old).own.number buffer part) found }
    {
        let owner = self.number();
        let address = Address::Part {
            owner,
            buffer,
            part,
        };
        let at = self.place_of(address);
        let about = Deed::Wrote { buffer, part, word };
        self.store::<Registers, Brand, Unmoved>(&pool.table, at, word, address, about);
    }

    /// Counts the federates of the mask for an own buffer that was seen free and is written whole.
    pub fn charge(&mut self, pool: &Pool, buffer: u16, mask: u16)
        requires seat { IsSeatOf pool.now self.old }
        requires buffer { buffer < (place_of self.old).own.buffers }
        requires ready { IsChargeable (place_of self.old).own buffer }
        requires mask { IsMask (place_of self.old).own mask }
        ensures same { IsSameTableSeat self.old self.new }
        ensures place { desk_of self.new
            ≡ place_after as_it_is (Charged buffer mask)
            (place_of self.old) ∷ others_with self.old }
        ensures told { (count : ℕ) × WasFound bare_rule (place_of self.old)
            (Count (place_of self.old).own.number buffer) count }
    {
        let owner = self.number();
        let more = readers(mask);
        let address = Address::Count { owner, buffer };
        let at = self.place_of(address);
        let about = Deed::Charged { buffer, mask };
        self.add::<Registers, Brand, Unmoved>(&pool.table, at, more, address, about);
    }

    /// Posts an own buffer to a federate that it was charged for: sets its bit in its mail word.
    pub fn post(&mut self, pool: &Pool, buffer: u16, to: u8)
        requires seat { IsSeatOf pool.now self.old }
        requires buffer { buffer < (place_of self.old).own.buffers }
        requires to { to < (place_of self.old).own.federates }
        requires owed { bit_at (buffer_of (place_of self.old).own.stock buffer).to_post to ≡ 1 }
        ensures same { IsSameTableSeat self.old self.new }
        ensures place { desk_of self.new
            ≡ place_after as_it_is (PostedTo buffer to) (place_of self.old) ∷ others_with self.old }
        ensures told { (mail : ℕ) × WasFound bare_rule (place_of self.old)
            (Mail to (place_of self.old).own.number (buffer / 64)) mail }
    {
        let from = self.number();
        let word = mail_word(buffer);
        let bits = mail_bit(buffer);
        let address = Address::Mail { to, from, word };
        let at = self.place_of(address);
        let about = Deed::PostedTo { buffer, to };
        self.join_bit::<Registers, Brand, Unmoved>(&pool.table, at, bits, address, about);
    }

    /// Takes a mail word of another federate: bit `k` is for its buffer `64 * word + k`. The seat
    /// holds these buffers from now on.
    pub fn collect(&mut self, pool: &Pool, from: u8, word: u8) -> u64
        requires seat { IsSeatOf pool.now self.old }
        requires from { from < (place_of self.old).own.federates }
        requires other { from ≢ (place_of self.old).own.number }
        requires word { word < mail_words (place_of self.old).own.buffers }
        ensures same { IsSameTableSeat self.old self.new }
        ensures place { desk_of self.new
            ≡ place_after as_it_is (Collected from word result)
            (place_of self.old) ∷ others_with self.old }
        ensures told { WasFound bare_rule (place_of self.old)
            (Mail (place_of self.old).own.number from word) result }
    {
        let to = self.number();
        let address = Address::Mail { to, from, word };
        let at = self.place_of(address);
        let about = Deed::Collected {
            from,
            word,
            mail: 0,
        };
        self.swap::<Registers, Brand, Unmoved>(&pool.table, at, address, about)
    }

    /// Gives a buffer back: its count falls by 1, and the seat holds it no more.
    pub fn release(&mut self, pool: &Pool, from: u8, buffer: u16)
        requires seat { IsSeatOf pool.now self.old }
        requires from { from < (place_of self.old).own.federates }
        requires buffer { buffer < (place_of self.old).own.buffers }
        requires held { bit_at (slice_index (place_of self.old).own.stock.holds from) buffer ≡ 1 }
        ensures same { IsSameTableSeat self.old self.new }
        ensures place { desk_of self.new
            ≡ place_after as_it_is (Released from buffer)
            (place_of self.old) ∷ others_with self.old }
        ensures told { (count : ℕ) × WasFound bare_rule (place_of self.old)
            (Count from buffer) count }
    {
        let address = Address::Count {
            owner: from,
            buffer,
        };
        let at = self.place_of(address);
        let about = Deed::Released { from, buffer };
        self.take_one::<Registers, Brand, Unmoved>(&pool.table, at, address, about);
    }

    /// Takes another seat in, and keeps its federate's place behind its own. The other's view
    /// stands as spent.
    pub fn join(&mut self, pool: &Pool, other: PoolSeat)
        requires seat { IsSeatOf pool.now self.old }
        requires other { IsSeatOf pool.now other }
        ensures same { IsSameTableSeat self.old self.new }
        ensures places { desk_of self.new ≡ desk_of self.old ++ desk_of other }
    {
        self.take_in::<Registers>(&pool.table, other);
    }
}
