ghost use Rattle.std.specs.Prelude.{◌≡◌, ◌<◌, ◌≤◌, ◌+◌, ◌-◌, ◌*◌, ℕ, [], ◌++◌, length, take, drop};
ghost use Rattle.std.specs.Prelude.{replicate, vec_capacity, slice_set, slice_index_or, IfOk, OnOk, OnErr};
ghost use Rattle.std.specs.List.{insert, remove};
ghost use Rattle.kit_calendar.specs.declared.row.Row.{Row};
ghost use Rattle.kit_calendar.specs.Rows.{row_of, lists, joined, list_at, packed};
ghost use Rattle.kit_calendar.specs.Rows.{AreWithin, AreWithin-prop, AreApart, AreApart-prop};

use crate::row::Row;
use kit_queue::Entry;
use std::alloc::{AllocError, Global};

/// Places for each entry for which there is memory.
const PLACES: usize = 4;

/// Rows of entries that share one vector. A row that is full moves to the end of the vector, where
/// it finds more room. Where too little is left there, all rows are packed.
#[derive(Debug, Drop)]
pub(crate) struct Rows {
    pub(crate) places: Vec<Entry>,
    pub(crate) rows: Vec<Row>,
    /// How many entries the rows have.
    pub(crate) count: usize,
    /// For how many entries there is memory.
    pub(crate) most: usize,
    ghost within: { AreWithin (length places.items) rows.items } by { AreWithin-prop (length places.items) rows.items },
    ghost apart: { AreApart rows.items } by { AreApart-prop rows.items },
    ghost counted: { count ≡ length (joined (lists places.items rows.items)) },
    ghost has_memory: { count ≤ most },
    ghost can_pack: { length places.items + most ≤ vec_capacity places },
    ghost can_widen: { 4 * most ≤ vec_capacity places },
}

/// The entries of a row.
fn entries_of(places: &Vec<Entry>, row: Row) -> &[Entry]
    requires { row.start + row.len ≤ length places.now.items }
    ensures { result.now ≡ row_of places.now.items row }
{
    &places[row.start..row.start + row.len]
}

/// So many rows without room.
fn rows_made(alloc: Global, count: usize) -> Result<Vec<Row>, AllocError>
    ensures { IfOk result (λ rows. rows.items ≡
        replicate count (record { start = 0; len = 0; room = 0 })) }
{
    let mut rows = Vec::with_capacity(alloc, count)?;
    for _ in 0..count {
        rows.push(Row {
            start: 0,
            len: 0,
            room: 0,
        })?;
    }
    Ok(rows)
}

/// Appends the entries of all rows, row after row, and lets the rows stand where that begins.
fn gather(places: &mut Vec<Entry>, rows: &mut Vec<Row>)
    requires within { AreWithin (length places.old.items) rows.old.items }
    requires room { length places.old.items
        + length (joined (lists places.old.items rows.old.items)) ≤ vec_capacity places.old }
    ensures places { places.new.items ≡
        places.old.items ++ joined (lists places.old.items rows.old.items) }
    ensures rows { rows.new.items ≡ packed 0 rows.old.items }
    ensures capacity { vec_capacity places.old ≤ vec_capacity places.new }
{
    let front = places.len();
    for index in 0..rows.len() {
        let row = rows[index];
        let start = places.len() - front;
        let _ = places.extend_from_within(row.start..row.start + row.len);
        rows[index] = Row {
            start,
            len: row.len,
            room: row.len,
        };
    }
}

/// Takes out the first places.
fn drop_front(places: &mut Vec<Entry>, front: usize)
    requires { front ≤ length places.old.items }
    ensures items { places.new.items ≡ drop front places.old.items }
    ensures capacity { vec_capacity places.new ≡ vec_capacity places.old }
{
    let left = places.len() - front;
    places.copy_within(front.., 0);
    places.truncate(left);
}

/// Copies a row to the end, with room for twice its entries and two.
fn widened(places: &mut Vec<Entry>, row: Row, filler: Entry) -> Row
    requires within { row.start + row.len ≤ length places.old.items }
    requires room { length places.old.items + 2 * row.len + 2 ≤ vec_capacity places.old }
    ensures kept { take (length places.old.items) places.new.items ≡ places.old.items }
    ensures len { length places.new.items ≡ length places.old.items + result.room }
    ensures start { result.start ≡ length places.old.items }
    ensures count { result.len ≡ row.len }
    ensures room { result.room ≡ 2 * row.len + 2 }
    ensures row { row_of places.new.items result ≡ row_of places.old.items row }
    ensures capacity { vec_capacity places.old ≤ vec_capacity places.new }
{
    let start = places.len();
    let _ = places.extend_from_within(row.start..row.start + row.len);
    let _ = places.extend_from_within(row.start..row.start + row.len);
    let _ = places.push(filler);
    let _ = places.push(filler);
    Row {
        start,
        len: row.len,
        room: 2 * row.len + 2,
    }
}

/// Puts an entry at a place of a row that has room.
fn insert_at(places: &mut Vec<Entry>, row: Row, at: usize, entry: Entry)
    requires at { at ≤ row.len }
    requires room { row.len < row.room }
    requires within { row.start + row.room ≤ length places.old.items }
    ensures row { take (row.len + 1) (drop row.start places.new.items) ≡
        insert (row_of places.old.items row) at entry }
    ensures before { take row.start places.new.items ≡ take row.start places.old.items }
    ensures behind { drop (row.start + row.room) places.new.items ≡
        drop (row.start + row.room) places.old.items }
    ensures len { length places.new.items ≡ length places.old.items }
    ensures capacity { vec_capacity places.new ≡ vec_capacity places.old }
{
    let from = row.start + at;
    places.copy_within(from..row.start + row.len, from + 1);
    places[from] = entry;
}

/// Takes out the entry at a place of a row.
fn remove_at(places: &mut Vec<Entry>, row: Row, at: usize)
    requires at { at < row.len }
    requires room { row.len ≤ row.room }
    requires within { row.start + row.room ≤ length places.old.items }
    ensures row { take (row.len - 1) (drop row.start places.new.items) ≡
        remove (row_of places.old.items row) at }
    ensures before { take row.start places.new.items ≡ take row.start places.old.items }
    ensures behind { drop (row.start + row.room) places.new.items ≡
        drop (row.start + row.room) places.old.items }
    ensures len { length places.new.items ≡ length places.old.items }
    ensures capacity { vec_capacity places.new ≡ vec_capacity places.old }
{
    let from = row.start + at;
    places.copy_within(from + 1..row.start + row.len, from);
}

/// Sets the entry at a place of a row.
fn set_at(places: &mut Vec<Entry>, row: Row, at: usize, entry: Entry)
    requires at { at < row.len }
    requires room { row.len ≤ row.room }
    requires within { row.start + row.room ≤ length places.old.items }
    ensures row { row_of places.new.items row ≡
        slice_set (row_of places.old.items row) at entry }
    ensures before { take row.start places.new.items ≡ take row.start places.old.items }
    ensures behind { drop (row.start + row.room) places.new.items ≡
        drop (row.start + row.room) places.old.items }
    ensures len { length places.new.items ≡ length places.old.items }
    ensures capacity { vec_capacity places.new ≡ vec_capacity places.old }
{
    places[row.start + at] = entry;
}

impl Rows {
    ghost use Rattle.kit_calendar.specs.Held.{held, waiting};

    /// No rows.
    pub(crate) fn none(alloc: Global) -> Rows
        ensures held { held result ≡ [] }
        ensures most { result.most ≡ 0 }
    {
        Rows {
            places: Vec::new(alloc),
            rows: Vec::new(alloc),
            count: 0,
            most: 0,
        }
    }

    /// So many rows, with memory for so many entries in all.
    pub(crate) fn with_room(alloc: Global, rows: usize, most: usize) -> Result<Rows, AllocError>
        ensures { IfOk result (λ made. (held made ≡ replicate rows [])
            × ((made.most ≡ most) × (made.count ≡ 0))) }
    {
        let places = most.checked_mul(PLACES).ok_or(AllocError)?;
        let made = rows_made(alloc, rows)?;
        Ok(Rows {
            places: Vec::with_capacity(alloc, places)?,
            rows: made,
            count: 0,
            most,
        })
    }

    /// The entries of a row.
    pub(crate) fn row(&self, index: usize) -> &[Entry]
        ensures { result.now ≡ list_at (held self.now) index }
    {
        match self.rows.get(index) {
            Some(row) => entries_of(&self.places, *row),
            None => &[],
        }
    }

    /// Moves all entries, each row behind the one before it, with no room between.
    pub(crate) fn pack(&mut self)
        ensures held { held self.new ≡ held self.old }
        ensures places { self.new.places.items ≡ waiting self.old }
        ensures rows { length self.new.rows.items ≡ length self.old.rows.items }
        ensures most { self.new.most ≡ self.old.most }
        ensures count { self.new.count ≡ self.old.count }
        ensures capacity { vec_capacity self.old.places ≤ vec_capacity self.new.places }
    {
        let front = self.places.len();
        gather(&mut self.places, &mut self.rows);
        drop_front(&mut self.places, front);
    }

    /// Packs the rows where fewer places than these are left at the end.
    fn make_place(&mut self, wanted: usize)
        requires { self.old.count + wanted ≤ vec_capacity self.old.places }
        ensures held { held self.new ≡ held self.old }
        ensures rows { length self.new.rows.items ≡ length self.old.rows.items }
        ensures most { self.new.most ≡ self.old.most }
        ensures count { self.new.count ≡ self.old.count }
        ensures capacity { vec_capacity self.old.places ≤ vec_capacity self.new.places }
        ensures left { length self.new.places.items + wanted ≤ vec_capacity self.new.places }
    {
        if self.places.capacity() - self.places.len() >= wanted {
            return;
        }
        self.pack();
    }

    /// Sets memory aside for so many entries in all.
    pub(crate) fn reserve(&mut self, most: usize) -> Result<(), AllocError>
        requires { self.old.most ≤ most }
        ensures held { held self.new ≡ held self.old }
        ensures count { self.new.count ≡ self.old.count }
        ensures ok { OnOk result (self.new.most ≡ most) }
        ensures err { OnErr result (self.new.most ≡ self.old.most) }
    {
        let places = most.checked_mul(PLACES).ok_or(AllocError)?;
        self.places
            .reserve(places.saturating_sub(self.places.len()))?;
        self.make_place(most);
        self.most = most;
        Ok(())
    }

    /// Sees to it that a row has room. A full one moves to the end, with room for twice its entries
    /// and two.
    fn widen(&mut self, index: usize, filler: Entry)
        requires index { index < length self.old.rows.items }
        requires most { self.old.count < self.old.most }
        ensures held { held self.new ≡ held self.old }
        ensures rows { length self.new.rows.items ≡ length self.old.rows.items }
        ensures most { self.new.most ≡ self.old.most }
        ensures count { self.new.count ≡ self.old.count }
        ensures room { (d : Row) → (slice_index_or self.new.rows.items index d).len
            < (slice_index_or self.new.rows.items index d).room }
    {
        let full = self.rows[index];
        if full.len < full.room {
            return;
        }
        self.make_place(2 * full.len + 2 + self.most);
        let row = widened(&mut self.places, self.rows[index], filler);
        self.rows[index] = row;
    }

    /// Puts an entry at a place of a row.
    pub(crate) fn insert(&mut self, index: usize, at: usize, entry: Entry)
        requires index { index < length (held self.old) }
        requires at { at ≤ length (list_at (held self.old) index) }
        requires most { self.old.count < self.old.most }
        ensures held { held self.new ≡
            slice_set (held self.old) index (insert (list_at (held self.old) index) at entry) }
        ensures most { self.new.most ≡ self.old.most }
        ensures count { self.new.count ≡ self.old.count + 1 }
    {
        self.widen(index, entry);
        let row = self.rows[index];
        insert_at(&mut self.places, row, at, entry);
        self.rows[index] = Row {
            len: row.len + 1,
            ..row
        };
        self.count += 1;
    }

    /// Takes out the entry at a place of a row.
    pub(crate) fn remove(&mut self, index: usize, at: usize)
        requires index { index < length (held self.old) }
        requires at { at < length (list_at (held self.old) index) }
        ensures held { held self.new ≡
            slice_set (held self.old) index (remove (list_at (held self.old) index) at) }
        ensures most { self.new.most ≡ self.old.most }
        ensures count { self.new.count + 1 ≡ self.old.count }
    {
        let row = self.rows[index];
        remove_at(&mut self.places, row, at);
        self.rows[index] = Row {
            len: row.len - 1,
            ..row
        };
        self.count -= 1;
    }

    /// Sets the entry at a place of a row.
    pub(crate) fn set(&mut self, index: usize, at: usize, entry: Entry)
        requires index { index < length (held self.old) }
        requires at { at < length (list_at (held self.old) index) }
        ensures held { held self.new ≡
            slice_set (held self.old) index (slice_set (list_at (held self.old) index) at entry) }
        ensures most { self.new.most ≡ self.old.most }
        ensures count { self.new.count ≡ self.old.count }
    {
        let row = self.rows[index];
        set_at(&mut self.places, row, at, entry);
    }
}
