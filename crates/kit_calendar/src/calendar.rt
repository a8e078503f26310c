ghost use Rattle.std.specs.Prelude.{◌≡◌, ◌==◌, ◌<◌, ◌≤◌, ◌+◌, ◌-◌, ◌*◌, ◌/◌, ◌%◌, [], length};
ghost use Rattle.std.specs.Prelude.{if◌then◌else◌, IsOk, OnOk, OnErr};
ghost use Rattle.std.specs.List.{insert};
ghost use Rattle.kit_base.specs.Order.{is_before};
ghost use Rattle.kit_queue.specs.Entries.{IsInOrder, IsInOrder-prop, AreNumberedApart};
ghost use Rattle.kit_queue.specs.Entries.{AreNumberedApart-prop, put_entry};
ghost use Rattle.kit_calendar.specs.Rows.{offset};
ghost use Rattle.kit_calendar.specs.Held.{held, waiting};
ghost use Rattle.kit_calendar.specs.Buckets.{IsArranged, IsArranged-prop, IsFromDay, IsFromDay-prop};
ghost use Rattle.kit_calendar.specs.Buckets.{IsDealt, IsDealt-prop, IsLaidOut, bucket_cmp};
ghost use Rattle.kit_calendar.specs.Buckets.{in_bucket, gathered, put_by, buckets_for, width_for};
ghost use Rattle.kit_calendar.specs.Buckets.{least_time, greatest_time, new_width};
ghost use Rattle.kit_calendar.specs.Least.{IsBest, IsBestOf, IsLeastOfDay, is_entry};
ghost use Rattle.kit_calendar.specs.Spots.{is_sought, placed, IsThere, lesser_spot, spot_day};

use crate::rows::Rows;
use crate::spot::{Sought, Spot};
use kit_base::Message;
use kit_queue::{Entry, Order};
use std::alloc::{AllocError, Global};

/// A queue that keeps its entries in buckets, after R. Brown (1988): the bucket of an entry is its
/// time divided by a width, modulo the number of buckets.
#[derive(Debug, Drop)]
pub struct Calendar {
    /// A row of entries for each bucket, in order; or none, before memory is taken.
    rows: Rows,
    buckets: usize,
    width: u64,
    /// No entry's time, divided by the width, is below this.
    today: u64,
    ghost has_buckets: { 0 < buckets },
    ghost has_width: { 0 < width },
    ghost has_rows: { 0 < rows.most → length (held rows) ≡ buckets },
    ghost dealt: { IsDealt width buckets 0 (held rows) } by { IsDealt-prop width buckets 0 (held rows) },
    ghost arranged: { IsArranged width buckets (waiting rows) } by { IsArranged-prop width buckets (waiting rows) },
    ghost from_today: { IsFromDay width today (waiting rows) } by { IsFromDay-prop width today (waiting rows) },
    ghost apart: { AreNumberedApart (waiting rows) } by { AreNumberedApart-prop (waiting rows) },
    ghost in_order: { IsInOrder (gathered (waiting rows)) } by { IsInOrder-prop (gathered (waiting rows)) },
    ghost numbered_apart: { AreNumberedApart (gathered (waiting rows)) } by { AreNumberedApart-prop (gathered (waiting rows)) },
}

/// Whether a message comes before another in the order of keys.
fn comes_before(a: &Message, b: &Message) -> bool
    ensures { result ≡ is_before a.now b.now }
{
    a.key() < b.key()
}

/// The bucket of a time.
fn bucket_at(time: u64, width: u64, buckets: usize) -> usize
    requires width { 0 < width }
    requires buckets { 0 < buckets }
    ensures { result ≡ time / width % buckets }
{
    (time / width % buckets as u64) as usize
}

/// The place of an entry among those of its bucket, by a binary search.
fn place(row: &[Entry], entry: &Entry) -> usize
    requires { IsInOrder row.now }
    ensures within { result ≤ length row.now }
    ensures place { put_entry entry.now row.now ≡ insert row.now result entry.now }
{
    row.partition_point(|other| !comes_before(&entry.message, &other.message))
}

/// Whether an entry is one that is looked for.
fn is_sought(sought: Sought, entry: &Entry) -> bool
    ensures { result ≡ is_sought sought entry.now }
{
    match sought {
        Sought::Any => true,
        Sought::Settleable(below) => entry.message.time < below && entry.buffer.is_some(),
        Sought::Numbered(sender, number) => {
            entry.message.sender == sender && entry.message.number == number
        }
    }
}

/// The lesser of the best so far and another entry.
fn lesser(best: Option<Spot>, spot: Spot) -> Option<Spot>
    ensures { result ≡ lesser_spot best spot }
{
    match best {
        None => Some(spot),
        Some(least) => {
            if comes_before(&spot.entry.message, &least.entry.message) {
                Some(spot)
            } else {
                Some(least)
            }
        }
    }
}

/// The least of the entries that are looked for, so far and in a row.
fn best_of_row(rows: &Rows, row: usize, sought: Sought, so_far: Option<Spot>) -> Option<Spot>
    requires row { row < length (held rows.now) }
    requires best { IsBestOf (is_sought sought) (waiting rows.now) (offset (held rows.now) row)
        (placed (held rows.now) so_far) }
    requires there { IsThere (held rows.now) so_far }
    ensures best { IsBestOf (is_sought sought) (waiting rows.now)
        (offset (held rows.now) (row + 1)) (placed (held rows.now) result) }
    ensures there { IsThere (held rows.now) result }
{
    let entries = rows.row(row);
    let mut best = so_far;
    for (at, entry) in entries.iter().enumerate() {
        if is_sought(sought, entry) {
            let entry = *entry;
            best = lesser(best, Spot { row, at, entry });
        }
    }
    best
}

/// The least of the entries that are looked for, by a pass over all.
fn best_of(rows: &Rows, sought: Sought) -> Option<Spot>
    ensures best { IsBest (is_sought sought) (waiting rows.now) (placed (held rows.now) result) }
    ensures there { IsThere (held rows.now) result }
{
    let mut best = None;
    for row in 0..rows.rows.len() {
        best = best_of_row(rows, row, sought, best);
    }
    best
}

/// The number of buckets, doubled as long as the entries are more than twice as many.
fn buckets_for(buckets: usize, room: usize) -> usize
    requires { 0 < buckets }
    ensures grown { buckets ≤ result }
    ensures value { result ≡ buckets_for room buckets }
{
    let mut doubled = buckets;
    while room.saturating_sub(1) / 2 >= doubled {
        doubled *= 2;
    }
    doubled
}

/// From the least to the greatest of a time and those that wait.
fn span(entries: &Vec<Entry>, time: u64) -> u64
    ensures { result ≡ greatest_time time entries.now.items - least_time time entries.now.items }
{
    let mut least = time;
    let mut greatest = time;
    for entry in entries.iter() {
        least = least.min(entry.message.time);
        greatest = greatest.max(entry.message.time);
    }
    greatest.saturating_sub(least)
}

/// The span of the times that wait, divided by the number of entries, and at least 1.
fn width_for(entries: &Vec<Entry>) -> u64
    ensures positive { 0 < result }
    ensures value { result ≡ width_for entries.now.items }
{
    let Some(first) = entries.first() else {
        return 1;
    };
    (span(entries, first.message.time) / entries.len() as u64).max(1)
}

/// The width for these entries where the buckets were doubled, else the width as it was.
fn next_width(entries: &Vec<Entry>, width: u64, buckets: usize, doubled: usize) -> u64
    requires { 0 < width }
    ensures positive { 0 < result }
    ensures value { result ≡
        (if doubled == buckets then width else width_for entries.now.items) }
{
    if doubled == buckets {
        return width;
    }
    width_for(entries)
}

/// Puts an entry in the row of its bucket.
fn put(rows: &mut Rows, width: u64, entry: Entry)
    requires width { 0 < width }
    requires rows { 0 < length (held rows.old) }
    requires most { rows.old.count < rows.old.most }
    requires dealt { IsDealt width (length (held rows.old)) 0 (held rows.old) }
    requires arranged { IsArranged width (length (held rows.old)) (waiting rows.old) }
    ensures waiting { waiting rows.new ≡
        put_by (bucket_cmp width (length (held rows.old))) entry (waiting rows.old) }
    ensures dealt { IsDealt width (length (held rows.old)) 0 (held rows.new) }
    ensures rows { length (held rows.new) ≡ length (held rows.old) }
    ensures most { rows.new.most ≡ rows.old.most }
    ensures count { rows.new.count ≡ rows.old.count + 1 }
{
    let row = bucket_at(entry.message.time, width, rows.rows.len());
    let at = place(rows.row(row), &entry);
    rows.insert(row, at, entry);
}

/// Puts each of some entries in the row of its bucket.
fn lay_out(rows: &mut Rows, width: u64, entries: &Vec<Entry>)
    requires width { 0 < width }
    requires rows { 0 < length (held rows.old) }
    requires most { rows.old.count + length entries.now.items ≤ rows.old.most }
    requires none { waiting rows.old ≡ [] }
    requires dealt { IsDealt width (length (held rows.old)) 0 (held rows.old) }
    requires apart { AreNumberedApart entries.now.items }
    ensures laid { IsLaidOut width (length (held rows.old)) entries.now.items
        (length entries.now.items) (waiting rows.new) }
    ensures dealt { IsDealt width (length (held rows.old)) 0 (held rows.new) }
    ensures rows { length (held rows.new) ≡ length (held rows.old) }
    ensures most { rows.new.most ≡ rows.old.most }
    ensures count { rows.new.count ≡ rows.old.count + length entries.now.items }
{
    for entry in entries.iter() {
        put(rows, width, *entry);
    }
}

/// The first of a day's bucket, if its time divided by the width is this day.
fn least_of_day(rows: &Rows, width: u64, buckets: usize, day: u64) -> Option<Spot>
    requires width { 0 < width }
    requires buckets { 0 < buckets }
    requires dealt { IsDealt width buckets 0 (held rows.now) }
    requires arranged { IsArranged width buckets (waiting rows.now) }
    requires from { IsFromDay width day (waiting rows.now) }
    ensures least { IsLeastOfDay width day (waiting rows.now) (placed (held rows.now) result) }
    ensures there { IsThere (held rows.now) result }
{
    let row = (day % buckets as u64) as usize;
    let entry = *rows.row(row).first()?;
    if entry.message.time / width != day {
        return None;
    }
    Some(Spot { row, at: 0, entry })
}

/// The least entry. It looks into one bucket a day from today on, until that has cost as much as to
/// go over all entries, and then does that.
fn least_of(rows: &Rows, width: u64, buckets: usize, today: u64) -> Option<Spot>
    requires width { 0 < width }
    requires buckets { 0 < buckets }
    requires dealt { IsDealt width buckets 0 (held rows.now) }
    requires arranged { IsArranged width buckets (waiting rows.now) }
    requires from { IsFromDay width today (waiting rows.now) }
    ensures best { IsBest is_entry (waiting rows.now) (placed (held rows.now) result) }
    ensures there { IsThere (held rows.now) result }
{
    let mut day = today;
    for _ in 0..buckets {
        let found = least_of_day(rows, width, buckets, day);
        if found.is_some() {
            return found;
        }
        if day == u64::MAX {
            break;
        }
        day += 1;
    }
    best_of(rows, Sought::Any)
}

/// The day of the least entry that was found, or 0.
fn day_of(best: Option<Spot>, width: u64) -> u64
    requires { 0 < width }
    ensures { result ≡ spot_day width best }
{
    match best {
        Some(spot) => spot.entry.message.time / width,
        None => 0,
    }
}

/// A day that no entry is before: that of the least.
fn first_day(rows: &Rows, width: u64) -> u64
    requires { 0 < width }
    ensures { IsFromDay width result (waiting rows.now) }
{
    day_of(best_of(rows, Sought::Any), width)
}

impl Calendar {
    /// The number of buckets, and their width.
    pub fn shape(&self) -> (usize, u64)
        ensures { result ≡ (self.now.buckets, self.now.width) }
    {
        (self.buckets, self.width)
    }

    /// The entries of a bucket, in the order of their keys: those whose time divided by the width,
    /// modulo the number of buckets, is `index`.
    pub fn bucket(&self, index: usize) -> &[Entry]
        requires { index < self.now.buckets }
        ensures { result.now ≡ in_bucket self.now.width self.now.buckets index
            (gathered (waiting self.now.rows)) }
    {
        self.rows.row(index)
    }

    /// Sets memory aside for one more entry, unless some is.
    fn make_room(&mut self) -> Result<(), AllocError>
        ensures same { gathered (waiting self.new.rows) ≡ gathered (waiting self.old.rows) }
        ensures room { OnOk result (self.new.rows.count < self.new.rows.most) }
        ensures succeeds { self.old.rows.count < self.old.rows.most → IsOk result }
        ensures spare { self.old.rows.count < self.old.rows.most →
            self.new.rows.most - self.new.rows.count ≡ self.old.rows.most - self.old.rows.count }
    {
        if self.rows.count < self.rows.most {
            return Ok(());
        }
        self.reserve(1)
    }
}

impl Order for Calendar {
    ghost entries = { λ queue. gathered (waiting queue.rows) };

    ghost spare = { λ queue. queue.rows.most - queue.rows.count };

    ghost in_order = { λ queue. queue.in_order };

    ghost numbered_apart = { λ queue. queue.numbered_apart };

    /// Has 16 buckets of width 1. It takes no memory.
    fn empty(alloc: Global) -> Calendar {
        Calendar {
            rows: Rows::none(alloc),
            buckets: 16,
            width: 1,
            today: 0,
        }
    }

    /// Doubles the buckets as long as the entries that it makes room for are more than twice the
    /// buckets. Where it doubled, the entries are laid out anew, in memory that is taken first.
    fn reserve(&mut self, more: usize) -> Result<(), AllocError>
        ensures ok { OnOk result (more ≤ self.new.rows.most - self.new.rows.count) }
        ensures same { gathered (waiting self.new.rows) ≡ gathered (waiting self.old.rows) }
        ensures kept { self.old.rows.most - self.old.rows.count ≤
            self.new.rows.most - self.new.rows.count }
        ensures buckets { OnOk result (self.new.buckets ≡
            buckets_for (length (waiting self.old.rows) + more) self.old.buckets) }
        ensures width { OnOk result (self.new.width ≡
            new_width (length (waiting self.old.rows) + more) self.old.buckets self.old.width
            (waiting self.old.rows)) }
        ensures err { OnErr result ((self.new.buckets ≡ self.old.buckets)
            × (self.new.width ≡ self.old.width)) }
    {
        let Some(room) = self.rows.count.checked_add(more) else {
            return Err(AllocError);
        };
        let most = self.rows.most.max(room);
        let buckets = buckets_for(self.buckets, room);
        if buckets == self.buckets && self.rows.most > 0 {
            return self.rows.reserve(most);
        }
        let alloc = *self.rows.places.allocator();
        let mut rows = Rows::with_room(alloc, buckets, most)?;
        self.rows.pack();
        let width = next_width(&self.rows.places, self.width, self.buckets, buckets);
        lay_out(&mut rows, width, &self.rows.places);
        let today = first_day(&rows, width);
        self.rows = rows;
        self.buckets = buckets;
        self.width = width;
        self.today = today;
        Ok(())
    }

    /// Searches the entry's bucket by halves, and then moves the entries behind.
    fn insert(&mut self, entry: Entry) -> Result<(), AllocError> {
        self.make_room()?;
        put(&mut self.rows, self.width, entry);
        self.today = self.today.min(entry.message.time / self.width);
        Ok(())
    }

    /// Goes over the entries once.
    fn retract(&mut self, sender: u8, number: u16) -> Option<Entry> {
        let spot = best_of(&self.rows, Sought::Numbered(sender, number))?;
        self.rows.remove(spot.row, spot.at);
        Some(spot.entry)
    }

    /// Goes over the entries once.
    fn settle(&mut self, below: u64) -> Option<(u8, u16)> {
        let spot = best_of(&self.rows, Sought::Settleable(below))?;
        let buffer = spot.entry.buffer?;
        let settled = Entry {
            buffer: None,
            ..spot.entry
        };
        self.rows.set(spot.row, spot.at, settled);
        Some((spot.entry.message.sender, buffer))
    }

    /// Looks at the first entries of some buckets.
    fn least(&self) -> Option<u64> {
        let spot = least_of(&self.rows, self.width, self.buckets, self.today)?;
        Some(spot.entry.message.time)
    }

    /// Looks at the first entries of some buckets.
    fn pop_due(&mut self, time: u64) -> Option<Entry> {
        let spot = least_of(&self.rows, self.width, self.buckets, self.today)?;
        if spot.entry.message.time > time {
            return None;
        }
        self.rows.remove(spot.row, spot.at);
        self.today = spot.entry.message.time / self.width;
        Some(spot.entry)
    }
}

#[cfg(test)]
mod tests;
