//! Federates that send letters to each other, each in a thread of its own, and compare what comes.
ghost use Rattle.std.specs.Prelude.{◌≡◌, ◌≢◌, ℕ, ◌<◌, ◌≤◌, slice_index};
ghost use mathlib.Core.Option.{some};
ghost use lib.ListN.{get_elem?};
ghost use Rattle.kit_ground.specs.Steps.{IsSameSeat, buffer_of};
ghost use Rattle.kit_courier.specs.Calls.{OwesTheSame};
ghost use Rattle.kit_courier.specs.Deliveries.{courier_first};
ghost use Rattle.kit_floor.specs.FloorViews.{IsNewSeatOf, buffers_of, federates_of};
ghost use Rattle.kit_floor.specs.GuestViews.{IsGuestOf};

use crate::watching::{Sight, watch};
use kit_courier::{Couriers, Letter, advance, receive, send};
use kit_floor::{FloorSeat, TableFloor};
use kit_ground::Ground;
use kit_known::Known;
use std::alloc::{AllocError, Global};
use std::thread::{Threads, join, map_vec, yield_now};

/// How many turns a federate takes at most. A run that is still without a letter then ends, and
/// says so.
pub const TURNS: u64 = 1 << 40;

/// What a federate's clock shows once its letters have gone and come.
pub const OVER: u64 = u64::MAX;

/// After so many turns in which nothing was sent and nothing came, the thread lets others run.
const PATIENCE: u64 = 256;

/// What one federate sent and what came to it, by the other federate and the mail word.
#[derive(Clone, Copy)]
struct Book {
    sent: [u64; 8],
    came: [u64; 8],
    wrong: u64,
}

/// How many letters came, and how many of them were not the letter that was due.
#[derive(Clone, Copy)]
pub struct Tally {
    pub came: u64,
    pub wrong: u64,
}

/// Two mail words lead to each other federate: one of the first buffer, and one of the last.
fn buffer_in(word: u8) -> u16
    requires { word ≤ 1 }
    ensures { result ≤ 64 }
{
    if word == 0 { 0 } else { 64 }
}

/// The place of a federate and a mail word in a book.
fn entry(other: u8, word: u8) -> usize
    requires other { other < 4 }
    requires word { word ≤ 1 }
    ensures { result < 8 }
{
    usize::from(other) * 2 + usize::from(word)
}

/// The letter of this number from one federate to another by a mail word. Both know it, so what
/// comes is compared with it.
fn letter_of(from: u8, to: u8, word: u8, number: u64) -> Letter {
    let way = u64::from(from) << 9 | u64::from(to) << 1 | u64::from(word);
    Letter {
        head: number,
        body: number.wrapping_mul(0x9E37_79B9_7F4A_7C15) ^ way,
    }
}

/// Sends the next letter to a federate by a mail word, if one is left and the buffer is free.
fn send_next<G: Ground<Under = Couriers>>(
    seat: &mut G,
    sent: &mut u64,
    letters: u64,
    to: u8,
    word: u8,
) -> bool
    requires to { to < (G.place seat.old).own.federates }
    requires other { to ≢ (G.place seat.old).own.number }
    requires word { word ≤ 1 }
    requires wide { 64 < (G.place seat.old).own.buffers }
    requires owed { (k : ℕ) → (buffer_of (G.place seat.old).own.stock k).to_post ≡ 0 }
    ensures came { G.came seat.old seat.new }
    ensures same { IsSameSeat (G.place seat.old) (G.place seat.new) }
    ensures owed { OwesTheSame (G.place seat.old) (G.place seat.new) }
    ensures shown { (G.place seat.new).own.shown ≡ (G.place seat.old).own.shown }
{
    if *sent >= letters {
        return false;
    }
    let letter = letter_of(seat.me(), to, word, *sent);
    let is_sent = send(seat, buffer_in(word), to, letter);
    if is_sent {
        *sent += 1;
    }
    is_sent
}

/// Takes the next letter of a federate in a mail word, if one is due and has come.
fn receive_next<G: Ground<Under = Couriers>>(
    seat: &mut G,
    came: &mut u64,
    wrong: &mut u64,
    letters: u64,
    from: u8,
    word: u8,
) -> bool
    requires from { from < (G.place seat.old).own.federates }
    requires other { from ≢ (G.place seat.old).own.number }
    requires word { word ≤ 1 }
    requires wide { 64 < (G.place seat.old).own.buffers }
    ensures came { G.came seat.old seat.new }
    ensures same { IsSameSeat (G.place seat.old) (G.place seat.new) }
    ensures owed { OwesTheSame (G.place seat.old) (G.place seat.new) }
    ensures shown { (G.place seat.new).own.shown ≡ (G.place seat.old).own.shown }
{
    if *came >= letters {
        return false;
    }
    let due = letter_of(from, seat.me(), word, *came);
    match receive(seat, from, word) {
        Some(letter) => {
            *came += 1;
            if letter != due {
                *wrong = wrong.wrapping_add(1);
            }
            true
        }
        None => false,
    }
}

/// With one other federate by one mail word: what can be sent is sent, and what came is taken.
fn exchange_with<G: Ground<Under = Couriers>>(
    seat: &mut G,
    book: &mut Book,
    letters: u64,
    other: u8,
    word: u8,
) -> bool
    requires few { (G.place seat.old).own.federates ≤ 4 }
    requires other { other < (G.place seat.old).own.federates }
    requires apart { other ≢ (G.place seat.old).own.number }
    requires word { word ≤ 1 }
    requires wide { 64 < (G.place seat.old).own.buffers }
    requires owed { (k : ℕ) → (buffer_of (G.place seat.old).own.stock k).to_post ≡ 0 }
    ensures came { G.came seat.old seat.new }
    ensures same { IsSameSeat (G.place seat.old) (G.place seat.new) }
    ensures owed { OwesTheSame (G.place seat.old) (G.place seat.new) }
    ensures shown { (G.place seat.new).own.shown ≡ (G.place seat.old).own.shown }
{
    let at = entry(other, word);
    let is_sent = send_next(seat, &mut book.sent[at], letters, other, word);
    let has_come = receive_next(
        seat,
        &mut book.came[at],
        &mut book.wrong,
        letters,
        other,
        word,
    );
    is_sent || has_come
}

/// With each other federate, by both mail words.
fn exchange_all<G: Ground<Under = Couriers>>(seat: &mut G, book: &mut Book, letters: u64) -> bool
    requires few { (G.place seat.old).own.federates ≤ 4 }
    requires wide { 64 < (G.place seat.old).own.buffers }
    requires owed { (k : ℕ) → (buffer_of (G.place seat.old).own.stock k).to_post ≡ 0 }
    ensures came { G.came seat.old seat.new }
    ensures same { IsSameSeat (G.place seat.old) (G.place seat.new) }
    ensures owed { (k : ℕ) → (buffer_of (G.place seat.new).own.stock k).to_post ≡ 0 }
    ensures shown { (G.place seat.new).own.shown ≡ (G.place seat.old).own.shown }
{
    let me = seat.me();
    let federates = seat.federates();
    let mut any = false;
    for other in 0..federates {
        if other != me {
            let first = exchange_with(seat, book, letters, other, 0);
            let second = exchange_with(seat, book, letters, other, 1);
            any = any || first || second;
        }
    }
    any
}

impl Book {
    fn new() -> Book {
        Book {
            sent: [0; 8],
            came: [0; 8],
            wrong: 0,
        }
    }

    /// How many letters were sent, and how many came.
    fn counts(&self) -> (u64, u64) {
        let sent = self.sent.iter().fold(0u64, |all, &n| all.wrapping_add(n));
        let came = self.came.iter().fold(0u64, |all, &n| all.wrapping_add(n));
        (sent, came)
    }
}

/// Looks at the clocks of the others, and shows how far this federate is in its own.
fn show<G: Ground<Under = Couriers>>(seat: &mut G, to: u64)
    requires { slice_index (G.place seat.old).own.shown 12 ≤ to }
    ensures came { G.came seat.old seat.new }
    ensures same { IsSameSeat (G.place seat.old) (G.place seat.new) }
    ensures owed { OwesTheSame (G.place seat.old) (G.place seat.new) }
    ensures shown { slice_index (G.place seat.new).own.shown 12 ≡ to }
{
    advance(seat, to);
}

/// So many letters go to each other federate by each of both mail words, and as many come. It ends
/// when all have. Where it is watched, the federate shows in its clock the last turn in which
/// something was sent or came, and at the end that it is over.
fn trade<G: Ground<Under = Couriers>>(seat: &mut G, letters: u64, is_watched: bool) -> Tally
    requires few { (G.place seat.old).own.federates ≤ 4 }
    requires wide { 64 < (G.place seat.old).own.buffers }
    requires owed { (k : ℕ) → (buffer_of (G.place seat.old).own.stock k).to_post ≡ 0 }
    requires shown { slice_index (G.place seat.old).own.shown 12 ≡ 0 }
    ensures came { G.came seat.old seat.new }
{
    let ways = 2 * u64::from(seat.federates().saturating_sub(1));
    let due = letters.wrapping_mul(ways);
    let mut book = Book::new();
    let mut idle = 0;
    for turn in 0..TURNS {
        if book.counts() == (due, due) {
            break;
        }
        if exchange_all(seat, &mut book, letters) {
            idle = 0;
            if is_watched {
                show(seat, turn);
            }
        } else if idle < PATIENCE {
            idle += 1;
        } else {
            yield_now();
        }
    }
    if is_watched {
        show(seat, OVER);
    }
    Tally {
        came: book.counts().1,
        wrong: book.wrong,
    }
}

/// What one federate of a floor does.
fn work(
    floor: &TableFloor<Couriers>,
    seat: FloorSeat<Couriers>,
    letters: u64,
    is_watched: bool,
) -> Tally
    requires few { federates_of floor.now ≤ 4 }
    requires wide { 64 < buffers_of floor.now }
    requires new { (k : ℕ) × IsNewSeatOf courier_first floor.now k seat }
{
    let mut ground = floor.stand(seat);
    trade(&mut ground, letters, is_watched)
}

/// The federates of a floor trade, each in a thread of its own. It gives what came to all of them.
fn trade_all<R: Threads + Sync>(
    rt: &R,
    floor: &TableFloor<Couriers>,
    seats: Vec<FloorSeat<Couriers>>,
    letters: u64,
    is_watched: bool,
) -> Result<Tally, AllocError>
    requires few { federates_of floor.now ≤ 4 }
    requires wide { 64 < buffers_of floor.now }
    requires seats { (k : ℕ) (s : _) → get_elem? seats.items k ≡ some s
        → IsNewSeatOf courier_first floor.now k s }
{
    let tallies = map_vec(
        rt,
        seats,
        &|seat: FloorSeat<Couriers>| -> Tally
            requires few { federates_of floor.now ≤ 4 }
            requires wide { 64 < buffers_of floor.now }
            requires new { (k : ℕ) × IsNewSeatOf courier_first floor.now k seat }
        { work(floor, seat, letters, is_watched) },
    )?;
    Ok(
        tallies.iter().fold(
            Tally { came: 0, wrong: 0 },
            |all, one| Tally {
                came: all.came.wrapping_add(one.came),
                wrong: all.wrong.wrapping_add(one.wrong),
            },
        ),
    )
}

/// So many federates trade on one floor, each in a thread of its own. It gives what came to all of
/// them.
///
/// It fails only for want of memory.
pub fn trade_on_threads<R: Threads + Sync>(
    rt: &R,
    alloc: Global,
    federates: u8,
    letters: u64,
) -> Result<Tally, AllocError>
    requires { (1 ≤ federates) × (federates ≤ 4) }
{
    let about = Known::new(&federates);
    let (floor, seats) = TableFloor::<Couriers>::lay(alloc, federates, 65, &about)?;
    trade_all(rt, &floor, seats, letters, false)
}

/// Two federates trade on one floor while a guest looks at their clocks, each of the three in a
/// thread of its own. It gives what came to both, and what the guest saw.
///
/// It fails only for want of memory.
pub fn trade_watched<R: Threads + Sync>(
    rt: &R,
    alloc: Global,
    letters: u64,
) -> Result<(Tally, Sight), AllocError> {
    let about = Known::new(&2);
    let (floor, seats, mut guests) = TableFloor::<Couriers>::lay_watched(alloc, 2, 65, 1, &about)?;
    let Some(guest) = guests.pop() else {
        unreachable!()
    };
    let shared = &floor;
    let (sight, all) = join(
        rt,
        move || -> Sight
            requires guest { IsGuestOf shared.now guest }
            requires two { federates_of shared.now ≡ 2 }
        { watch(shared, guest) },
        move || -> Result<Tally, AllocError>
            requires few { federates_of shared.now ≤ 4 }
            requires wide { 64 < buffers_of shared.now }
            requires seats { (k : ℕ) (s : _) → get_elem? seats.items k ≡ some s
                → IsNewSeatOf courier_first shared.now k s }
        { trade_all(rt, shared, seats, letters, true) },
    );
    Ok((all?, sight))
}
