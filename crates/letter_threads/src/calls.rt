//! Single calls again and again, for measuring.
ghost use Rattle.std.specs.Prelude.{◌≡◌, ◌≢◌, ℕ, ◌<◌};
ghost use Rattle.kit_ground.specs.Layout.{mail_words};
ghost use Rattle.kit_ground.specs.Steps.{buffer_of};
ghost use Rattle.kit_pool.specs.Pools.{no_client};
ghost use Rattle.kit_floor.specs.FloorViews.{IsNewSeatOf, buffers_of, federates_of};

use kit_floor::{FloorSeat, TableFloor};
use kit_ground::{Bare, Ground, Reg, Unmoved};
use kit_known::Known;
use std::alloc::{AllocError, Global};

fn looks<G: Ground<Under = Bare>>(seat: &mut G, turns: u64) -> u64
    requires { 0 < (G.place seat.old).own.federates }
    ensures { G.came seat.old seat.new }
{
    let clock = Reg { owner: 0, slot: 12 };
    let mut sum = 0;
    for _turn in 0..turns {
        sum ^= seat.look::<Unmoved>(clock);
    }
    sum
}

fn publishes<G: Ground<Under = Bare>>(seat: &mut G, turns: u64) -> u64
    ensures { G.came seat.old seat.new }
{
    let clock = Reg {
        owner: seat.me(),
        slot: 12,
    };
    for turn in 0..turns {
        seat.publish::<Unmoved>(clock, turn);
    }
    turns
}

fn frees<G: Ground<Under = Bare>>(seat: &mut G, turns: u64) -> u64
    requires some { 0 < (G.place seat.old).own.buffers }
    requires owed { (buffer_of (G.place seat.old).own.stock 0).to_post ≡ 0 }
    ensures { G.came seat.old seat.new }
{
    let mut sum = 0u64;
    for _turn in 0..turns {
        if seat.look_free::<Unmoved>(0) {
            sum = sum.wrapping_add(1);
        }
    }
    sum
}

fn collects<G: Ground<Under = Bare>>(seat: &mut G, from: u8, turns: u64) -> u64
    requires from { from < (G.place seat.old).own.federates }
    requires other { from ≢ (G.place seat.old).own.number }
    requires word { 0 < mail_words (G.place seat.old).own.buffers }
    ensures { G.came seat.old seat.new }
{
    let mut sum = 0;
    for _turn in 0..turns {
        sum ^= seat.collect::<Unmoved>(from, 0);
    }
    sum
}

/// What is measured.
#[derive(Clone, Copy)]
pub enum Call {
    Look,
    Publish,
    Free,
    Collect,
}

/// One call again and again, by a seat of a floor of two.
fn repeat_on(floor: &TableFloor<Bare>, seat: FloorSeat<Bare>, call: Call, turns: u64) -> u64
    requires two { federates_of floor.now ≡ 2 }
    requires one { buffers_of floor.now ≡ 1 }
    requires new { (k : ℕ) × IsNewSeatOf (λ _. no_client) floor.now k seat }
{
    let other = 1 - seat.number();
    let mut ground = floor.stand(seat);
    match call {
        Call::Look => looks(&mut ground, turns),
        Call::Publish => publishes(&mut ground, turns),
        Call::Free => frees(&mut ground, turns),
        Call::Collect => collects(&mut ground, other, turns),
    }
}

/// One call again and again, on a floor of two that one thread has.
pub fn repeat(alloc: Global, call: Call, turns: u64) -> Result<u64, AllocError> {
    let (floor, mut seats) = TableFloor::<Bare>::lay(alloc, 2, 1, &Known::new(&()))?;
    let Some(seat) = seats.pop() else {
        return Ok(0);
    };
    Ok(repeat_on(&floor, seat, call, turns))
}
