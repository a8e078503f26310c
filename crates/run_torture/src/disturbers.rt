//! Gates that disturb their workers.

use crate::chance::Chance;
use kit_runner::Gate;
use std::cell::Cell;
use std::hint::spin_loop;
use std::sync::atomic::{AtomicU64, Ordering};
use std::thread::yield_now;

/// The most turns of others that a stopped worker lets pass.
const MOST_TURNS: u64 = 200;

/// How often a stopped worker yields the processor at most before it goes on.
const MOST_YIELDS: u64 = 16;

/// What a worker does where it is disturbed.
#[derive(Clone, Copy, Debug, PartialEq, Eq)]
pub enum Manner {
    /// It stays busy for a while.
    Spin,
    /// It yields the processor a few times.
    Yield,
    /// It stops until others have taken some turns, or it has yielded often.
    Stop,
    /// One of these.
    Any,
}

impl Manner {
    fn by(chance: &mut Chance) -> Manner {
        match chance.below(5) {
            0 => Manner::Spin,
            1 => Manner::Yield,
            2 => Manner::Stop,
            _ => Manner::Any,
        }
    }

    /// A manner that says what is done.
    fn picked(self, chance: &mut Chance) -> Manner {
        match self {
            Manner::Any => match chance.below(4) {
                0 => Manner::Spin,
                1 => Manner::Yield,
                _ => Manner::Stop,
            },
            one => one,
        }
    }
}

/// How often a worker is disturbed, and what it does then.
#[derive(Clone, Copy, Debug)]
pub struct Habit {
    /// It is disturbed at a step where none of these bits is set in what it draws; never, where
    /// this is none.
    bits: Option<u64>,
    manner: Manner,
}

impl Habit {
    /// One worker in five or so is never disturbed, and the others once in 64 to 8,192 steps.
    pub fn by(chance: &mut Chance) -> Habit {
        let bits = match chance.below(5) {
            0 => None,
            1 => Some(0x3F),
            2 => Some(0xFF),
            3 => Some(0x3FF),
            _ => Some(0x1FFF),
        };
        Habit {
            bits,
            manner: Manner::by(chance),
        }
    }
}

/// The gate of a worker that is disturbed at some of its steps.
#[derive(Drop)]
pub struct Disturber<'a> {
    habit: Habit,
    chance: Cell<Chance>,
    /// How many turns all workers have taken.
    turns: &'a AtomicU64,
}

impl<'a> Disturber<'a> {
    pub fn new(habit: Habit, chance: Chance, turns: &'a AtomicU64) -> Disturber<'a> {
        Disturber {
            habit,
            chance: Cell::new(chance),
            turns,
        }
    }

    fn disturb_at_times(&self) {
        let Some(bits) = self.habit.bits else {
            return;
        };
        let mut chance = self.chance.get();
        if chance.draw() & bits == 0 {
            disturb(self.habit.manner, &mut chance, self.turns);
        }
        self.chance.set(chance);
    }
}

impl Gate for Disturber<'_> {
    fn pass(&mut self, _: u8) {
        self.turns.fetch_add(1, Ordering::SeqCst);
        self.disturb_at_times();
    }

    fn step(&self, _: u8) {
        self.disturb_at_times();
    }
}

fn disturb(manner: Manner, chance: &mut Chance, turns: &AtomicU64) {
    match manner.picked(chance) {
        Manner::Spin => spin(chance.below(1000)),
        Manner::Yield => yield_often(1 + chance.below(4)),
        _ => stop(turns, 1 + chance.below(MOST_TURNS), MOST_YIELDS),
    }
}

fn spin(times: u64) {
    for _ in 0..times {
        spin_loop();
    }
}

fn yield_often(times: u64) {
    for _ in 0..times {
        yield_now();
    }
}

/// Waits until so many turns have been taken, or it has yielded so often.
fn stop(turns: &AtomicU64, more: u64, yields: u64) {
    let before = turns.load(Ordering::SeqCst);
    for _ in 0..yields {
        if turns.load(Ordering::SeqCst).wrapping_sub(before) >= more {
            return;
        }
        yield_now();
    }
}
