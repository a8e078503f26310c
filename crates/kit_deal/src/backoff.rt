//! What a worker does while there is nothing to do.

use crate::Activity;
use std::hint::spin_loop;
use std::thread::yield_now;

/// How many of the waits spin; each next one spins twice as long.
const SPINNING_WAITS: u32 = 6;

/// How many of the waits yield the processor, each next one twice as often; later ones are as long
/// as the last of these.
const YIELDING_WAITS: u32 = 6;

/// How often in a row a worker has found nothing to do.
///
/// A first round over all items costs no wait, since another item may have something to do. Then
/// each idle turn makes the next wait longer, so that the number of idle turns hardly grows with
/// the number of workers.
#[derive(Drop)]
pub(crate) struct Backoff {
    round: usize,
    idle: usize,
}

impl Backoff {
    /// Nothing was idle yet, where a round has so many items.
    pub(crate) fn new(round: usize) -> Backoff {
        Backoff { round, idle: 0 }
    }

    /// Takes note of a turn, and waits where there was nothing to do once more.
    pub(crate) fn after(&mut self, activity: Activity) {
        match activity {
            Activity::Worked | Activity::Ended => self.idle = 0,
            Activity::Idle => {
                self.idle = self.idle.saturating_add(1);
                wait(self.idle.saturating_sub(self.round));
            }
        }
    }
}

/// The wait of this number; there is none of number 0.
fn wait(number: usize) {
    let most = SPINNING_WAITS + YIELDING_WAITS;
    let step = u32::try_from(number).unwrap_or(most).min(most);
    if step > SPINNING_WAITS {
        yield_often(1 << (step - SPINNING_WAITS - 1));
    } else if step > 0 {
        spin(1 << step);
    }
}

fn yield_often(times: u32) {
    for _ in 0..times {
        yield_now();
    }
}

fn spin(times: u32) {
    for _ in 0..times {
        spin_loop();
    }
}
