//! Which federates a worker serves, and for how long.
ghost use Rattle.std.specs.Prelude.{◌≡◌, ◌<◌, ◌≤◌, true, slice_get, Some, IfSome};

use kit_deal::Activity;
use std::thread::yield_now;

/// There are not more federates.
const MOST_FEDERATES: usize = 16;

/// A worker whose turns were idle so many times in a row returns.
const MOST_IDLE: u32 = 10_000;

/// The longest wait after an idle turn yields the processor so many times.
const LONGEST_WAIT: u32 = 32;

/// The federates that a worker serves, one after another and again, each until its node has ended.
#[derive(Drop)]
pub(super) struct Rota {
    serves: [bool; MOST_FEDERATES],
    /// Whose turn is next, if it is one of these.
    next: usize,
    /// How many turns in a row were idle.
    idle: u32,
}

impl Rota {
    /// The federates whose number modulo the number of workers is the worker's own.
    pub(super) fn new(own: usize, workers: usize, federates: u8) -> Rota
        requires some { 0 < workers }
        requires few { federates ≤ 16 }
    {
        let mut serves = [false; MOST_FEDERATES];
        for federate in 0..usize::from(federates) {
            serves[federate] = federate % workers == own;
        }
        Rota {
            serves,
            next: 0,
            idle: 0,
        }
    }

    /// The federate whose turn is next. There is none where the worker has none left, or where
    /// there was nothing to do for long.
    pub(super) fn next_federate(&mut self) -> Option<u8>
        ensures own { IfSome result (λ f. slice_get self.old.serves f ≡ Some true) }
        ensures same { self.new.serves ≡ self.old.serves }
    {
        if self.idle >= MOST_IDLE {
            return None;
        }
        for ahead in 0..MOST_FEDERATES {
            let federate = (self.next % MOST_FEDERATES + ahead) % MOST_FEDERATES;
            if self.serves[federate] {
                self.next = federate + 1;
                return Some(federate as u8);
            }
        }
        None
    }

    /// Takes note of a federate's turn, and waits where there was nothing to do once more.
    pub(super) fn after(&mut self, federate: u8, activity: Activity) {
        match activity {
            Activity::Worked => self.idle = 0,
            Activity::Ended => {
                self.idle = 0;
                if let Some(serves) = self.serves.get_mut(usize::from(federate)) {
                    *serves = false;
                }
            }
            Activity::Idle => {
                self.idle = self.idle.saturating_add(1);
                wait(self.idle.min(LONGEST_WAIT));
            }
        }
    }
}

/// Yields the processor so many times.
fn wait(times: u32) {
    for _ in 0..times {
        yield_now();
    }
}
