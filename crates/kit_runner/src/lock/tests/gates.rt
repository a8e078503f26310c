//! Gates that see each other.

use crate::Gate;
use std::sync::atomic::{AtomicU64, Ordering};

/// How often a gate reads the other's flag.
const READS: u64 = 50_000_000;

/// A gate that does nothing, of which there may be many.
#[derive(Clone, Copy)]
pub(super) struct Open;

impl Gate for Open {
    fn pass(&mut self, _: u8) {}

    fn step(&self, _: u8) {}
}

/// At its first pass it sets its flag, and reads the other's until that is set.
#[derive(Drop)]
pub(super) struct AtPass<'a> {
    pub(super) mine: &'a AtomicU64,
    pub(super) theirs: &'a AtomicU64,
    /// How many gates saw the other's flag.
    pub(super) saw: &'a AtomicU64,
}

/// Whether the flag was set at one of so many reads.
fn is_seen(flag: &AtomicU64) -> bool {
    for _ in 0..READS {
        if flag.load(Ordering::SeqCst) > 0 {
            return true;
        }
    }
    false
}

impl Gate for AtPass<'_> {
    fn pass(&mut self, _: u8) {
        if self.mine.swap(1, Ordering::SeqCst) == 0 && is_seen(self.theirs) {
            self.saw.fetch_add(1, Ordering::SeqCst);
        }
    }

    fn step(&self, _: u8) {}
}
