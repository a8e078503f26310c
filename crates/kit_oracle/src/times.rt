//! Times, of which the first come out first.

ghost use Rattle.std.specs.Prelude.{◌≡◌, ℕ, true, false, ◌<◌, ◌≤◌, [], ◌∷◌, length, OnOk};
ghost use Rattle.kit_oracle.specs.Times.{count_later};

use std::alloc::{AllocError, Global};
use std::cmp::Reverse;
use std::collections::BinaryHeap;
use std::marker::Model;

/// Times, each as often as it was put in. Contracts see a list, in no order that they tell.
#[derive(Drop)]
pub(crate) struct Times {
    heap: BinaryHeap<Reverse<u64>>,
}

impl Model for Times {
    ghost use Rattle.std.specs.Prelude.{List, ℕ, map};
    ghost use Rattle.std.specs.BinaryHeap.{heap_items, IsHeap};

    ghost Value = { List ℕ };

    ghost view = { λ t. map (λ (r : _). r.0) (heap_items t.heap) };

    ghost invariant = { λ t. IsHeap ⟦<Reverse<u64> as Ord>⟧.cmp (heap_items t.heap) };
}

impl Times {
    pub(crate) fn new(alloc: Global) -> Times
        ensures { result ≡ [] }
    {
        Times {
            heap: BinaryHeap::new(alloc),
        }
    }

    pub(crate) fn push(&mut self, time: u64) -> Result<(), AllocError>
        ensures { OnOk result ((t : ℕ) → count_later t self.new ≡ count_later t (time ∷ self.old)) }
    {
        self.heap.push(Reverse(time))?;
        Ok(())
    }

    /// Takes out the first time, if it is `by` or less, and says whether it did.
    fn pop_due(&mut self, by: u64) -> bool
        ensures some { result ≡ true → length self.new < length self.old }
        ensures kept { (t : ℕ) → by ≤ t → count_later t self.new ≡ count_later t self.old }
        ensures none { result ≡ false → length self.new ≡ count_later by self.new }
    {
        match self.heap.peek() {
            Some(Reverse(time)) if *time <= by => {
                let _ = self.heap.pop();
                true
            }
            _ => false,
        }
    }

    /// Takes out all that are `by` or less, and says how many are left.
    pub(crate) fn later_than(&mut self, by: u64) -> usize
        ensures kept { (t : ℕ) → by ≤ t → count_later t self.new ≡ count_later t self.old }
        ensures count { result ≡ count_later by self.old }
    {
        while self.pop_due(by) {}
        self.heap.len()
    }
}
