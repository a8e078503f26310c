use crate::Entry;
use std::alloc::{AllocError, Global};

/// A queue of entries in the order of their messages' keys: time, sender, number.
///
/// Contracts see a queue as the list `entries` and the number `spare`. Only `reserve` and `insert`
/// take memory.
pub trait Order: Drop {
    ghost use Rattle.std.specs.Prelude.{◌≡◌, ◌<◌, ◌≤◌, ◌+◌, ℕ, List, [], ◌++◌, ◌↔◌, IsOk, IsNone};
    ghost use Rattle.std.specs.Prelude.{IfNone, OnOk, OnErr};
    ghost use Rattle.std.specs.Option.{option_to_list};
    ghost use Rattle.kit_queue.specs.declared.entry.Entry.{Entry};
    ghost use Rattle.kit_queue.specs.Entries.{IsInOrder, AreNumberedApart, put_entry, entry_of};
    ghost use Rattle.kit_queue.specs.Entries.{entries_without, with_first_settled, first_buffer};
    ghost use Rattle.kit_queue.specs.Entries.{first_time, first_due};

    // The entries in the order of their keys.
    ghost entries: { Self → List Entry };

    // How many more entries `insert` takes without memory.
    ghost spare: { Self → ℕ };

    /// A queue with no entry, which keeps the allocator.
    fn empty(alloc: Global) -> Self
        ensures { entries result ≡ [] };

    /// Sets memory aside for `more` further entries.
    fn reserve(&mut self, more: usize) -> Result<(), AllocError>
        ensures ok { OnOk result (more ≤ spare self.new) }
        ensures same { entries self.new ≡ entries self.old }
        ensures kept { spare self.old ≤ spare self.new };

    /// Puts an entry in its place. It fails only where no memory is set aside and none is left.
    /// No entry of the same sender and number may wait.
    fn insert(&mut self, entry: Entry) -> Result<(), AllocError>
        requires { entry_of entry.message.sender entry.message.number (entries self.old) ≡ None }
        ensures ok { OnOk result (entries self.new ≡ put_entry entry (entries self.old)) }
        ensures err { OnErr result (entries self.new ≡ entries self.old) }
        ensures succeeds { 0 < spare self.old → IsOk result }
        ensures spent { 0 < spare self.old → spare self.new + 1 ≡ spare self.old };

    /// Takes out the entry of this sender and number.
    fn retract(&mut self, sender: u8, number: u16) -> Option<Entry>
        ensures taken { result ≡ entry_of sender number (entries self.old) }
        ensures rest { entries self.new ≡ entries_without sender number (entries self.old) }
        ensures none { IfNone result (entries self.new ≡ entries self.old) }
        ensures kept { spare self.old ≤ spare self.new };

    /// Takes the buffer from the least entry that is timed below `below` and has one, and gives
    /// its sender and buffer. The entry stays.
    fn settle(&mut self, below: u64) -> Option<(u8, u16)>
        ensures taken { result ≡ first_buffer below (entries self.old) }
        ensures rest { entries self.new ≡ with_first_settled below (entries self.old) }
        ensures none { IfNone result (entries self.new ≡ entries self.old) }
        ensures kept { spare self.old ≤ spare self.new };

    /// The first entry's time.
    fn least(&self) -> Option<u64>
        ensures first { result ≡ first_time (entries self.now) }
        ensures none { IsNone result ↔ (entries self.now ≡ []) };

    /// Takes out the first entry, if it is timed `time` or less.
    fn pop_due(&mut self, time: u64) -> Option<Entry>
        ensures first { result ≡ first_due time (entries self.old) }
        ensures rest { entries self.old ≡ option_to_list result ++ entries self.new }
        ensures kept { spare self.old ≤ spare self.new };

    // The keys rise strictly along the list.
    ghost in_order: { (queue : Self) → IsInOrder (entries queue) };

    // No two entries have the same sender and number.
    ghost numbered_apart: { (queue : Self) → AreNumberedApart (entries queue) };
}
