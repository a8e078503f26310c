ghost use Rattle.std.specs.Prelude.{◌≡◌, ◌↔◌, ◌≤◌, ◌+◌, ◌-◌, ◌^◌, min, IsTrue, Some, [], IfOk};

use crate::{Failed, Sink, Source};
use std::alloc::{AllocError, Global};
use std::marker::Model;

// How many bytes a call moves at most, and which calls fail.
#[derive(Debug, Drop)]
struct Schedule {
    most: usize,
    fail: Vec<u64>,
    calls: u64,
    faults: u64,
    ghost some: { 1 ≤ most },
}

impl Schedule {
    ghost use Rattle.kit_io.specs.Pace.{pace_of, pace_after_call, IsListed};

    fn new(most: usize, fail: Vec<u64>) -> Schedule
        requires { 1 ≤ most }
        ensures start { pace_of result ≡ record { most = most; fail = fail.items; call = 0 } }
        ensures faults { result.faults ≡ 0 }
    {
        Schedule {
            most,
            fail,
            calls: 0,
            faults: 0,
        }
    }

    // Counts a call, and says whether it is to fail.
    fn begin(&mut self) -> bool
        ensures listed { IsTrue result ↔ IsListed (pace_of self.old) }
        ensures next { pace_of self.new ≡ pace_after_call (pace_of self.old) }
        ensures faults { self.new.faults ≡ self.old.faults }
    {
        let call = self.calls;
        self.calls = call.saturating_add(1);
        self.fail.contains(&call)
    }

    // Counts a fault.
    fn fault(&mut self) -> Failed
        ensures same { pace_of self.new ≡ pace_of self.old }
        ensures faults { self.new.faults ≡ min (self.old.faults + 1) (2 ^ 64 - 1) }
        ensures later { self.old.faults ≤ self.new.faults }
    {
        self.faults = self.faults.saturating_add(1);
        Failed
    }
}

/// A source over bytes in memory, which gives some at a time and fails at chosen calls.
#[derive(Debug, Drop)]
pub struct MemorySource {
    bytes: Vec<u8>,
    at: usize,
    schedule: Schedule,
}

impl Model for MemorySource {
    ghost use Rattle.std.specs.Prelude.{◌≤◌, length, drop};
    ghost use Rattle.kit_io.specs.Memory.{MemoryInput};
    ghost use Rattle.kit_io.specs.Pace.{pace_of};

    ghost Value = { MemoryInput };

    ghost view = { λ s. record {
      left = drop s.at s.bytes.items;
      pace = pace_of s.schedule;
      faults = s.schedule.faults;
    } };

    ghost invariant = { λ s. s.at ≤ length s.bytes.items };
}

impl MemorySource {
    /// The source of these bytes, which gives at most `most` of them at a call, and fails at the
    /// calls whose numbers, counted from 0, stand in `fail`.
    pub fn new(bytes: Vec<u8>, most: usize, fail: Vec<u64>) -> MemorySource
        requires { 1 ≤ most }
        ensures left { result.left ≡ bytes.items }
        ensures pace { result.pace ≡ record { most = most; fail = fail.items; call = 0 } }
        ensures faults { result.faults ≡ 0 }
    {
        MemorySource {
            bytes,
            at: 0,
            schedule: Schedule::new(most, fail),
        }
    }
}

impl Source for MemorySource {
    ghost use Rattle.kit_io.specs.Memory.{IsMemoryRead};

    ghost left = { λ s. Some s.left };

    ghost faults = { λ s. s.faults };

    ghost read_gives = { IsMemoryRead };

    fn read(&mut self, into: &mut [u8]) -> Result<usize, Failed> {
        if self.schedule.begin() {
            return Err(self.schedule.fault());
        }
        let left = self.bytes.len() - self.at;
        let count = left.min(self.schedule.most).min(into.len());
        into[..count].copy_from_slice(&self.bytes[self.at..self.at + count]);
        self.at += count;
        Ok(count)
    }
}

/// A sink in memory of a fixed room, which takes some bytes at a time and fails at chosen calls.
#[derive(Debug, Drop)]
pub struct MemorySink {
    bytes: Vec<u8>,
    room: usize,
    schedule: Schedule,
}

impl Model for MemorySink {
    ghost use Rattle.std.specs.Prelude.{◌≤◌, length, vec_capacity};
    ghost use Rattle.kit_io.specs.Memory.{MemoryOutput};
    ghost use Rattle.kit_io.specs.Pace.{pace_of};

    ghost Value = { MemoryOutput };

    ghost view = { λ s. record {
      held = s.bytes.items;
      room = s.room;
      pace = pace_of s.schedule;
      faults = s.schedule.faults;
    } };

    ghost invariant = { λ s. (length s.bytes.items ≤ s.room) × (s.room ≤ vec_capacity s.bytes) };
}

impl MemorySink {
    /// An empty sink for `room` bytes, which takes at most `most` of them at a call, and fails at
    /// the calls whose numbers, counted from 0, stand in `fail`. All of its memory is taken here.
    pub fn new(
        alloc: Global,
        room: usize,
        most: usize,
        fail: Vec<u64>,
    ) -> Result<MemorySink, AllocError>
        requires { 1 ≤ most }
        ensures held { IfOk result (λ s. s.held ≡ []) }
        ensures room { IfOk result (λ s. s.room ≡ room) }
        ensures pace { IfOk result (λ s.
            s.pace ≡ record { most = most; fail = fail.items; call = 0 }) }
        ensures faults { IfOk result (λ s. s.faults ≡ 0) }
    {
        let bytes = Vec::with_capacity(alloc, room)?;
        let schedule = Schedule::new(most, fail);
        Ok(MemorySink {
            bytes,
            room,
            schedule,
        })
    }

    /// What it holds.
    pub fn held(&self) -> &[u8]
        ensures { result.now ≡ self.now.held }
    {
        &self.bytes
    }
}

impl Sink for MemorySink {
    ghost use Rattle.kit_io.specs.Memory.{IsMemoryWrite};

    ghost holds = { λ s. Some s.held };

    ghost faults = { λ s. s.faults };

    ghost write_gives = { IsMemoryWrite };

    fn write(&mut self, from: &[u8]) -> Result<usize, Failed> {
        let failing = self.schedule.begin();
        let free = self.room - self.bytes.len();
        let count = from.len().min(self.schedule.most).min(free);
        if failing || (count == 0 && !from.is_empty()) {
            return Err(self.schedule.fault());
        }
        self.bytes.extend_from_slice(&from[..count]).unwrap();
        Ok(count)
    }
}
