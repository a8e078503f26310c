//! Tests of the commands that run nodes by workers.

use super::*;
use crate::{Gate, rtik};
use kit_io::MemorySink;
use std::alloc::{AllocError, Global};
use std::sync::Wait;
use std::sync::atomic::{AtomicBool, AtomicU64, Ordering};
use std::test::*;
use std::thread::Threads;

/// What the words give for the file with these gates: the exit status, and what the sink holds.
fn run_through<G: Gate + Send, R: Threads + Wait + Sync>(
    rt: &R,
    alloc: Global,
    line: &str,
    gates: &mut [G; 16],
) -> Result<(u8, Vec<u8>), AllocError> {
    let words = words_of(alloc, line)?;
    let mut source = source_of(alloc, usize::MAX, Vec::new(alloc))?;
    let mut sink = MemorySink::new(alloc, 65_536, usize::MAX, Vec::new(alloc))?;
    let ended = rtik(rt, alloc, &words, &mut source, &mut sink, gates);
    Ok((ended.status.code(), Vec::from_slice(alloc, sink.held())?))
}

/// Where a gate waits for the other worker.
#[derive(Clone, Copy, PartialEq, Eq)]
enum Place {
    BeforeATurn,
    WithinATurn,
}

/// A gate that shows itself the first time, and then looks whether the other worker's was shown.
#[derive(Clone, Copy)]
struct Meeting<'a> {
    place: Place,
    shown: &'a AtomicBool,
    other: &'a AtomicBool,
    /// How many gates saw the other one.
    met: &'a AtomicU64,
}

impl Meeting<'_> {
    fn meet(&self) {
        if self.shown.swap(true, Ordering::SeqCst) {
            return;
        }
        for _ in 0..50_000_000u32 {
            if self.other.load(Ordering::SeqCst) {
                self.met.fetch_add(1, Ordering::SeqCst);
                return;
            }
        }
    }
}

impl Gate for Meeting<'_> {
    fn pass(&mut self, _: u8) {
        if self.place == Place::BeforeATurn {
            self.meet();
        }
    }

    fn step(&self, _: u8) {
        if self.place == Place::WithinATurn {
            self.meet();
        }
    }
}

#[test]
fn two_workers_meet(rt: HostRuntime) -> Result<(), AllocError> {
    for (line, place) in [
        ("lock 2", Place::BeforeATurn),
        ("run 2", Place::BeforeATurn),
        ("run 2", Place::WithinATurn),
    ] {
        let (one, two) = (AtomicBool::new(false), AtomicBool::new(false));
        let met = AtomicU64::new(0);
        let first = Meeting {
            place,
            shown: &one,
            other: &two,
            met: &met,
        };
        let mut gates = [first; 16];
        gates[1] = Meeting {
            place,
            shown: &two,
            other: &one,
            met: &met,
        };
        let (code, held) = run_through(&rt, rt.alloc(), line, &mut gates)?;
        assert_eq!(rt; code, 0, "{line}");
        assert!(rt; held.starts_with(b"1 a grant\n"), "{line}");
        assert_eq!(rt; met.load(Ordering::SeqCst), 2, "{line}");
    }
    Ok(())
}
