//! Runs over one lock.

mod files;
mod gates;

use crate::{Gate, Locked, Through, lock_run};
use files::{ONE_BUFFER, PAIR, SIX, THREE};
use gates::{AtPass, Open};
use kit_base::Line;
use kit_file::read_federation;
use kit_model::JournalEntry;
use kit_node::{End, NodeReport};
use kit_oracle::simulate;
use kit_rules::Federation;
use std::alloc::{AllocError, Global};
use std::process::Abort;
use std::sync::atomic::{AtomicU64, Ordering};
use std::test::*;

fn federation_of(rt: &impl Abort, alloc: Global, file: &str) -> Federation {
    match read_federation(alloc, file.as_bytes()) {
        Ok(federation) => federation,
        Err(_) => panic!(rt; "{file}"),
    }
}

/// The lines of one federate.
fn lines_of(alloc: Global, lines: &[Line], of: u8) -> Result<Vec<Line>, AllocError> {
    let mut own = Vec::new(alloc);
    for line in lines {
        let (Line::Deliver { federate, .. } | Line::Grant { federate, .. }) = *line;
        if federate == of {
            own.push(*line)?;
        }
    }
    Ok(own)
}

/// The lines that a report tells.
fn entered(alloc: Global, report: &NodeReport, federate: u8) -> Result<Vec<Line>, AllocError> {
    let mut lines = Vec::new(alloc);
    for entry in report.journal.entries() {
        match *entry {
            JournalEntry::Received { .. } => {}
            JournalEntry::Delivered { granted, message } => lines.push(Line::Deliver {
                granted: granted as u64,
                federate,
                message,
            })?,
            JournalEntry::Granted { time } => lines.push(Line::Grant { time, federate })?,
        }
    }
    Ok(lines)
}

/// The run is done, and its reports are the sequential simulation.
fn is_simulated(
    rt: &impl Abort,
    alloc: Global,
    federation: &Federation,
    locked: &Locked,
) -> Result<(), AllocError> {
    let Ok(history) = simulate(alloc, federation) else {
        panic!(rt; "no simulation");
    };
    assert_eq!(rt; locked.end, End::Done);
    assert!(rt; locked.floor.is_some());
    assert_eq!(rt; locked.nodes.len(), usize::from(federation.count()));
    for (i, report) in locked.nodes.iter().enumerate() {
        let mine = entered(alloc, report, i as u8)?;
        let right = lines_of(alloc, history.lines.as_slice(), i as u8)?;
        assert_eq!(rt; mine.as_slice(), right.as_slice());
        assert_eq!(rt;
            report.vars.as_slice(),
            history.vars.as_slice()[i].as_slice()
        );
    }
    Ok(())
}

#[test]
fn runs_over_one_lock_are_the_simulation(rt: HostRuntime) -> Result<(), Fail> {
    let alloc = rt.alloc();
    for (file, workers) in [(PAIR, 1), (PAIR, 2), (THREE, 2), (THREE, 16), (SIX, 4)] {
        assert!(rt; 1 <= workers && workers <= 16);
        let federation = federation_of(&rt, alloc, file);
        let mut gates = [Open; 16];
        let locked = lock_run(&rt, alloc, &federation, &mut gates[..workers]);
        is_simulated(&rt, alloc, &federation, &locked)?;
    }
    Ok(())
}

/// One worker gives turns in the order of the federates, so the run ends as the replay of that
/// schedule does.
#[test]
fn a_bad_end_stops_the_run(rt: HostRuntime) -> Result<(), Fail> {
    let alloc = rt.alloc();
    let federation = federation_of(&rt, alloc, ONE_BUFFER);
    let mut gates = [Through];
    let locked = lock_run(&rt, alloc, &federation, &mut gates);
    let short = End::NoBuffer {
        federate: 0,
        number: 2,
    };
    assert_eq!(rt; locked.end, short);
    assert_eq!(rt; locked.nodes.len(), 2);
    Ok(())
}

#[test]
fn two_workers_are_under_way_at_once(rt: HostRuntime) -> Result<(), Fail> {
    let alloc = rt.alloc();
    let federation = federation_of(&rt, alloc, PAIR);
    let (a, b, saw) = (AtomicU64::new(0), AtomicU64::new(0), AtomicU64::new(0));
    let mut gates = [
        AtPass {
            mine: &a,
            theirs: &b,
            saw: &saw,
        },
        AtPass {
            mine: &b,
            theirs: &a,
            saw: &saw,
        },
    ];
    let locked = lock_run(&rt, alloc, &federation, &mut gates);
    is_simulated(&rt, alloc, &federation, &locked)?;
    assert_eq!(rt; saw.load(Ordering::SeqCst), 2);
    Ok(())
}
