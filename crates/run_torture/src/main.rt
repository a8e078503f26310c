//! Runs of random federations by workers that are disturbed at random, each compared with the
//! sequential simulation. Words: how many runs, and the seed of the first; each next one has the
//! next seed, of which all that is random is made. The standard input has federation files, one a
//! line, which are run too. It ends with status 1 where a run differs, and names its seed.
#![tactic(auto)]

mod chance;
mod disturbers;
mod federations;
mod judging;
mod rules;
mod trials;

use kit_file::read_federation;
use kit_io::{StdSource, read_all};
use kit_rules::Federation;
use std::alloc::Global;
use std::process::ExitCode;
use std::sync::Wait;
use std::thread::Threads;
use std::{env, io};
use trials::{Trial, Verdict};

/// The most bytes of the standard input.
const MOST_BYTES: usize = 1_048_576;

/// The words of the command line: how many runs, and the first seed.
fn words_of(rt: &HostRuntime) -> io::Result<Option<(u64, u64)>> {
    let mut words = env::args(rt)?;
    let Some(runs) = words.nth(1) else {
        return Ok(None);
    };
    let Some(seed) = words.next() else {
        return Ok(None);
    };
    match (runs.parse::<u64>(), seed.parse::<u64>()) {
        (Ok(runs), Ok(seed)) => Ok(Some((runs, seed))),
        _ => Ok(None),
    }
}

/// The federations of the standard input; those of lines that are no federation files are left out.
fn given(rt: &HostRuntime) -> Option<Vec<Federation>> {
    let mut source = StdSource::new(rt.stdin());
    let Ok(bytes) = read_all(rt.alloc(), &mut source, MOST_BYTES) else {
        return None;
    };
    let mut federations = Vec::new(rt.alloc());
    for line in bytes.split(|byte| *byte == b'\n') {
        if let Ok(federation) = read_federation(rt.alloc(), line) {
            federations.push(federation).ok()?;
        }
    }
    Some(federations)
}

/// Makes the trials of so many seeds, and says how many differ.
fn differences<R: Threads + Wait + Print + Sync>(
    rt: &R,
    alloc: Global,
    given: &[Federation],
    runs: u64,
    seed: u64,
) -> io::Result<u64> {
    let mut count: u64 = 0;
    for run in 0..runs {
        let trial = Trial::of(seed.wrapping_add(run));
        let verdict = trial.verdict(rt, alloc, given);
        if verdict != Verdict::AsSimulated {
            println!(rt;
                "seed {}, {} workers: {verdict:?}",
                trial.seed, trial.workers
            )?;
            count = count.saturating_add(1);
        }
    }
    println!(rt; "{runs} runs, {count} differences")?;
    Ok(count)
}

fn main(rt: HostRuntime) -> ExitCode {
    let Ok(Some((runs, seed))) = words_of(&rt) else {
        return ExitCode::FAILURE;
    };
    let Some(given) = given(&rt) else {
        return ExitCode::FAILURE;
    };
    match differences(&rt, rt.alloc(), &given, runs, seed) {
        Ok(0) => ExitCode::SUCCESS,
        _ => ExitCode::FAILURE,
    }
}
