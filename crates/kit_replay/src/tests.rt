mod files;

use crate::{Replayed, replay};
use files::{LISTENER, MANY, ONE_BUFFER, PAIR, REGULATING, SIX, SIXTEEN, STEPS, TAKEN_BACK, THREE};
use kit_file::read_federation;
use kit_model::JournalEntry;
use kit_node::{End, NodeReport};
use kit_rules::Federation;
use std::alloc::{AllocError, Global};
use std::process::Abort;
use std::test::*;

/// How many rounds beyond the first.
const MORE_ROUNDS: u16 = u16::MAX;

fn federation_of(rt: &impl Abort, alloc: Global, file: &str) -> Federation {
    match read_federation(alloc, file.as_bytes()) {
        Ok(federation) => federation,
        Err(_) => panic!(rt; "{file}"),
    }
}

/// So many times these federates, by their letters.
fn schedule_of(alloc: Global, times: u64, letters: &str) -> Result<Vec<u8>, AllocError> {
    let mut schedule = Vec::new(alloc);
    for _ in 0..times {
        for letter in letters.as_bytes() {
            schedule.push(letter.wrapping_sub(97))?;
        }
    }
    Ok(schedule)
}

/// Replays a file, with a schedule of so many times these letters, and at most so many rounds
/// beyond the first.
fn run(
    rt: &impl Abort,
    alloc: Global,
    file: &str,
    times: u64,
    letters: &str,
    more: u16,
) -> Result<Replayed, AllocError> {
    let federation = federation_of(rt, alloc, file);
    let schedule = schedule_of(alloc, times, letters)?;
    Ok(replay(alloc, &federation, &schedule, u64::from(more) + 1))
}

/// How many rounds each node took part in.
fn rounds(alloc: Global, nodes: &[NodeReport]) -> Result<Vec<u64>, AllocError> {
    let mut rounds = Vec::new(alloc);
    for node in nodes {
        rounds.push(node.rounds)?;
    }
    Ok(rounds)
}

/// The bound that each node knows.
fn bounds(alloc: Global, nodes: &[NodeReport]) -> Result<Vec<u64>, AllocError> {
    let mut bounds = Vec::new(alloc);
    for node in nodes {
        bounds.push(node.bound)?;
    }
    Ok(bounds)
}

/// The times that a federate was granted.
fn grants(alloc: Global, nodes: &[NodeReport], federate: usize) -> Result<Vec<u64>, AllocError> {
    let mut times = Vec::new(alloc);
    if let Some(node) = nodes.get(federate) {
        for entry in node.journal.entries() {
            if let JournalEntry::Granted { time } = *entry {
                times.push(time)?;
            }
        }
    }
    Ok(times)
}

/// The numbers of the messages that a federate received.
fn receipts(alloc: Global, nodes: &[NodeReport], federate: usize) -> Result<Vec<u16>, AllocError> {
    let mut numbers = Vec::new(alloc);
    if let Some(node) = nodes.get(federate) {
        for entry in node.journal.entries() {
            if let JournalEntry::Received { message } = *entry {
                numbers.push(message.number)?;
            }
        }
    }
    Ok(numbers)
}

#[test]
fn schedules_end_as_they_should(rt: HostRuntime) -> Result<(), Fail> {
    let alloc = rt.alloc();
    let unfinished = End::Unfinished { federate: 0 };
    let spent = End::RoundsSpent { federate: 0 };
    let short = End::NoBuffer {
        federate: 0,
        number: 2,
    };
    let rows = [
        (THREE, 448, "bca", MORE_ROUNDS, End::Done),
        (TAKEN_BACK, 1, "aba", MORE_ROUNDS, End::Done),
        (PAIR, 1, "aba", MORE_ROUNDS, End::Done),
        (PAIR, 1, "bababa", MORE_ROUNDS, End::Done),
        (SIX, 832, "abcdef", MORE_ROUNDS, End::Done),
        (SIXTEEN, 2112, "abcdefghijklmnop", MORE_ROUNDS, End::Done),
        (MANY, 1, "aba", MORE_ROUNDS, End::Done),
        (LISTENER, 1, "abbbbbbbbbaab", MORE_ROUNDS, End::Done),
        (TAKEN_BACK, 1, "ab", MORE_ROUNDS, unfinished),
        (PAIR, 1, "babab", MORE_ROUNDS, unfinished),
        (PAIR, 1, "", MORE_ROUNDS, unfinished),
        (PAIR, 1, "baba", 0, spent),
        (STEPS, 1, "abababab", MORE_ROUNDS, unfinished),
        (ONE_BUFFER, 1, "abababab", MORE_ROUNDS, short),
        (TAKEN_BACK, 1, "pab", MORE_ROUNDS, unfinished),
        (LISTENER, 1, "abbbbbbbbb", MORE_ROUNDS, unfinished),
        (REGULATING, 1, "abbbbbbbbb", MORE_ROUNDS, unfinished),
    ];
    for (file, times, letters, more, end) in rows {
        let replayed = run(&rt, alloc, file, times, letters, more)?;
        assert_eq!(rt; replayed.end, end, "{letters} {file}");
    }
    Ok(())
}

#[test]
fn rounds_and_bounds_are_known(rt: HostRuntime) -> Result<(), Fail> {
    let alloc = rt.alloc();
    let rows: [(&str, &str, &[u64], &[u64]); 6] = [
        (PAIR, "aba", &[1, 1], &[2, 2]),
        (PAIR, "bababa", &[2, 2], &[2, 2]),
        (STEPS, "abababab", &[3, 3], &[6, 7]),
        (TAKEN_BACK, "ab", &[1, 1], &[0, 5]),
        (LISTENER, "abbbbbbbbb", &[1, 2], &[0, 10]),
        (REGULATING, "abbbbbbbbb", &[1, 2], &[0, 2]),
    ];
    for (file, letters, taken, known) in rows {
        let replayed = run(&rt, alloc, file, 1, letters, MORE_ROUNDS)?;
        assert_eq!(rt;
            rounds(alloc, &replayed.nodes)?.as_slice(),
            taken,
            "{letters} {file}"
        );
        assert_eq!(rt;
            bounds(alloc, &replayed.nodes)?.as_slice(),
            known,
            "{letters} {file}"
        );
    }
    Ok(())
}

#[test]
fn grants_come_as_far_as_the_bound(rt: HostRuntime) -> Result<(), Fail> {
    let alloc = rt.alloc();
    let rows: [(&str, &str, &[u64], &[u64]); 3] = [
        (STEPS, "abababab", &[1, 2, 3], &[5]),
        (LISTENER, "abbbbbbbbb", &[], &[1, 2, 3, 4, 5, 6, 7, 8, 9]),
        (REGULATING, "abbbbbbbbb", &[], &[1]),
    ];
    for (file, letters, first, second) in rows {
        let replayed = run(&rt, alloc, file, 1, letters, MORE_ROUNDS)?;
        assert_eq!(rt;
            grants(alloc, &replayed.nodes, 0)?.as_slice(),
            first,
            "{letters} {file}"
        );
        assert_eq!(rt;
            grants(alloc, &replayed.nodes, 1)?.as_slice(),
            second,
            "{letters} {file}"
        );
    }
    Ok(())
}

#[test]
fn a_message_and_its_retraction_come_at_once(rt: HostRuntime) -> Result<(), Fail> {
    let alloc = rt.alloc();
    let replayed = run(&rt, alloc, TAKEN_BACK, 1, "ab", MORE_ROUNDS)?;
    assert_eq!(rt;
        receipts(alloc, &replayed.nodes, 1)?.as_slice(),
        [1, 2].as_slice()
    );
    Ok(())
}
