//! Tests of what the program does not show. Texts, faults and statuses are compared through the
//! program, by `tools/check_rows` and `tools/check_faults`.

mod workers;

ghost use Rattle.std.specs.Prelude.{◌≤◌};

use super::*;
use kit_io::{MemorySink, MemorySource};
use std::alloc::{AllocError, Global};
use std::test::*;

/// Federate a sends at its start what federate b is granted at time 1.
const ONE_STEP: &str =
    r#"{"version":1,"end":1,"buffers":1,"groups":[{"name":"g","members":["b"]}],"federates":[{"name":"a","lookahead":1,"advance":{"tar":1},"rules":[{"on":"start","do":[{"send":"g","delay":1,"value":7}]}]},{"name":"b","lookahead":1,"advance":{"tar":1}}]}"#;

/// The words of a command line, as the top call takes them.
fn words_of(alloc: Global, line: &str) -> Result<Vec<Word>, AllocError> {
    let mut words = Vec::new(alloc);
    for text in line.split_whitespace() {
        words.push(Word::of(alloc, text)?)?;
    }
    Ok(words)
}

/// The file as a source that gives at most so many bytes at a call, and fails at these calls.
fn source_of(alloc: Global, most: usize, fail: Vec<u64>) -> Result<MemorySource, AllocError>
    requires { 1 ≤ most }
{
    let file = Vec::from_slice(alloc, ONE_STEP.as_bytes())?;
    Ok(MemorySource::new(file, most, fail))
}

#[test]
fn replays_leave_nodes_and_a_floor(rt: HostRuntime) -> Result<(), AllocError> {
    let alloc = rt.alloc();
    for (line, rounds) in [("replay aba", 1), ("replay bababa", 2)] {
        let words = words_of(alloc, line)?;
        let mut source = source_of(alloc, usize::MAX, Vec::new(alloc))?;
        let mut sink = MemorySink::new(alloc, 65_536, usize::MAX, Vec::new(alloc))?;
        let ended = plain(alloc, &words, &mut source, &mut sink);
        assert_eq!(rt; ended.status.code(), 0, "{line}");
        assert_eq!(rt; ended.nodes.len(), 2, "{line}");
        assert!(rt;
            ended.nodes.iter().all(|node| node.rounds == rounds),
            "{line}"
        );
        assert!(rt; ended.floor.is_some(), "{line}");
    }
    Ok(())
}

#[test]
fn faults_of_source_and_sink(rt: HostRuntime) -> Result<(), AllocError> {
    let alloc = rt.alloc();
    let words = words_of(alloc, "oracle")?;

    // The first read fails.
    let mut source = source_of(alloc, usize::MAX, vec![in alloc; 0]?)?;
    let mut sink = MemorySink::new(alloc, 64, usize::MAX, Vec::new(alloc))?;
    let ended = plain(alloc, &words, &mut source, &mut sink);
    assert_eq!(rt; ended.status.code(), 3);
    assert_eq!(rt; sink.held(), b"fault ReadFault\n".as_slice());

    // The sink takes four bytes a call, and the second call fails.
    let mut source = source_of(alloc, 7, Vec::new(alloc))?;
    let mut sink = MemorySink::new(alloc, 64, 4, vec![in alloc; 1]?)?;
    let ended = plain(alloc, &words, &mut source, &mut sink);
    assert_eq!(rt; ended.status.code(), 10);
    assert_eq!(rt; sink.held(), b"1 a ".as_slice());
    Ok(())
}

#[test]
fn usage_reads_nothing(rt: HostRuntime) -> Result<(), AllocError> {
    let alloc = rt.alloc();
    let words = words_of(alloc, "lock 1")?;
    // A read would fail.
    let mut source = source_of(alloc, 1, vec![in alloc; 0]?)?;
    let mut sink = MemorySink::new(alloc, 64, usize::MAX, Vec::new(alloc))?;
    let ended = plain(alloc, &words, &mut source, &mut sink);
    assert_eq!(rt; ended.status.code(), 2);
    assert_eq!(rt; sink.held(), b"fault Usage\n".as_slice());
    Ok(())
}
