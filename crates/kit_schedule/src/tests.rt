use super::*;
use std::alloc::{AllocError, Global};
use std::test::*;

/// The words of a command line.
fn words_of(alloc: Global, line: &[&str]) -> Result<Vec<Word>, AllocError> {
    let mut words = Vec::new(alloc);
    for text in line {
        words.push(Word::of(alloc, *text)?)?;
    }
    Ok(words)
}

#[test]
fn words_write_their_entries(rt: HostRuntime) -> Result<(), AllocError> {
    let table: [(&[&str], &[u8]); 6] = [
        (&[], &[]),
        (&["aba"], &[0, 1, 0]),
        (&["ap", "b"], &[0, 15, 1]),
        (&["3*ba"], &[1, 0, 1, 0, 1, 0]),
        (
            &["1*c", "10*p"],
            &[2, 15, 15, 15, 15, 15, 15, 15, 15, 15, 15],
        ),
        (&["babab"], &[1, 0, 1, 0, 1]),
    ];
    for (line, entries) in table {
        let words = words_of(rt.alloc(), line)?;
        match schedule_of(rt.alloc(), &words)? {
            Some(schedule) => assert_eq!(rt; schedule.entries(), entries),
            None => assert!(rt; false, "no schedule"),
        }
    }
    Ok(())
}

#[test]
fn other_words_are_no_schedule(rt: HostRuntime) -> Result<(), AllocError> {
    let table: [&[&str]; 16] = [
        &["q"],
        &["0*a"],
        &["01*a"],
        &["1000001*a"],
        &["99999999999999999999*a"],
        &[""],
        &["*a"],
        &["3*"],
        &["3"],
        &["A"],
        &["a*b"],
        &["2*a*b"],
        &["+1*a"],
        &["2 *a"],
        &["ab", "3*aq"],
        &["1000000*aaaaaaaaaaaaaaaa", "777217*a"],
    ];
    for line in table {
        let words = words_of(rt.alloc(), line)?;
        assert!(rt; schedule_of(rt.alloc(), &words)?.is_none());
    }
    Ok(())
}

#[test]
fn the_longest_schedule(rt: HostRuntime) -> Result<(), AllocError> {
    let words = words_of(rt.alloc(), &["1000000*abcdefghijklmnop", "777216*b"])?;
    match schedule_of(rt.alloc(), &words)? {
        Some(schedule) => assert_eq!(rt; schedule.entries().len(), 16_777_216),
        None => assert!(rt; false, "no schedule"),
    }
    Ok(())
}

#[test]
fn a_word_is_its_text(rt: HostRuntime) -> Result<(), AllocError> {
    let word = Word::of(rt.alloc(), "check")?;
    assert!(rt; word.is("check"));
    assert!(rt; !word.is("checks"));
    assert_eq!(rt; word.bytes(), b"check".as_slice());
    Ok(())
}
