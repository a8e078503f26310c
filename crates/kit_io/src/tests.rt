ghost use Rattle.std.specs.Prelude.{ℕ, List, Option};

use crate::{
    Failed, MemorySink, MemorySource, ReadEnd, Sink, Source, StdSink, StdSource, WriteFault,
    read_all, write_text,
};
use std::alloc::AllocError;
use std::io;
use std::io::{ErrorKind, Read};

#[test]
fn reads_to_the_end_or_says_why_not(rt: HostRuntime) -> Result<(), AllocError> {
    let rows: [(&[u8], usize, &[u64], usize, Result<&[u8], ReadEnd>); 9] = [
        (b"", 1, &[], 0, Ok(b"")),
        (b"0 a 100\n", 16, &[], 8, Ok(b"0 a 100\n")),
        (b"0 a 100\n", 3, &[], 100, Ok(b"0 a 100\n")),
        (b"0 a 100\n", 3, &[], 7, Err(ReadEnd::TooLong)),
        (b"0 a 100\n", 3, &[0], 8, Err(ReadEnd::ReadFault)),
        (b"0 a 100\n", 3, &[1], 8, Err(ReadEnd::ReadFault)),
        (b"0 a 100\n", 3, &[3], 8, Err(ReadEnd::ReadFault)),
        (b"0 a 100\n", 3, &[4], 8, Ok(b"0 a 100\n")),
        (b"0 a 100\n", 3, &[], usize::MAX, Err(ReadEnd::NoMemory)),
    ];
    for (bytes, most, fail, limit, want) in rows {
        assert!(rt; most >= 1);
        let bytes = Vec::from_slice(rt.alloc(), bytes)?;
        let fail = Vec::from_slice(rt.alloc(), fail)?;
        let mut source = MemorySource::new(bytes, most, fail);
        let got = read_all(rt.alloc(), &mut source, limit);
        let got = got.as_ref().map(|read| read.as_slice()).map_err(|end| *end);
        assert_eq!(rt; got, want, "at most {most} bytes a call, limit {limit}");
    }
    Ok(())
}

#[test]
fn goes_on_after_a_fault_in_mid_stream(rt: HostRuntime) -> Result<(), AllocError> {
    let bytes = Vec::from_slice(rt.alloc(), b"0 a 100\n")?;
    let fail = Vec::from_slice(rt.alloc(), &[1])?;
    let mut source = MemorySource::new(bytes, 4, fail);
    let mut into = [0u8; 6];
    let rows: [(Result<usize, Failed>, &[u8]); 4] = [
        (Ok(4), b"0 a \0\0"),
        (Err(Failed), b"0 a \0\0"),
        (Ok(4), b"100\n\0\0"),
        (Ok(0), b"100\n\0\0"),
    ];
    for (want, front) in rows {
        assert_eq!(rt; source.read(&mut into), want);
        assert_eq!(rt; &into[..], front);
    }
    Ok(())
}

#[test]
fn writes_whole_or_a_front(rt: HostRuntime) -> Result<(), AllocError> {
    let text = b"1 a grant 5\n";
    let rows: [(usize, usize, &[u64], Result<(), WriteFault>, &[u8]); 6] = [
        (12, 100, &[], Ok(()), text),
        (12, 4, &[], Ok(()), text),
        (100, 4, &[3], Ok(()), text),
        (100, 4, &[0], Err(WriteFault), b""),
        (100, 4, &[1], Err(WriteFault), b"1 a "),
        (11, 4, &[], Err(WriteFault), b"1 a grant 5"),
    ];
    for (room, most, fail, want, held) in rows {
        assert!(rt; most >= 1);
        let fail = Vec::from_slice(rt.alloc(), fail)?;
        let mut sink = MemorySink::new(rt.alloc(), room, most, fail)?;
        assert_eq!(rt;
            write_text(&mut sink, text),
            want,
            "room {room}, at most {most} bytes a call"
        );
        assert_eq!(rt;
            sink.held(),
            held,
            "room {room}, at most {most} bytes a call"
        );
    }
    Ok(())
}

// Keeps the length of each piece that it is handed, and takes at most four bytes of it.
#[derive(Drop)]
struct Recorder {
    lengths: Vec<usize>,
    faults: u64,
}

impl Sink for Recorder {
    ghost holds = { λ _. Option.None };

    ghost faults = { λ s. s.faults };

    ghost write_gives = { λ _ _ _ _. Unit {0} };

    fn write(&mut self, from: &[u8]) -> Result<usize, Failed> {
        if self.lengths.push(from.len()).is_err() {
            self.faults = self.faults.saturating_add(1);
            return Err(Failed);
        }
        Ok(from.len().min(4))
    }
}

#[test]
fn each_write_hands_over_all_that_is_left(rt: HostRuntime) {
    let mut sink = Recorder {
        lengths: Vec::new(rt.alloc()),
        faults: 0,
    };
    assert_eq!(rt; write_text(&mut sink, b"1 a grant 5\n2"), Ok(()));
    assert_eq!(rt; sink.lengths.as_slice(), [13usize, 9, 5, 1].as_slice());
}

// A reader whose first call fails.
#[derive(Drop)]
struct Slow {
    called: bool,
}

impl Read for Slow {
    fn read(&mut self, buf: &mut [u8]) -> io::Result<usize> {
        if !self.called {
            self.called = true;
            return Err(io::Error::from(ErrorKind::Interrupted));
        }
        buf.fill(7);
        Ok(buf.len())
    }
}

#[test]
fn adapts_readers_of_std(rt: HostRuntime) {
    let text: &[u8] = b"0 a 100\n";
    let read = read_all(rt.alloc(), &mut StdSource::new(text), 8);
    assert_eq!(rt; read.as_ref().map(|read| read.as_slice()), Ok(text));

    let mut slow = StdSource::new(Slow { called: false });
    let mut into = [0u8; 2];
    assert_eq!(rt; slow.read(&mut into), Err(Failed));
    assert_eq!(rt; slow.read(&mut into), Ok(2));
    assert_eq!(rt; into, [7, 7]);
}

#[test]
fn adapts_writers_of_std(rt: HostRuntime) {
    let mut held = Vec::new(rt.alloc());
    assert_eq!(rt;
        write_text(&mut StdSink::new(&mut held), b"1 a grant 5\n"),
        Ok(())
    );
    assert_eq!(rt; held.as_slice(), b"1 a grant 5\n".as_slice());

    // A slice that is full takes nothing of a piece.
    let mut room = [0u8; 4];
    let mut full = StdSink::new(&mut room[..]);
    assert_eq!(rt; full.write(b"1 a grant 5\n"), Ok(4));
    assert_eq!(rt; full.write(b"grant 5\n"), Err(Failed));
    assert_eq!(rt; full.write(b""), Ok(0));
    assert_eq!(rt; room, *b"1 a ");
}
