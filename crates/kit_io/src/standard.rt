ghost use Rattle.std.specs.Prelude.{◌≡◌, Option};
ghost use Rattle.kit_io.specs.Causes.{CountsFault};

use crate::{Failed, Sink, Source};
use std::io::{Read, Write};

/// A reader of std, with a count of its errors.
///
/// It tells no bytes. What the reader gives is the system's word, and no proof speaks of it. Each
/// error adds one to the count, which stays at its last value, 2^64 - 1, once it stands there.
#[derive(Drop)]
pub struct StdSource<R> {
    reader: R,
    faults: u64,
}

impl<R: Read> StdSource<R> {
    /// The source over this reader, which has not failed.
    pub fn new(reader: R) -> StdSource<R>
        ensures { ⟦<StdSource<R> as Source>⟧.faults result ≡ 0 }
    {
        StdSource { reader, faults: 0 }
    }
}

impl<R: Read> Source for StdSource<R> {
    ghost left = { λ s. Option.None };

    ghost faults = { λ s. s.faults };

    ghost read_gives = { λ old result _ new. CountsFault old.faults new.faults result };

    fn read(&mut self, into: &mut [u8]) -> Result<usize, Failed> {
        match self.reader.read(into) {
            Ok(count) => Ok(count),
            Err(_) => {
                self.faults = self.faults.saturating_add(1);
                Err(Failed)
            }
        }
    }
}

/// A writer of std, with a count of its errors.
///
/// It tells no bytes. What becomes of the bytes that the writer takes is the system's word, and no
/// proof speaks of it. A call that takes none of a piece that is not empty counts as an error. Each
/// error adds one to the count, which stays at its last value, 2^64 - 1, once it stands there.
#[derive(Drop)]
pub struct StdSink<W> {
    writer: W,
    faults: u64,
}

impl<W: Write> StdSink<W> {
    /// The sink over this writer, which has not failed.
    pub fn new(writer: W) -> StdSink<W>
        ensures { ⟦<StdSink<W> as Sink>⟧.faults result ≡ 0 }
    {
        StdSink { writer, faults: 0 }
    }
}

impl<W: Write> Sink for StdSink<W> {
    ghost holds = { λ s. Option.None };

    ghost faults = { λ s. s.faults };

    ghost write_gives = { λ old _ result new. CountsFault old.faults new.faults result };

    fn write(&mut self, from: &[u8]) -> Result<usize, Failed> {
        match self.writer.write(from) {
            Ok(count) if count > 0 || from.is_empty() => Ok(count),
            _ => {
                self.faults = self.faults.saturating_add(1);
                Err(Failed)
            }
        }
    }
}
