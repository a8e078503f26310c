ghost use Rattle.std.specs.Prelude.{◌≡◌, ◌≤◌, ◌<◌, ◌+◌, ℕ, List, [], Some, is_some};
ghost use Rattle.std.specs.Prelude.{length, take, drop, IfOk, OnOk, OnErr, IfSome, IsErrOf};
ghost use Rattle.std.specs.Io.KnownBytes.{ReadConsumes, Appends};
ghost use Rattle.kit_io.specs.Causes.{HasCause, Rose, Took, TookAtMost};
ghost use Rattle.kit_io.specs.Reading.{ShowsEnd};

use crate::{Failed, Sink, Source};
use std::alloc::Global;

/// Why a source was not read to its end.
#[derive(Clone, Copy, Debug, PartialEq, Eq, thiserror::Error)]
pub enum ReadEnd {
    /// A read of the source failed.
    #[error("the source failed")]
    ReadFault,
    /// The source gave more bytes than were allowed.
    #[error("the input is too long")]
    TooLong,
    /// There was no memory for the bytes.
    #[error("memory ran out")]
    NoMemory,
}

/// A text was not written whole, since the sink failed.
#[derive(Clone, Copy, Debug, PartialEq, Eq, thiserror::Error)]
#[error("the sink failed")]
pub struct WriteFault;

// Reads behind the bytes that were taken before.
fn read_behind<S: Source>(source: &mut S, buffer: &mut [u8], taken: usize) -> Result<usize, Failed>
    requires { taken ≤ length buffer.old }
    ensures kept { take taken buffer.new ≡ take taken buffer.old }
    ensures bound { IfOk result (λ n. taken + n ≤ length buffer.old) }
    ensures bytes { ReadConsumes (S.left source.old) (S.left source.new) result
        (drop taken buffer.new) }
    ensures tells { is_some (S.left source.new) ≡ is_some (S.left source.old) }
    ensures cause { HasCause (S.faults source.old) (S.faults source.new) result }
    ensures gives { S.read_gives source.old result (drop taken buffer.new) source.new }
{
    source.read(&mut buffer[taken..])
}

// The room for the bytes that are allowed, and for one more, which shows that there are too many.
fn buffer_for(alloc: Global, limit: usize) -> Result<Vec<u8>, ReadEnd>
    ensures size { IfOk result (λ v. length v.items ≡ limit + 1) }
    ensures err { OnErr result (result ≡ Err ReadEnd.NoMemory) }
{
    match limit.checked_add(1) {
        Some(size) => vec![in alloc; 0u8; size].map_err(|_| ReadEnd::NoMemory),
        None => Err(ReadEnd::NoMemory),
    }
}

/// Reads a source to its end, and gives the bytes.
///
/// All memory is taken before the first read, one buffer of `limit + 1` bytes; at `usize::MAX`
/// there is no such buffer, and the answer is `NoMemory`.
pub fn read_all<S: Source>(alloc: Global, source: &mut S, limit: usize) -> Result<Vec<u8>, ReadEnd>
    // Ok: all that was left was taken, it is the result, and a read of this call showed the end.
    ensures bytes { IfOk result (λ v. IfSome (S.left source.old) (λ xs. v.items ≡ xs)) }
    ensures emptied { OnOk result (IfSome (S.left source.old) (λ _. S.left source.new ≡ Some [])) }
    ensures short { IfOk result (λ v. length v.items ≤ limit) }
    ensures ended { OnOk result (ShowsEnd S.Source source.new) }

    // ReadFault: a read failed, and no more than the limit was taken before.
    ensures fault { IsErrOf result ReadEnd.ReadFault →
        Rose (S.faults source.old) (S.faults source.new) }
    ensures fault_taken { IsErrOf result ReadEnd.ReadFault →
        TookAtMost (S.left source.old) (S.left source.new) limit }

    // TooLong: one byte more than the limit was taken, which happens at no other answer.
    ensures too_long { IsErrOf result ReadEnd.TooLong →
        Took (S.left source.old) (S.left source.new) (limit + 1) }

    // NoMemory: nothing was read.
    ensures no_memory { IsErrOf result ReadEnd.NoMemory → source.new ≡ source.old }

    ensures later { S.faults source.old ≤ S.faults source.new }
    ensures tells { is_some (S.left source.new) ≡ is_some (S.left source.old) }
{
    let mut buffer = buffer_for(alloc, limit)?;
    let mut taken: usize = 0;
    while taken <= limit {
        match read_behind(source, &mut buffer, taken) {
            Ok(0) => {
                buffer.truncate(taken);
                return Ok(buffer);
            }
            Ok(count) => taken += count,
            Err(_) => return Err(ReadEnd::ReadFault),
        }
    }
    Err(ReadEnd::TooLong)
}

/// Writes a text whole. Each write hands over all that is not yet written. It takes no memory.
pub fn write_text<K: Sink>(sink: &mut K, text: &[u8]) -> Result<(), WriteFault>
    ensures whole { OnOk result (Appends (K.holds sink.old) (K.holds sink.new) text.now) }

    // WriteFault: the sink failed, with a front of the text written that is not all of it.
    ensures fault { OnErr result (Rose (K.faults sink.old) (K.faults sink.new)) }
    ensures prefix { OnErr result ((n : ℕ) × (n < length text.now) ×
        Appends (K.holds sink.old) (K.holds sink.new) (take n text.now)) }

    ensures later { K.faults sink.old ≤ K.faults sink.new }
    ensures tells { is_some (K.holds sink.new) ≡ is_some (K.holds sink.old) }
{
    let mut rest = text;
    while !rest.is_empty() {
        match sink.write(rest) {
            Ok(count) => rest = &rest[count..],
            Err(_) => return Err(WriteFault),
        }
    }
    Ok(())
}
