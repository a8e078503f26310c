//! The lines of faults that name a federate.

ghost use Rattle.std.specs.Prelude.{◌≡◌, ◌<◌, length, IfOk};
ghost use Rattle.kit_io.specs.Causes.{Rose};
ghost use Rattle.kit_top.specs.Causes.{HasText, IsThis, Told, federate_text, no_buffer_text};

use crate::Status;
use crate::writing::tell;
use kit_base::push_decimal;
use kit_io::Sink;
use kit_rules::Federation;
use std::alloc::{AllocError, Global};

fn federate_line(
    alloc: Global,
    kind: &str,
    federation: &Federation,
    federate: u8,
) -> Result<Vec<u8>, AllocError>
    requires { federate < length federation.now.federates }
    ensures { IfOk result (λ line. line.items ≡ federate_text kind.now federation.now federate) }
{
    let mut line = Vec::from_slice(alloc, b"fault ")?;
    line.extend_from_slice(kind.as_bytes())?;
    line.extend_from_slice(b" ")?;
    line.extend_from_slice(federation.federate(federate).name.bytes())?;
    line.extend_from_slice(b"\n")?;
    Ok(line)
}

/// Writes the line of a fault of this kind, with the federate's name.
pub(crate) fn tell_federate<K: Sink>(
    alloc: Global,
    kind: &str,
    federation: &Federation,
    federate: u8,
    status: Status,
    sink: &mut K,
) -> Status
    requires federate { federate < length federation.now.federates }
    requires text { HasText status }
    ensures told { Told (IsThis status (federate_text kind.now federation.now federate))
        (K.holds sink.old) (K.holds sink.new) result }
    ensures fault { result ≡ Status.WriteFault → Rose (K.faults sink.old) (K.faults sink.new) }
{
    match federate_line(alloc, kind, federation, federate) {
        Ok(line) => tell(sink, &line, status),
        Err(AllocError) => Status::NoMemory,
    }
}

fn no_buffer_line(
    alloc: Global,
    federation: &Federation,
    federate: u8,
    number: u16,
) -> Result<Vec<u8>, AllocError>
    requires { federate < length federation.now.federates }
    ensures { IfOk result (λ line. line.items ≡ no_buffer_text federation.now federate number) }
{
    let mut line = Vec::from_slice(alloc, b"fault NoBuffer ")?;
    line.extend_from_slice(federation.federate(federate).name.bytes())?;
    line.extend_from_slice(b" ")?;
    push_decimal(&mut line, u64::from(number))?;
    line.extend_from_slice(b"\n")?;
    Ok(line)
}

/// Writes the line of a federate that has no buffer for its message of this number.
pub(crate) fn tell_no_buffer<K: Sink>(
    alloc: Global,
    federation: &Federation,
    federate: u8,
    number: u16,
    sink: &mut K,
) -> Status
    requires { federate < length federation.now.federates }
    ensures told { Told (IsThis (Status.NoBuffer federate number)
        (no_buffer_text federation.now federate number))
        (K.holds sink.old) (K.holds sink.new) result }
    ensures fault { result ≡ Status.WriteFault → Rose (K.faults sink.old) (K.faults sink.new) }
{
    match no_buffer_line(alloc, federation, federate, number) {
        Ok(line) => tell(sink, &line, Status::NoBuffer { federate, number }),
        Err(AllocError) => Status::NoMemory,
    }
}
