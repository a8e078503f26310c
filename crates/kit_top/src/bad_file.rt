//! The lines of what is wrong with a file.

ghost use Rattle.std.specs.Prelude.{◌≡◌, ◌≢◌, IfOk, OnOk};
ghost use Rattle.kit_io.specs.Causes.{Rose};
ghost use Rattle.kit_top.specs.Causes.{IsTheFault, Told, path_text, bad_file_text};

use crate::Status;
use crate::writing::tell;
use kit_io::Sink;
use kit_walk::{FaultPath, FileFault};
use std::alloc::{AllocError, Global};

fn path_line(alloc: Global, kind: &str, path: &FaultPath) -> Result<Vec<u8>, AllocError>
    ensures { IfOk result (λ line. line.items ≡ path_text kind.now path.now) }
{
    let mut line = Vec::from_slice(alloc, b"fault BadFile ")?;
    line.extend_from_slice(kind.as_bytes())?;
    line.extend_from_slice(b" ")?;
    line.extend_from_slice(path.bytes())?;
    line.extend_from_slice(b"\n")?;
    Ok(line)
}

fn bad_file_line(alloc: Global, fault: &FileFault) -> Result<Vec<u8>, AllocError>
    ensures line { IfOk result (λ line. line.items ≡ bad_file_text fault.now) }
    ensures named { OnOk result (fault.now ≢ FileFault.NoMemory) }
{
    match fault {
        FileFault::NotJson => Vec::from_slice(alloc, b"fault BadFile NotJson\n"),
        FileFault::Missing { path } => path_line(alloc, "Missing", path),
        FileFault::WrongKind { path } => path_line(alloc, "WrongKind", path),
        FileFault::OutOfRange { path } => path_line(alloc, "OutOfRange", path),
        FileFault::UnknownName { path } => path_line(alloc, "UnknownName", path),
        FileFault::Repeated { path } => path_line(alloc, "Repeated", path),
        FileFault::SendTooSoon { path } => path_line(alloc, "SendTooSoon", path),
        FileFault::NotRegulating { path } => path_line(alloc, "NotRegulating", path),
        FileFault::NoMemory => Err(AllocError),
    }
}

/// Writes the line of a fault of the file.
pub(crate) fn tell_bad_file<K: Sink>(alloc: Global, fault: FileFault, sink: &mut K) -> Status
    ensures told { Told (IsTheFault fault) (K.holds sink.old) (K.holds sink.new) result }
    ensures fault { result ≡ Status.WriteFault → Rose (K.faults sink.old) (K.faults sink.new) }
{
    match bad_file_line(alloc, &fault) {
        Ok(line) => tell(sink, &line, Status::BadFile(fault)),
        Err(AllocError) => Status::NoMemory,
    }
}
