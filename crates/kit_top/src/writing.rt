//! Texts on their way to the sink.

ghost use Rattle.std.specs.Prelude.{◌≡◌};
ghost use Rattle.kit_io.specs.Causes.{Rose};
ghost use Rattle.kit_top.specs.Causes.{HasText, IsThis, Told};

use crate::Status;
use kit_io::{Sink, write_text};

/// Writes the text of a status, and gives that status, or `WriteFault`.
pub(crate) fn tell<K: Sink>(sink: &mut K, text: &[u8], status: Status) -> Status
    requires { HasText status }
    ensures told { Told (IsThis status text.now) (K.holds sink.old) (K.holds sink.new) result }
    ensures fault { result ≡ Status.WriteFault → Rose (K.faults sink.old) (K.faults sink.new) }
{
    match write_text(sink, text) {
        Ok(()) => status,
        Err(_) => Status::WriteFault,
    }
}
