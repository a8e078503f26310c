//! The ends of runs that name a federate.

ghost use Rattle.std.specs.Prelude.{◌≡◌};
ghost use Rattle.kit_io.specs.Causes.{Rose};
ghost use Rattle.kit_top.specs.Causes.{BadEndCauses, IsNamed, Told};

use crate::Status;
use crate::federates::{tell_federate, tell_no_buffer};
use kit_io::Sink;
use kit_node::End;
use kit_rules::Federation;
use std::alloc::Global;

/// Tells an end that is not `Done`: its federate, or nothing where there was no memory.
pub(crate) fn tell_bad_end<K: Sink>(
    alloc: Global,
    federation: &Federation,
    end: End,
    sink: &mut K,
) -> Status
    requires { IsNamed federation.now end }
    ensures told { Told (BadEndCauses federation.now end)
        (K.holds sink.old) (K.holds sink.new) result }
    ensures fault { result ≡ Status.WriteFault → Rose (K.faults sink.old) (K.faults sink.new) }
{
    match end {
        End::Done => unreachable!(),
        End::Unfinished { federate } => {
            let status = Status::Unfinished { federate };
            tell_federate(alloc, "Unfinished", federation, federate, status, sink)
        }
        End::NoBuffer { federate, number } => {
            tell_no_buffer(alloc, federation, federate, number, sink)
        }
        End::SendsSpent { federate } => {
            let status = Status::SendsSpent { federate };
            tell_federate(alloc, "SendsSpent", federation, federate, status, sink)
        }
        End::RoundsSpent { federate } => {
            let status = Status::RoundsSpent { federate };
            tell_federate(alloc, "RoundsSpent", federation, federate, status, sink)
        }
        End::NoMemory => Status::NoMemory,
    }
}
