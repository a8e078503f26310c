//! How a run ends.
ghost use Rattle.std.specs.Prelude.{◌≡◌};
ghost use Rattle.kit_deal.specs.Dealings.{is_last_turn};
ghost use Rattle.kit_runner.specs.Ends.{activity_by, end_more, is_bad_answer};

use kit_deal::Activity;
use kit_node::{End, NodeEnd, Turn};

/// Whether this answer ends its node badly.
pub(crate) fn is_bad(turn: Turn) -> bool
    ensures { result ≡ is_bad_answer turn }
{
    match turn {
        Turn::Worked | Turn::Idle | Turn::Finished | Turn::Stopped => false,
        Turn::NoBuffer { .. } | Turn::SendsSpent | Turn::RoundsSpent | Turn::NoMemory => true,
    }
}

/// What a turn with this answer did: a node that has ended, or that saw that the run is to stop,
/// gets no further turns.
pub(crate) fn activity_of(turn: Turn) -> Activity
    ensures { result ≡ activity_by turn }
{
    match turn {
        Turn::Worked => Activity::Worked,
        Turn::Idle => Activity::Idle,
        _ => Activity::Ended,
    }
}

/// Whether a turn that did this is its node's last.
pub(crate) fn is_last(activity: Activity) -> bool
    ensures { result ≡ is_last_turn activity }
{
    match activity {
        Activity::Worked | Activity::Idle => false,
        Activity::Ended => true,
    }
}

/// The end of a run, with the node of this federate after those of the federates before it.
pub(crate) fn end_with(so_far: End, federate: u8, ended: Option<NodeEnd>) -> End
    ensures { result ≡ end_more so_far federate ended }
{
    match so_far {
        End::Done | End::NoMemory => match ended {
            Some(NodeEnd::Finished) => so_far,
            Some(NodeEnd::NoBuffer { number }) => End::NoBuffer { federate, number },
            Some(NodeEnd::SendsSpent) => End::SendsSpent { federate },
            Some(NodeEnd::RoundsSpent) => End::RoundsSpent { federate },
            None | Some(NodeEnd::NoMemory) => End::NoMemory,
        },
        _ => so_far,
    }
}
