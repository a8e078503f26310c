ghost use Rattle.std.specs.Prelude.{◌≡◌, [], None};

use crate::Status;
use kit_floor::FloorAccount;
use kit_ground::PlainFloor;
use kit_lbts::Lbts;
use kit_node::NodeReport;
use std::alloc::Global;

/// How a call ended, and what it left.
#[derive(Drop)]
pub struct Ended {
    pub status: Status,
    /// The reports of the nodes that were run, in the order of the federates; none, where nothing
    /// was run.
    pub nodes: Vec<NodeReport>,
    /// The floor that the nodes of `replay` and `lock` ran on, at its end.
    pub floor: Option<PlainFloor<Lbts>>,
    /// What the floor came to that the nodes of `run` and `trial` ran on, whose words threads
    /// share.
    pub account: Option<FloorAccount<Lbts>>,
}

impl Ended {
    /// An end that left nothing.
    pub(crate) fn empty(alloc: Global, status: Status) -> Ended
        ensures status { result.status ≡ status }
        ensures nodes { result.nodes.items ≡ [] }
        ensures floor { result.floor ≡ None }
        ensures account { result.account ≡ None }
    {
        Ended {
            status,
            nodes: Vec::new(alloc),
            floor: None,
            account: None,
        }
    }
}
