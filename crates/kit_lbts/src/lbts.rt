use crate::{LbtsView, Scheme};
use kit_ground::{Event, Protocol};
use kit_known::Known;
use kit_rules::Federation;

/// What a run begins with: the federation, and how all seats reduce.
#[derive(Drop)]
pub struct Opening {
    pub federation: Known<Federation>,
    pub scheme: Scheme,
}

/// The rule of a federation on a floor.
///
/// What a federate has in its queue and its journal was sent to it; the rounds of the reduction are
/// those of Mattern's coloured counts; registers show what was contributed; and each federate
/// agrees with the sequential simulation.
pub struct Lbts;

impl Protocol for Lbts {
    ghost use Rattle.kit_lbts.specs.Agreement.{agreeing_rule};
    ghost use Rattle.kit_lbts.specs.Progress.{lbts_first};

    type View = LbtsView;

    type Opening = Opening;

    ghost rule = { agreeing_rule };

    ghost first = { lbts_first };
}

/// What each step does to the view of the seat that makes it.
pub struct LbtsEvent;

impl Event<LbtsView> for LbtsEvent {
    ghost use Rattle.kit_lbts.specs.Progress.{view_after};

    ghost next = { view_after };
}
