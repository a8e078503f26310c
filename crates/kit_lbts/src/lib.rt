//! The protocol of a federation on a floor: what each federate knows, what each step does to that,
//! and the rule that holds between any two steps.
#![tactic(auto)]

mod laws;
mod lbts;
mod promises;
mod view;

pub use laws::{
    agreement_begins, buffers_are_released, deeds_are_steps, federates_agree,
    federates_are_as_simulated, floors_show_moments, full_pools_are_short, looks_keep_the_rule,
    looks_teach, lows_are_least, messages_are_received, messages_are_sent, next_blocks_are_known,
    openings_hold, places_tell, registers_are_as_contributed, rounds_are_as_counted,
    shares_are_published, shares_come_together, steps_keep_rounds, times_are_granted,
};
pub use lbts::{Lbts, LbtsEvent, Opening};
pub use promises::{low_of, may_grant, promise};
pub use view::{Filled, InHand, LbtsView, Noted, Orphan, Posting, Scheme, Spent};
