//! Regions: an update goes to the federates whose subscriptions to its group overlap its range.
#![tactic(auto)]

mod crowding;
mod laws;
mod limits;
mod lowering;
mod matching;
mod region;
mod regioned;
#[cfg(test)]
mod tests;
mod text;

pub use laws::{
    masks_are_subscribers, plans_make_federations, receivers_overlap, same_needs, same_simulation,
    same_spender, same_text,
};
pub use limits::{MOST_SUBSCRIPTIONS, MOST_UPDATES, is_plan};
pub use lowering::{RegionEnd, lower};
pub use matching::{match_all, overlap};
pub use region::{Range, Subscription, Update};
pub use regioned::Regioned;
pub use text::region_text;
