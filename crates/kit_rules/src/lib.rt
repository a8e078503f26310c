//! Federations, the rule step, and the definitions of the sequential simulation and its text.
#![tactic(auto)]

mod act;
mod delivery;
mod faults;
mod fed_state;
mod federation;
mod laws;
mod limits;
mod marks;
mod name;
mod own;
mod running;
mod scene;
mod table;
#[cfg(test)]
mod tests;

pub use delivery::{is_member, receivers, transported};
pub use faults::{
    ActionFault, FederateFault, FederationFault, GroupFault, NameFault, RuleFault, first_fault,
};
pub use fed_state::FedState;
pub use federation::Federation;
pub use laws::{
    dues_by_the_least, lookaheads_are_positive, names_are_tested, only_regulating_send,
    sends_keep_lookahead,
};
pub use limits::{
    MOST_ACTIONS, MOST_BUFFERS, MOST_CONDS, MOST_FEDERATES, MOST_GROUPS, MOST_RULES, MOST_TIME,
    MOST_VARS, Named, are_vars, is_action, is_cond, is_count, is_lookahead, is_step, is_trigger,
    is_wish, names_differ, obeys,
};
pub use name::{MOST_NAME_BYTES, Name, is_name};
pub use own::Own;
pub use running::apply;
use scene::Scene;
pub use scene::{ApplyEnd, State};
pub use table::{
    Action, Compare, Cond, Federate, Group, Operand, Request, Rule, Trigger, Var, Wish,
};
