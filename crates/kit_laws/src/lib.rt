//! Laws of the sequential simulation, which say why its definition is right.
#![tactic(auto)]

mod laws;

pub use laws::{
    blocks_ascend, few_grants, grants_end, grants_rise, last_grants, need_is_greatest,
    one_simulation, outstanding_stays,
};
