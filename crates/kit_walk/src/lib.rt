//! Walks of JSON values, place by place, up to the first fault with its path.
#![tactic(auto)]

mod fault;
mod json;
mod places;

pub use fault::{Fault, FaultKind, FaultPath, FileFault, WalkEnd};
pub use json::json_in;
pub use places::{
    are_same, list_at, list_in, member_at, number_at, object_here, optional_list_at, text_at,
};
