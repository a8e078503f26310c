//! Laws of the sequential simulation alone: a federate by itself. Each is the contract of a
//! function that does nothing.
#![tactic(auto)]

mod blocks;
mod bounds;
mod flows;
mod merges;
mod promises;
mod queues;

pub use blocks::{
    ends_are_whole, fronts_are_reached, fronts_send, got_is_delivered, need_covers, need_holds,
    nothing_comes_late, parts_end, parts_rise, sends_are_numbered, sends_grow, spent_agrees,
    spent_among, whole_parts_are_seats,
};
pub use bounds::{
    all_is_heard, bounds_are_cuts, bounds_carry, grants_agree, lists_are_split, nobody_sends_below,
    nobody_sends_to_itself, what_comes_is_new, what_waits_is_new,
};
pub use flows::{ends_agree, ends_make_the_text, flows_agree, flows_are_lawful, flows_keep_bounds};
pub use merges::{one_merge, parts_are_part, parts_make_the_text, parts_merge};
pub use promises::{
    due_is_ahead, grant_keeps_promise, grants_send_late, least_is_below, post_keeps_promise,
    promises_are_capped, receipt_keeps_promise, start_keeps_promise, starts_send_late,
    steps_send_late, waiting_keeps_promise,
};
pub use queues::{
    copies_are_transported, due_by_first, due_by_queue, due_is_received, grants_agree_by_queue,
    messages_are_one, new_is_pending, queue_delivers, queue_is_ahead, queue_is_ordered,
    queue_is_received, queue_keeps, queue_splits, queue_takes_event, queue_takes_retraction,
    retracted_once, retractions_are_like, retractions_name, settled_is_safe,
};
