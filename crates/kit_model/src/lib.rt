//! What layers that run a federation on nodes speak of: journals, counts of copies, the shares of a
//! reduction, and the blocks of a butterfly.
#![tactic(auto)]

mod journal;
mod laws;
mod share;

pub use journal::{Journal, JournalEntry};
pub use laws::{
    blocks_double, copies_count, groups_join, journals_are_lawful, shares_come_back, shares_join,
    values_double, words_show_their_round,
};
pub use share::{Share, join_shares, pack_share, unpack_share};
