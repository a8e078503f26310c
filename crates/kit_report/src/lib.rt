//! Texts of what a federation did.
#![tactic(auto)]

mod history_text;
mod merging;
mod needs_text;
mod summary_text;

pub use history_text::{lines_text, push_closing, push_line, text};
pub use merging::{Place, merge, soonest};
pub use needs_text::need_text;
pub use summary_text::summary;
