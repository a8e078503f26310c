//! Messages, the lines of a history, and what every layer shares.
#![tactic(auto)]

mod decimal;
mod history;
mod items;
mod laws;
mod message;
mod words;

pub use decimal::push_decimal;
pub use history::{History, Line, Part};
pub use items::Items;
pub use laws::{bodies_are_words, bodies_come_back, heads_are_words, heads_come_back};
pub use message::{Kind, Message};
pub use words::{Head, pack_body, pack_head, unpack_body, unpack_head};
