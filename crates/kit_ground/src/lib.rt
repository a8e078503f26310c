//! A floor of words, on which federates exchange messages without waiting, and one seat of it.
#![tactic(auto)]

mod address;
mod bare;
mod deeds;
mod ground;
mod laws;
mod place;
mod plain;

pub use address::{Address, Reg};
pub use bare::{Bare, Unmoved};
pub use deeds::{mail_bit, mail_word};
pub use ground::{Event, Ground, Protocol};
pub use laws::{
    readers_are_counted, readers_find_what_was_written, sets_are_exact, steps_keep_the_rules,
    words_stand_apart, worlds_tell,
};
pub use place::{Buffer, Deed, Glance, Place, SeatBuffers, SeatState};
pub use plain::{PlainFloor, zeros};
