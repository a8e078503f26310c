//! What a plan says of regions.

use kit_rules::{Name, Named};

/// The numbers from `from` on and below `to`.
#[derive(Clone, Copy, Debug, PartialEq, Eq)]
pub struct Range {
    /// The first of them.
    pub from: u32,
    /// The first past them.
    pub to: u32,
}

/// What a federate subscribes to: the part of a group's updates whose ranges overlap its own.
#[derive(Clone, Copy, Debug, PartialEq, Eq)]
pub struct Subscription {
    /// The group, by its number.
    pub group: u8,
    /// The federate, by its number.
    pub federate: u8,
    /// The range.
    pub range: Range,
}

/// An update region of a group, to which federates send.
#[derive(Debug, Drop)]
pub struct Update {
    /// Its name, which no other update has.
    pub name: Name,
    /// The group, by its number.
    pub group: u8,
    /// The range.
    pub range: Range,
}

impl Named for Update {
    ghost name_of = { λ u. u.name };

    fn name(&self) -> &Name {
        &self.name
    }
}
