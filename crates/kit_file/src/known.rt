//! What the rules of a file may name.

use kit_base::Items;
use kit_rules::Name;

/// The groups that rules may be on, and the targets that they may send to, which are the same
/// groups or regions, by their names.
#[derive(Debug, Drop)]
pub(crate) struct Known {
    pub groups: Items<Name>,
    pub targets: Items<Name>,
}
