//! What a file says.

use kit_regions::Regioned;
use kit_rules::Federation;

/// A federation, and the plan that it was lowered from, where the file has regions.
#[derive(Debug, Drop)]
pub(crate) struct Content {
    pub federation: Federation,
    pub plan: Option<Regioned>,
}
