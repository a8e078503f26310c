use kit_model::Share;

/// What a federate contributed to a round.
///
/// Contracts alone see it: no value of this type is made.
pub struct Contribution {
    /// The run that the round belongs to.
    pub run: u64,
    pub share: Share,
    /// How many copies the federate had posted and received at that moment.
    pub posts: u64,
    pub receipts: u64,
}
