use crate::{Event, Protocol};

/// The rule that asks nothing.
pub struct Bare;

impl Protocol for Bare {
    type View = ();

    type Opening = ();

    ghost rule = { record { holds = λ m places. Unit {0}; sees = λ m places g. Unit {0} } };

    ghost first = { λ about k. tt };
}

/// The event that leaves the client's view as it is.
pub struct Unmoved;

impl<V> Event<V> for Unmoved {
    ghost next = { λ deed p. p.client };
}
