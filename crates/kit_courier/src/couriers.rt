use crate::CourierView;
use kit_ground::{Event, Protocol};

/// The rule of this client.
///
/// What a federate knows of a clock is at most what its register shows, and each letter that was
/// read is one that its sender sent to its reader.
pub struct Couriers;

impl Protocol for Couriers {
    ghost use Rattle.kit_courier.specs.Couriers.{courier_rule};
    ghost use Rattle.kit_courier.specs.Deliveries.{courier_first};

    type View = CourierView;

    /// How many federates there are.
    type Opening = u8;

    ghost rule = { courier_rule };

    ghost first = { courier_first };
}

/// What each step does to the view of the seat that makes it.
pub struct Deliveries;

impl Event<CourierView> for Deliveries {
    ghost use Rattle.kit_courier.specs.Deliveries.{view_after};

    ghost next = { view_after };
}
