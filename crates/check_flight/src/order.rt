//! When a request takes effect.
ghost use Rattle.std.specs.Prelude.{◌≡◌};
ghost use Rattle.check_flight.specs.Order.{on_both};

/// When a request takes effect at its port.
#[derive(Debug, Clone, Copy, PartialEq, Eq)]
pub enum Order {
    /// When it is accepted: with its last beat.
    Accept,
    /// When it is answered: with the first beat of its reply.
    Reply,
    /// At some moment between the two: nobody knows when.
    Any,
}

/// When requests take effect, as they are judged at the masters' links, and at the ports'.
#[derive(Debug, Clone, Copy, PartialEq, Eq)]
pub struct SideOrders {
    pub masters: Order,
    pub ports: Order,
}

impl SideOrders {
    /// The same order on both sides.
    pub fn both(order: Order) -> SideOrders
        ensures { result ≡ on_both order }
    {
        SideOrders {
            masters: order,
            ports: order,
        }
    }
}
