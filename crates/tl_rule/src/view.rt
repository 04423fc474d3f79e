//! What seats know. No value of these types is ever made: contracts alone speak of them.
use std::collections::LinkedList;
use tl_map::Owner;
use tl_ops::Bank;
use tl_types::{Ask, Entry, Reply};

/// What never changes: the counts, the owners of the masters' sources, and what each port's bank held at the start.
pub struct About {
    pub slots: usize,
    pub masters: usize,
    pub ports: usize,
    pub owners: LinkedList<Owner>,
    pub resets: LinkedList<Bank>,
}

/// What a master's hand has of one slot.
pub enum Held {
    Nothing,
    /// It was claimed, and nothing is posted yet.
    Filled,
    /// The request that was posted, its port, and how many replies had been collected then.
    Sent(Ask, usize, usize),
    /// The reply of this port was collected, and the slot is not released yet.
    Taken(usize),
}

/// What a master's seat knows: an item for each slot, the replies in the order collected, and whether it has left.
pub struct Hands {
    pub number: usize,
    pub about: About,
    pub hand: LinkedList<Held>,
    pub got: LinkedList<Entry>,
    pub left: bool,
}

/// What a port's seat knows: the requests with their replies in the order served, and the slots with their requests
/// that it has accepted and not answered, in the order accepted.
pub struct Desk {
    pub number: usize,
    pub about: About,
    pub list: LinkedList<(Ask, Reply)>,
    pub serving: LinkedList<(usize, Ask)>,
}

/// What a seat knows. The dealer gives out the others: the masters' seats in order, and then the ports'.
pub enum View {
    Dealer(About, usize, usize),
    Master(Hands),
    Port(Desk),
}
