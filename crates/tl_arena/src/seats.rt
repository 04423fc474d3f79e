//! The seats of masters and ports.
ghost use Rattle.std.specs.Prelude.{◌≡◌, ◌<◌, length};
ghost use Rattle.tl_arena.specs.Views.{owned_of};
ghost use Rattle.tl_arena.specs.Promises.{IsLawfulPort};

use crate::record::Berth;
use std::collections::VecDeque;
use std::marker::Model;
use tl_rule::View;

pub(crate) type TableSeat = atomic_table::Seat<Berth, View>;

/// A master's seat.
#[derive(Drop)]
pub struct MasterSeat {
    pub(crate) seat: TableSeat,
    // the slots whose records are out with the seat, in the seat's order
    pub(crate) order: VecDeque<usize>,
    pub(crate) number: usize,
    pub(crate) owned: usize,
    pub(crate) collected: usize,
}

impl Model for MasterSeat {
    ghost use Rattle.std.specs.VecDeque.{deque_capacity};
    ghost use Rattle.tl_arena.specs.Views.{MasterView};
    ghost use Rattle.tl_arena.specs.Kept.{master_view, IsMasterKept};

    ghost Value = { MasterView };

    ghost view = { λ s. master_view s.seat.table_id s.seat.me.0 };

    ghost invariant = { λ s. IsMasterKept s.seat.me s.order.items (deque_capacity s.order) s.number s.owned s.collected };
}

impl MasterSeat {
    /// The master's number.
    pub fn number(&self) -> usize
        ensures value { result ≡ self.now.number }
        ensures known { result < self.now.arena.about.masters }
    {
        self.number
    }

    /// How many slots it owns.
    pub fn owned(&self) -> usize
        ensures { result ≡ owned_of self.now }
    {
        self.owned
    }

    /// How many replies it has collected.
    pub fn collected(&self) -> usize
        ensures { result ≡ length self.now.got }
    {
        self.collected
    }
}

/// A port's seat.
#[derive(Drop)]
pub struct PortSeat {
    pub(crate) seat: TableSeat,
    // the slots whose records are out with the seat, in the seat's order
    pub(crate) order: VecDeque<usize>,
    // the master whose request is served at each slot
    pub(crate) owners: Vec<usize>,
    pub(crate) number: usize,
    pub(crate) served: usize,
}

impl Model for PortSeat {
    ghost use Rattle.std.specs.VecDeque.{deque_capacity};
    ghost use Rattle.tl_arena.specs.Views.{PortView};
    ghost use Rattle.tl_arena.specs.Kept.{port_view, IsPortKept};

    ghost Value = { PortView };

    ghost view = { λ s. port_view s.seat.table_id s.seat.me.0 };

    ghost invariant = { λ s. IsPortKept s.seat.me s.order.items (deque_capacity s.order) s.owners.items s.number s.served };
}

impl PortSeat {
    /// The port's number.
    pub fn number(&self) -> usize
        ensures value { result ≡ self.now.number }
        ensures law { IsLawfulPort self.now }
    {
        self.number
    }

    /// The length of its list of entries.
    pub fn served(&self) -> usize
        ensures value { result ≡ length self.now.list }
        ensures law { IsLawfulPort self.now }
    {
        self.served
    }

    /// How many slots it has accepted and not answered.
    pub fn serving(&self) -> usize
        ensures value { result ≡ length self.now.serving }
        ensures law { IsLawfulPort self.now }
    {
        self.order.len()
    }
}
