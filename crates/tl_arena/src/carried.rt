//! The slots that a seat has taken out lie in a list, and a step gives back the first of them.
ghost use Rattle.std.specs.Prelude.{◌≡◌, true};
ghost use Rattle.std.specs.VecDeque.{deque_capacity};
ghost use Rattle.tl_rule.specs.Carried.{firsts, has};
ghost use Rattle.tl_arena.specs.Kept.{IsBrought};

use crate::seats::TableSeat;
use std::collections::VecDeque;

/// Turns the seat and its order until the slot is first. That takes at most one turn for each slot that is out.
pub(crate) fn bring(seat: &mut TableSeat, order: &mut VecDeque<usize>, slot: usize)
    requires mirror { firsts seat.old.me.1 ≡ order.old.items }
    requires there { has order.old.items slot ≡ true }
    ensures table { seat.new.table_id ≡ seat.old.table_id }
    ensures seat { seat.new.id ≡ seat.old.id }
    ensures brought { IsBrought seat.old.me seat.new.me order.old.items order.new.items slot }
    ensures capacity { deque_capacity order.new ≡ deque_capacity order.old }
{
    while let Some(first) = order.pop_front() {
        if first == slot {
            order.push_front_reserved(first);
            return;
        }
        order.push_back_reserved(first);
        seat.turn();
    }
}
