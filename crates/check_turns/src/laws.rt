//! A law of lists of beats whose replies begin in turn, on a function that does nothing but carry it.
ghost use Rattle.std.specs.Prelude.{◌+◌, ◌<◌, ◌^◌, List, length, IsTrue};
ghost use Rattle.check_watch.specs.declared.beat.Link.{Link};
ghost use Rattle.check_watch.specs.Plan.{Plan, Sighting, is_fifo};
ghost use Rattle.check_turns.specs.Turns.{AreInOrder, AreInTurn};

/// At a link whose replies come in order, the replies that have begun are to the requests that began there first, in the
/// same order: the list of their sources is a beginning of that of the requests' sources.
pub fn replies_come_in_order()
    ensures { (plan : Plan) (past : List Sighting) (link : Link) → AreInTurn plan past → length past + 1 < 2 ^ 64
        → IsTrue (is_fifo plan.layout link) → AreInOrder plan past link }
{}
