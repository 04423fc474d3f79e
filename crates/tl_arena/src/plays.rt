//! The names of the steps: what each tells is the rule's, and the event of the core that it is.
ghost use Rattle.tl_rule.specs.Dealing as dealing;
ghost use Rattle.tl_rule.specs.Moves as moves;

use crate::record::Berth;
use atomic_table::{Play, Split};
use tl_rule::View;

pub(crate) struct Claims;

impl Play<Berth, View> for Claims {
    ghost then = { moves.Tried moves.Claims };
}

pub(crate) struct Sends;

impl Play<Berth, View> for Sends {
    ghost then = { moves.Sends };
}

pub(crate) struct Accepts;

impl Play<Berth, View> for Accepts {
    ghost then = { moves.Tried moves.Accepts };
}

pub(crate) struct Answers;

impl Play<Berth, View> for Answers {
    ghost then = { moves.Answers };
}

pub(crate) struct Collects;

impl Play<Berth, View> for Collects {
    ghost then = { moves.Tried moves.Collects };
}

pub(crate) struct Releases;

impl Play<Berth, View> for Releases {
    ghost then = { moves.Releases };
}

pub(crate) struct Leaves;

impl Play<Berth, View> for Leaves {
    ghost then = { moves.Leaves };
}

pub(crate) struct DealsMaster;

impl Split<View> for DealsMaster {
    ghost left = { dealing.after_master };

    ghost right = { dealing.next_master };
}

pub(crate) struct DealsPort;

impl Split<View> for DealsPort {
    ghost left = { dealing.after_port };

    ghost right = { dealing.next_port };
}
