//! What the table of an arena is told once, when it is made, and the rule that it keeps.
ghost use Rattle.std.specs.Prelude.{◌≡◌, map, IfOk};

use crate::record::Berth;
use atomic_table::TableRule;
use std::alloc::{AllocError, Global};
use std::snapshot::Snapshot;
use tl_map::SourceOwners;
use tl_ops::Bank;
use tl_rule::View;

/// The counts, the sources of the masters, and what the ports' banks held at the start. A `Snapshot` has no bytes.
#[derive(Drop)]
pub(crate) struct Key {
    pub(crate) slots: usize,
    pub(crate) masters: usize,
    pub(crate) ports: usize,
    pub(crate) sources: Snapshot<SourceOwners>,
    pub(crate) resets: Vec<Snapshot<Bank>>,
}

/// The rule of the table is that of `tl_rule`.
pub(crate) struct ArenaRule;

impl TableRule<Berth, View, Key> for ArenaRule {
    ghost use Rattle.tl_rule.specs.Rule.{Fits};
    ghost use Rattle.tl_rule.specs.Dealing.{opening_view};
    ghost use Rattle.tl_arena.specs.Key.{about_in};

    ghost holds = { λ key. Fits (about_in key) };

    ghost first = { λ key. opening_view (about_in key) };
}

/// What each bank holds now.
pub(crate) fn remember(alloc: Global, banks: &[Bank]) -> Result<Vec<Snapshot<Bank>>, AllocError>
    ensures { IfOk result (λ seen. map (λ bank. bank.value) seen.items ≡ banks.now) }
{
    let mut seen = Vec::new(alloc);
    for bank in banks {
        seen.push(Snapshot::of(bank))?;
    }
    Ok(seen)
}
