//! The arena, which one it is, and the dealing of its seats.
ghost use Rattle.std.specs.Prelude.{◌≡◌, ◌≤◌, ◌<◌, ◌↔◌, ◌+◌, length, [], IfOk, Err, All, IsSome};
ghost use Rattle.tl_slots.specs.Machine.{IsInLimits};
ghost use Rattle.tl_map.specs.Owners.{AreLawfulOwners};
ghost use Rattle.tl_rule.specs.declared.view.View.TheVariants.{Dealer};
ghost use Rattle.tl_arena.specs.declared.arena.ArenaFault.TheVariants.{BadCount};
ghost use Rattle.tl_arena.specs.Key.{about_in};
ghost use Rattle.tl_arena.specs.Views.{about_of, AreNewMasters, AreNewPorts, new_master, new_port};

use crate::key::{ArenaRule, Key, remember};
use crate::plays::{DealsMaster, DealsPort};
use crate::record::Berth;
use crate::seats::{MasterSeat, PortSeat, TableSeat};
use atomic_table::Table;
use std::alloc::{AllocError, Global};
use std::collections::VecDeque;
use std::marker::{Brand, Model};
use std::snapshot::Snapshot;
use thiserror::Error;
use tl_map::SourceOwners;
use tl_ops::Bank;
use tl_rule::View;
use tl_types::{MAX_MASTERS, MAX_PORTS, MAX_SLOTS};

/// For contracts alone: one arena, so that a type behind a lock can say which arena it belongs to. It has no calls.
pub trait ArenaName {
    ghost use Rattle.tl_arena.specs.Views.{ArenaId};

    ghost arena: { ArenaId };
}

impl ArenaName for Brand {
    ghost use Rattle.std.specs.Prelude.{[]};
    ghost use Rattle.tl_rule.specs.Views.{no_about};

    ghost arena = { record { table = record { words = 0; slots = 0; views_name = 0; atom = 0; block = 0; offset = 0; slot_names = [] }; about = no_about } };
}

/// A shared arena.
#[derive(Drop)]
pub struct Arena {
    pub(crate) table: Table<Berth, View, Key, ArenaRule, Global>,
    pub(crate) slots: usize,
    pub(crate) masters: usize,
    pub(crate) ports: usize,
}

impl Model for Arena {
    ghost use Rattle.tl_arena.specs.Views.{ArenaId};
    ghost use Rattle.tl_arena.specs.Key.{about_in};
    ghost use Rattle.tl_arena.specs.Kept.{arena_id, IsArenaKept};

    ghost Value = { ArenaId };

    ghost view = { λ a. arena_id a.table.shared.table_id (about_in a.table.shared.key) };

    ghost invariant = { λ a. IsArenaKept a.table.shared.table_id (about_in a.table.shared.key) a.slots a.masters a.ports };
}

/// Why an arena could not be made.
#[derive(Debug, Clone, Copy, PartialEq, Eq, Error)]
pub enum ArenaFault {
    #[error("a count is outside its limits")]
    BadCount,
    #[error("memory refused")]
    Memory,
}

/// An arena with the seats of its masters and ports, in rising order of number.
#[derive(Drop)]
pub struct Made {
    pub arena: Arena,
    pub masters: Vec<MasterSeat>,
    pub ports: Vec<PortSeat>,
}

/// As many slots, each with a record.
fn new_berths(alloc: Global, slots: usize) -> Result<Vec<Berth>, AllocError>
    ensures many { IfOk result (λ berths. length berths.items ≡ slots) }
    ensures there { IfOk result (λ berths. All (λ berth. IsSome berth) berths.items) }
{
    let mut berths = Vec::with_capacity(alloc, slots)?;
    for _slot in 0..slots {
        berths.push(Berth::new(alloc)?)?;
    }
    Ok(berths)
}

/// An arena with no seats but the dealer's.
fn open(alloc: Global, key: &Key) -> Result<(Arena, TableSeat), AllocError>
    requires limits { IsInLimits key.now.slots key.now.masters key.now.ports }
    requires owners { AreLawfulOwners key.now.sources.value }
    ensures arena { IfOk result (λ opened. opened.0.about ≡ about_in key.now) }
    ensures table { IfOk result (λ opened. opened.1.table_id ≡ opened.0.table) }
    ensures dealer { IfOk result (λ opened. opened.1.me ≡ (Dealer (about_in key.now) 0 0, [])) }
{
    let words = Vec::from_elem(alloc, 0u64, key.slots + key.masters)?;
    let berths = new_berths(alloc, key.slots)?;
    let (table, dealer) = Table::new(alloc, words.as_slice(), berths, key).map_err(
        |_refused| AllocError,
    )?;
    let arena = Arena {
        table,
        slots: key.slots,
        masters: key.masters,
        ports: key.ports,
    };
    Ok((arena, dealer))
}

impl Arena {
    /// An arena of so many slots for these masters and one port for each bank: what the banks hold now are the ports'
    /// resets. It has 1 to 256 slots, 1 to 16 masters and 1 to 16 ports; `BadCount` comes before `Memory`.
    pub fn new(
        alloc: Global,
        slots: usize,
        sources: &SourceOwners,
        banks: &[Bank],
    ) -> Result<Made, ArenaFault>
        ensures bad_count { (result ≡ Err BadCount)
            ↔ (IsInLimits slots (length sources.now) (length banks.now) → ⊥) }
        ensures arena { IfOk result
            (λ made. made.arena.about ≡ about_of slots sources.now banks.now) }
        ensures masters { IfOk result
            (λ made. AreNewMasters made.arena (length sources.now) made.masters.items) }
        ensures ports { IfOk result
            (λ made. AreNewPorts made.arena (length banks.now) made.ports.items) }
    {
        let masters = sources.masters();
        let ports = banks.len();
        if slots == 0
            || slots > MAX_SLOTS
            || masters == 0
            || masters > MAX_MASTERS
            || ports == 0
            || ports > MAX_PORTS
        {
            return Err(ArenaFault::BadCount);
        }
        Arena::make(alloc, slots, sources, banks).map_err(|_refused| ArenaFault::Memory)
    }

    /// The same, if the counts are in their limits.
    fn make(
        alloc: Global,
        slots: usize,
        sources: &SourceOwners,
        banks: &[Bank],
    ) -> Result<Made, AllocError>
        requires limits { IsInLimits slots (length sources.now) (length banks.now) }
        ensures arena { IfOk result
            (λ made. made.arena.about ≡ about_of slots sources.now banks.now) }
        ensures masters { IfOk result
            (λ made. AreNewMasters made.arena (length sources.now) made.masters.items) }
        ensures ports { IfOk result
            (λ made. AreNewPorts made.arena (length banks.now) made.ports.items) }
    {
        let key = Key {
            slots,
            masters: sources.masters(),
            ports: banks.len(),
            sources: Snapshot::of(sources),
            resets: remember(alloc, banks)?,
        };
        let (arena, mut dealer) = open(alloc, &key)?;
        let masters = arena.deal_masters(alloc, &mut dealer)?;
        let ports = arena.deal_ports(alloc, &mut dealer)?;
        Ok(Made {
            arena,
            masters,
            ports,
        })
    }

    /// The seats of all masters.
    fn deal_masters(
        &self,
        alloc: Global,
        dealer: &mut TableSeat,
    ) -> Result<Vec<MasterSeat>, AllocError>
        requires table { dealer.old.table_id ≡ self.now.table }
        requires first { dealer.old.me ≡ (Dealer self.now.about 0 0, []) }
        ensures table { IfOk result (λ _. dealer.new.table_id ≡ self.now.table) }
        ensures dealt { IfOk result
            (λ _. dealer.new.me ≡ (Dealer self.now.about self.now.about.masters 0, [])) }
        ensures seats { IfOk result
            (λ seats. AreNewMasters self.now self.now.about.masters seats.items) }
    {
        let mut seats = Vec::with_capacity(alloc, self.masters)?;
        for number in 0..self.masters {
            let seat = self.deal_master(alloc, dealer, number)?;
            seats.push(seat)?;
        }
        Ok(seats)
    }

    /// The seat of the next master.
    fn deal_master(
        &self,
        alloc: Global,
        dealer: &mut TableSeat,
        number: usize,
    ) -> Result<MasterSeat, AllocError>
        requires table { dealer.old.table_id ≡ self.now.table }
        requires next { dealer.old.me ≡ (Dealer self.now.about number 0, []) }
        requires more { number < self.now.about.masters }
        ensures table { IfOk result (λ _. dealer.new.table_id ≡ self.now.table) }
        ensures dealt { IfOk result
            (λ _. dealer.new.me ≡ (Dealer self.now.about (number + 1) 0, [])) }
        ensures seat { IfOk result (λ seat. seat ≡ new_master self.now number) }
    {
        let order = VecDeque::with_capacity(alloc, self.slots)?;
        let seat = self.table.shared.split_seat::<DealsMaster>(dealer);
        Ok(MasterSeat {
            seat,
            order,
            number,
            owned: 0,
            collected: 0,
        })
    }

    /// The seats of all ports, once all masters have theirs.
    fn deal_ports(&self, alloc: Global, dealer: &mut TableSeat) -> Result<Vec<PortSeat>, AllocError>
        requires table { dealer.old.table_id ≡ self.now.table }
        requires first { dealer.old.me ≡ (Dealer self.now.about self.now.about.masters 0, []) }
        ensures seats { IfOk result
            (λ seats. AreNewPorts self.now self.now.about.ports seats.items) }
    {
        let mut seats = Vec::with_capacity(alloc, self.ports)?;
        for number in 0..self.ports {
            let seat = self.deal_port(alloc, dealer, number)?;
            seats.push(seat)?;
        }
        Ok(seats)
    }

    /// The seat of the next port.
    fn deal_port(
        &self,
        alloc: Global,
        dealer: &mut TableSeat,
        number: usize,
    ) -> Result<PortSeat, AllocError>
        requires table { dealer.old.table_id ≡ self.now.table }
        requires next { dealer.old.me ≡ (Dealer self.now.about self.now.about.masters number, []) }
        requires more { number < self.now.about.ports }
        ensures table { IfOk result (λ _. dealer.new.table_id ≡ self.now.table) }
        ensures dealt { IfOk result
            (λ _. dealer.new.me ≡ (Dealer self.now.about self.now.about.masters (number + 1), [])) }
        ensures seat { IfOk result (λ seat. seat ≡ new_port self.now number) }
    {
        let order = VecDeque::with_capacity(alloc, self.slots)?;
        let owners = Vec::from_elem(alloc, 0usize, self.slots)?;
        let seat = self.table.shared.split_seat::<DealsPort>(dealer);
        Ok(PortSeat {
            seat,
            order,
            owners,
            number,
            served: 0,
        })
    }

    /// How many slots there are.
    pub fn slots(&self) -> usize
        ensures { result ≡ self.now.about.slots }
    {
        self.slots
    }

    /// How many ports there are, the error port among them.
    pub fn ports(&self) -> usize
        ensures { result ≡ self.now.about.ports }
    {
        self.ports
    }
}
