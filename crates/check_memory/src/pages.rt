//! The pages of a memory, which are made as they are written.
ghost use Rattle.std.specs.Prelude.{◌≡◌, ℕ, ◌+◌, ◌*◌, ◌/◌, ◌%◌, ◌^◌, ◌<◌, ◌≤◌, [], ◌∷◌, length, slice_index_or, take, drop, true, IfOk, IfSome, None};
ghost use Rattle.tl_types.specs.Operation.{carries_bytes, reply_op_of};
ghost use Rattle.tl_ops.specs.Cell.{FitsWords};
ghost use Rattle.check_memory.specs.Known.{known, replaced};
ghost use Rattle.check_memory.specs.Cells.{new_cells, forgotten};
ghost use Rattle.check_memory.specs.Pattern.{shown_cells};
ghost use Rattle.check_memory.specs.Paged.{paged_cells, IsAt, HasPage, KeepsPages};

use crate::sheet::PAGE_BYTES;
use crate::slots::Slots;
use check_cells::Cells;
use std::alloc::{AllocError, Global};
use std::collections::HashMap;
use std::marker::Model;
use tl_ops::Kind;
use tl_types::{Ask, MAX_BYTES};

/// Pages, in the order in which they were made.
///
/// The first of them are a run, in which each has the number after that of the one before. A page of the run stands as far
/// from the first as their numbers do; an index knows the places of all others.
#[derive(Drop)]
pub struct Pages {
    slots: Slots,
    first: u64,
    run: usize,
    index: HashMap<u64, usize>,
}

impl Model for Pages {
    ghost use Rattle.std.specs.Prelude.{nat_eq};
    ghost use Rattle.std.specs.HashMap.{get};
    ghost use Rattle.check_memory.specs.Paged.{Paged, AreIndexed};

    ghost Value = { Paged };

    ghost view = { λ p. p.slots };

    ghost invariant = { λ p. AreIndexed p.slots.slots p.first p.run (get nat_eq p.index) };
}

impl Clone for Pages {
    ghost use Rattle.std.specs.Prelude.{◌≡◌};

    ghost is_clone = { λ pages copy. copy ≡ pages };

    fn clone(&self) -> Result<Pages, AllocError> {
        Ok(Pages {
            slots: self.slots.clone()?,
            first: self.first,
            run: self.run,
            index: self.index.clone()?,
        })
    }
}

impl Pages {
    /// No pages, where a byte that nothing has written is zero, or unknown.
    pub fn new(alloc: Global, known: bool) -> Pages
        ensures { result ≡ record { slots = []; known = known } }
    {
        Pages {
            slots: Slots::new(alloc, known),
            first: 0,
            run: 0,
            index: HashMap::new(alloc),
        }
    }

    /// How many there are.
    pub fn len(&self) -> usize
        ensures { result ≡ length self.now.slots }
    {
        self.slots.len()
    }

    /// The place of a page, by its number.
    fn find(&self, number: u64) -> Option<usize>
        ensures found { IfSome result (λ at. IsAt self.now.slots number at) }
        ensures none { result ≡ None → (at : ℕ) → IsAt self.now.slots number at → ⊥ }
    {
        if self.first <= number && number - self.first < self.run as u64 {
            return Some((number - self.first) as usize);
        }
        self.index.get(&number).copied()
    }

    /// The place of a page, which is made if there is none.
    pub fn page_for(&mut self, alloc: Global, number: u64) -> Result<usize, AllocError>
        ensures same { paged_cells self.new ≡ paged_cells self.old }
        ensures kept { KeepsPages self.old.slots self.new.slots }
        ensures at { IfOk result (λ at. IsAt self.new.slots number at) }
    {
        if let Some(at) = self.find(number) {
            return Ok(at);
        }
        self.add_page(alloc, number)
    }

    /// A new page, which shows what was seen there before.
    #[inline(never)]
    fn add_page(&mut self, alloc: Global, number: u64) -> Result<usize, AllocError>
        requires { (at : ℕ) → IsAt self.old.slots number at → ⊥ }
        ensures same { paged_cells self.new ≡ paged_cells self.old }
        ensures kept { KeepsPages self.old.slots self.new.slots }
        ensures at { IfOk result (λ at. IsAt self.new.slots number at) }
    {
        let at = self.slots.len();
        if at == 0 {
            self.slots.add(alloc, number)?;
            self.first = number;
            self.run = 1;
            return Ok(at);
        }
        if at == self.run && self.first <= number && number - self.first == at as u64 {
            self.slots.add(alloc, number)?;
            self.run += 1;
            return Ok(at);
        }
        self.index.insert(number, at)?;
        if let Err(_) = self.slots.add(alloc, number) {
            self.index.remove(&number);
            return Err(AllocError);
        }
        Ok(at)
    }

    /// The bytes from an address on.
    pub fn read(&self, address: u64, width: usize, cells: &mut Cells)
        requires limit { width ≤ MAX_BYTES }
        requires fits { FitsWords (address % PAGE_BYTES) width }
        requires inside { address % PAGE_BYTES + width ≤ PAGE_BYTES }
        ensures { cells.new ≡ take width (drop address (paged_cells self.now)) }
    {
        match self.find(address / PAGE_BYTES as u64) {
            Some(at) => {
                let start = (address % PAGE_BYTES as u64) as usize;
                self.slots.read(at, start, width, cells);
            }
            None => cells.fill(self.slots.known(), width),
        }
    }

    /// Serves a request that carries bytes, in the page at a place.
    pub fn serve(&mut self, at: usize, kind: Kind, ask: &Ask, cells: &mut Cells)
        requires at { IsAt self.old.slots (ask.now.address / PAGE_BYTES) at }
        requires carries { carries_bytes ask.now.op ≡ true }
        requires counted { length ask.now.bytes ≡ 2 ^ ask.now.size }
        requires fits { FitsWords (ask.now.address % PAGE_BYTES) (2 ^ ask.now.size) }
        requires inside { ask.now.address % PAGE_BYTES + 2 ^ ask.now.size ≤ PAGE_BYTES }
        ensures after { let old = take (2 ^ ask.now.size) (drop ask.now.address (paged_cells self.old)) in
            paged_cells self.new ≡ replaced (paged_cells self.old) ask.now.address (new_cells kind ask.now.op old ask.now.bytes) }
        ensures shown { let old = take (2 ^ ask.now.size) (drop ask.now.address (paged_cells self.old)) in
            cells.new ≡ shown_cells (reply_op_of ask.now.op) old }
        ensures at { IsAt self.new.slots (ask.now.address / PAGE_BYTES) at }
    {
        let start = (ask.address() % PAGE_BYTES as u64) as usize;
        self.slots.serve(at, kind, start, ask, cells);
    }

    /// Makes the bytes that are flagged unknown, from an address on, in the page at a place.
    pub fn forget(&mut self, at: usize, address: u64, flags: &[bool])
        requires at { IsAt self.old.slots (address / PAGE_BYTES) at }
        requires inside { address % PAGE_BYTES + length flags.now ≤ PAGE_BYTES }
        ensures after { paged_cells self.new ≡ forgotten flags.now address (paged_cells self.old) }
        ensures kept { KeepsPages self.old.slots self.new.slots }
        ensures at { IsAt self.new.slots (address / PAGE_BYTES) at }
    {
        let start = (address % PAGE_BYTES as u64) as usize;
        self.slots.forget(at, start, flags);
    }

    /// Writes bytes from an address on, in the page at a place.
    pub fn load(&mut self, at: usize, address: u64, bytes: &[u8])
        requires at { IsAt self.old.slots (address / PAGE_BYTES) at }
        requires inside { address % PAGE_BYTES + length bytes.now ≤ PAGE_BYTES }
        ensures after { paged_cells self.new ≡ replaced (paged_cells self.old) address (known bytes.now) }
        ensures kept { KeepsPages self.old.slots self.new.slots }
    {
        let start = (address % PAGE_BYTES as u64) as usize;
        self.slots.load(at, start, bytes);
    }

    /// The byte at an address.
    pub fn byte(&self, address: u64) -> Option<u8>
        ensures { result ≡ slice_index_or (paged_cells self.now) address None }
    {
        let mut cell = Cells::new();
        self.read(address, 1, &mut cell);
        cell.get(0)
    }

    /// Puts a byte, known or unknown, in a page that is there.
    pub fn put(&mut self, address: u64, byte: Option<u8>)
        requires { HasPage self.old.slots (address / PAGE_BYTES) }
        ensures after { paged_cells self.new ≡ replaced (paged_cells self.old) address (byte ∷ []) }
        ensures kept { KeepsPages self.old.slots self.new.slots }
    {
        let Some(at) = self.find(address / PAGE_BYTES as u64) else {
            unreachable!();
        };
        match byte {
            Some(byte) => self.load(at, address, &[byte]),
            None => self.forget(at, address, &[true]),
        }
    }
}
