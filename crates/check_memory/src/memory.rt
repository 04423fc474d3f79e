//! Memories of bytes that are known or unknown, which serve requests.
ghost use Rattle.std.specs.Prelude.{◌≡◌, ℕ, ◌+◌, ◌*◌, ◌/◌, ◌%◌, ◌^◌, ◌<◌, ◌≤◌, [], length, take, drop, replicate, Some, true, false, IsTrue, IfOk, OnOk, OnErr};
ghost use Rattle.tl_types.specs.Operation.{reply_op_of};
ghost use Rattle.tl_types.specs.Request.{IsLawfulRequest};
ghost use Rattle.check_memory.specs.Known.{known as known_of};
ghost use Rattle.check_memory.specs.Partial.{permits, takes_bytes, after_partial, after_forgetting, loaded, start_of, visible, AreWithin, holds, byte_seen, place_of_byte};
ghost use Rattle.check_memory.specs.Cells.{forgotten};
ghost use Rattle.check_memory.specs.Pattern.{pattern, shown_cells};
ghost use Rattle.check_memory.specs.Place.{fill_of, tabulate};

use crate::pages::Pages;
use crate::place::{forget_bytes, hold, hold_flagged, read_bytes, serve_apart, write_bytes};
use crate::range::{first_of, holds, start_in};
use crate::sheet::PAGE_BYTES;
use crate::sizes::Sizes;
use crate::volatile::{hide, serve_in_page};
use check_cells::{AskSoFar, Cells, Pattern};
use std::alloc::{AllocError, Global};
use std::marker::Model;
use tl_map::Range;
use tl_ops::{Kind, SizeTable};
use tl_types::{Ask, MAX_BYTES};

/// A port's memory: which of its bytes are known, and what they are. What its pages hold of bytes that change by themselves
/// is never looked at.
#[derive(Drop)]
pub struct PartialMemory {
    kind: Kind,
    sizes: SizeTable,
    ranges: Vec<Range>,
    mirrors: Vec<u64>,
    volatile: Vec<Range>,
    pages: Pages,
}

impl Model for PartialMemory {
    ghost use Rattle.std.specs.Prelude.{◌^◌};
    ghost use Rattle.check_memory.specs.Partial.{Partial, AreWithin};
    ghost use Rattle.check_memory.specs.Sizes.{IsLawfulTable};
    ghost use Rattle.check_memory.specs.Paged.{paged_cells};

    ghost Value = { Partial };

    ghost view = { λ m. record {
      kind = m.kind;
      sizes = m.sizes;
      ranges = m.ranges.items;
      mirrors = m.mirrors.items;
      volatile = m.volatile.items;
      cells = paged_cells m.pages;
    } };

    ghost invariant = { λ m. AreWithin m.ranges.items (2 ^ 64) × IsLawfulTable m.sizes };
}

impl Clone for PartialMemory {
    ghost use Rattle.std.specs.Prelude.{◌≡◌};

    ghost is_clone = { λ memory copy. copy ≡ memory };

    fn clone(&self) -> Result<PartialMemory, AllocError> {
        Ok(PartialMemory {
            kind: self.kind,
            sizes: self.sizes,
            ranges: self.ranges.clone()?,
            mirrors: self.mirrors.clone()?,
            volatile: self.volatile.clone()?,
            pages: self.pages.clone()?,
        })
    }
}

impl PartialMemory {
    /// A memory that nothing has written: its bytes are zero, or unknown. Its first range is also seen from the addresses
    /// `mirrors` on. The bytes of the volatile ranges change by themselves.
    pub fn new(
        alloc: Global,
        kind: Kind,
        sizes: Sizes,
        ranges: Vec<Range>,
        mirrors: Vec<u64>,
        volatile: Vec<Range>,
        known: bool,
    ) -> PartialMemory
        requires { AreWithin ranges.items (2 ^ 64) }
        ensures { result ≡ record {
          kind = kind;
          sizes = sizes;
          ranges = ranges.items;
          mirrors = mirrors.items;
          volatile = volatile.items;
          cells = tabulate (λ _. fill_of known) (2 ^ 64);
        } }
    {
        PartialMemory {
            kind,
            sizes: sizes.table(),
            ranges,
            mirrors,
            volatile,
            pages: Pages::new(alloc, known),
        }
    }

    /// Whether it is seen at several places.
    pub fn is_mirrored(&self) -> bool
        ensures { result ≡ false → self.now.mirrors ≡ [] }
    {
        !self.mirrors.is_empty()
    }

    /// Where the bytes of a request's window stand.
    pub fn start(&self, ask: &Ask) -> u64
        ensures value { result ≡ start_of self.now ask.now }
        ensures in_space { permits self.now ask.now ≡ true → result + 2 ^ ask.now.size ≤ 2 ^ 64 }
    {
        let _within = self.ranges.as_slice();
        self.find_start(ask)
    }

    /// Where the bytes of a request's window stand.
    fn find_start(&self, ask: &Ask) -> u64
        ensures { result ≡ start_of self.now ask.now }
    {
        if self.mirrors.is_empty() {
            return ask.address();
        }
        let first = first_of(self.ranges.as_slice());
        start_in(first, &self.mirrors, ask.address(), ask.width() as u64)
    }

    /// Where the bytes stand of the window of a request that may not have crossed as a whole.
    pub fn start_so_far(&self, ask: &AskSoFar) -> u64
        ensures value { result ≡ start_of self.now ask.now }
        ensures in_space { permits self.now ask.now ≡ true → result + 2 ^ ask.now.size ≤ 2 ^ 64 }
    {
        let _within = self.ranges.as_slice();
        self.find_start_so_far(ask)
    }

    /// Where the bytes stand of the window of a request that may not have crossed as a whole.
    fn find_start_so_far(&self, ask: &AskSoFar) -> u64
        ensures { result ≡ start_of self.now ask.now }
    {
        let first = first_of(self.ranges.as_slice());
        start_in(first, &self.mirrors, ask.address(), ask.width() as u64)
    }

    /// Where the byte stands that is sent at an address.
    pub fn place(&self, address: u64) -> u64
        ensures value { result ≡ place_of_byte self.now address }
        ensures in_space { result < 2 ^ 64 }
    {
        let first = first_of(self.ranges.as_slice());
        start_in(first, &self.mirrors, address, 1)
    }

    /// What is seen of the byte that is sent at an address, whatever requests are legal there.
    pub fn byte(&self, address: u64) -> Option<u8>
        ensures { result ≡ byte_seen self.now address }
    {
        let _within = self.ranges.as_slice();
        let place = self.place(address);
        let mut cells = Cells::new();
        self.look(place, 1, &mut cells);
        cells.get(0)
    }

    /// Whether a request is legal here.
    pub fn permits(&self, ask: &Ask) -> bool
        ensures { result ≡ permits self.now ask.now }
    {
        let width = ask.width() as u64;
        let aligned = ask.address() % width == 0;
        self.sizes.allows(ask.op(), ask.size())
            && aligned
            && holds(self.ranges.as_slice(), self.start(ask), width)
    }

    /// Whether a request is legal here that may not have crossed as a whole.
    pub fn permits_so_far(&self, ask: &AskSoFar) -> bool
        ensures { result ≡ permits self.now ask.now }
    {
        let width = ask.width() as u64;
        let aligned = ask.address() % width == 0;
        self.sizes.allows(ask.op(), ask.size())
            && aligned
            && holds(self.ranges.as_slice(), self.start_so_far(ask), width)
    }

    /// Whether a request is legal here and carries bytes.
    fn takes_bytes(&self, ask: &Ask) -> bool
        ensures value { result ≡ takes_bytes self.now ask.now }
        ensures lawful { IsLawfulRequest ask.now.op ask.now.size ask.now.bytes }
    {
        !ask.bytes().is_empty() && self.permits(ask)
    }

    /// Serves a request: the memory is the one after it, and what its answer has to fit stands in the place of another.
    /// If there is no memory for a page of the bytes that it takes, nothing is changed.
    pub fn serve_into(
        &mut self,
        alloc: Global,
        ask: &Ask,
        answer: &mut Pattern,
    ) -> Result<(), AllocError>
        ensures after { IfOk result (λ _. self.new ≡ after_partial self.old ask.now) }
        ensures pattern { IfOk result (λ _. answer.new ≡ pattern self.old ask.now) }
        ensures takes { OnErr result (takes_bytes self.old ask.now ≡ true) }
        ensures unchanged { OnErr result (self.new ≡ self.old) }
        ensures answer_unchanged { OnErr result (answer.new ≡ answer.old) }
    {
        if self.permits(ask) {
            self.serve_legal(alloc, ask, answer)
        } else {
            deny(ask, answer);
            Ok(())
        }
    }

    /// Serves a legal request.
    fn serve_legal(
        &mut self,
        alloc: Global,
        ask: &Ask,
        answer: &mut Pattern,
    ) -> Result<(), AllocError>
        requires { permits self.old ask.now ≡ true }
        ensures after { IfOk result (λ _. self.new ≡ after_partial self.old ask.now) }
        ensures pattern { IfOk result (λ _. answer.new ≡ pattern self.old ask.now) }
        ensures takes { OnErr result (takes_bytes self.old ask.now ≡ true) }
        ensures unchanged { OnErr result (self.new ≡ self.old) }
        ensures answer_unchanged { OnErr result (answer.new ≡ answer.old) }
    {
        if ask.bytes().is_empty() {
            self.answer_legal(ask, answer);
            return Ok(());
        }
        if self.is_mirrored() {
            return self.serve_placed(alloc, ask, 0, &[], answer);
        }
        let at = self
            .pages
            .page_for(alloc, ask.address() / PAGE_BYTES as u64)?;
        answer.head(ask, Some(false));
        let cells = &mut answer.cells;
        serve_in_page(&mut self.pages, at, self.kind, &self.volatile, ask, cells);
        Ok(())
    }

    /// Serves a request as `serve_into` does, and then forgets each byte that is flagged, from an address on. A request
    /// that is illegal, or carries no bytes, forgets nothing.
    pub fn serve_and_forget(
        &mut self,
        alloc: Global,
        ask: &Ask,
        first: u64,
        flags: &[bool],
        answer: &mut Pattern,
    ) -> Result<(), AllocError>
        requires { first + length flags.now ≤ 2 ^ 64 }
        ensures after { IfOk result (λ _. self.new ≡ after_forgetting self.old ask.now first flags.now) }
        ensures pattern { IfOk result (λ _. answer.new ≡ pattern self.old ask.now) }
        ensures takes { OnErr result (takes_bytes self.old ask.now ≡ true) }
        ensures unchanged { OnErr result (self.new ≡ self.old) }
        ensures answer_unchanged { OnErr result (answer.new ≡ answer.old) }
    {
        if !self.takes_bytes(ask) {
            self.answer(ask, answer);
            return Ok(());
        }
        if self.is_mirrored() || !is_in_page(ask.address(), first, flags) {
            return self.serve_placed(alloc, ask, first, flags, answer);
        }
        let at = self
            .pages
            .page_for(alloc, ask.address() / PAGE_BYTES as u64)?;
        answer.head(ask, Some(false));
        let cells = &mut answer.cells;
        serve_in_page(&mut self.pages, at, self.kind, &self.volatile, ask, cells);
        self.pages.forget(at, first, flags);
        Ok(())
    }

    /// Forgets each byte that is flagged, from an address on. If there is no memory for a page, nothing is changed.
    pub fn forget(&mut self, alloc: Global, first: u64, flags: &[bool]) -> Result<(), AllocError>
        requires { first + length flags.now ≤ 2 ^ 64 }
        ensures after { OnOk result (self.new
            ≡ record self.old { cells = forgotten flags.now first self.old.cells }) }
        ensures unchanged { OnErr result (self.new ≡ self.old) }
    {
        let pages = &mut self.pages;
        hold_flagged(pages, alloc, first, flags)?;
        forget_bytes(pages, first, flags);
        Ok(())
    }

    /// Serves a legal request that carries bytes, wherever its window stands, and forgets as `serve_and_forget` does.
    // apart, so that a memory in one place goes by short code
    #[inline(never)]
    fn serve_placed(
        &mut self,
        alloc: Global,
        ask: &Ask,
        first: u64,
        flags: &[bool],
        answer: &mut Pattern,
    ) -> Result<(), AllocError>
        requires takes { takes_bytes self.old ask.now ≡ true }
        requires in_space { first + length flags.now ≤ 2 ^ 64 }
        ensures after { IfOk result (λ _. self.new ≡ after_forgetting self.old ask.now first flags.now) }
        ensures pattern { IfOk result (λ _. answer.new ≡ pattern self.old ask.now) }
        ensures unchanged { OnErr result (self.new ≡ self.old) }
        ensures answer_unchanged { OnErr result (answer.new ≡ answer.old) }
    {
        let _lawful = ask.bytes();
        let start = self.start(ask);
        hold(&mut self.pages, alloc, start, ask.width())?;
        hold_flagged(&mut self.pages, alloc, first, flags)?;
        let mut cells = Cells::new();
        self.look(start, ask.width(), &mut cells);
        let new = serve_apart(alloc, self.kind, ask, &mut cells)?;
        answer.head(ask, Some(false));
        answer.cells = cells;
        write_bytes(&mut self.pages, start, &new);
        forget_bytes(&mut self.pages, first, flags);
        Ok(())
    }

    /// What is seen of so many bytes from an address on.
    fn look(&self, start: u64, width: usize, cells: &mut Cells)
        requires limit { width ≤ MAX_BYTES }
        requires in_space { start + width ≤ 2 ^ 64 }
        ensures { cells.new ≡ take width (drop start (visible self.now)) }
    {
        read_bytes(&self.pages, start, width, cells);
        hide(&self.volatile, start, cells);
    }

    /// What the answer to a request that is not served has to fit.
    pub fn answer(&self, ask: &Ask, answer: &mut Pattern)
        ensures { answer.new ≡ pattern self.now ask.now }
    {
        if self.permits(ask) {
            self.answer_legal(ask, answer);
        } else {
            deny(ask, answer);
        }
    }

    /// What the answer to a legal request that is not served has to fit.
    fn answer_legal(&self, ask: &Ask, answer: &mut Pattern)
        requires { permits self.now ask.now ≡ true }
        ensures { answer.new ≡ pattern self.now ask.now }
    {
        answer.head(ask, Some(false));
        if !ask.op().reply_op().carries_bytes() {
            answer.cells.clear();
        } else if self.is_mirrored() {
            self.look(self.start(ask), ask.width(), &mut answer.cells);
        } else {
            self.pages
                .read(ask.address(), ask.width(), &mut answer.cells);
            hide(&self.volatile, ask.address(), &mut answer.cells);
        }
    }

    /// Writes bytes from an address on, as those of an image are. If there is no memory for a page, the bytes before
    /// those of that page are written, and they are not all.
    pub fn load(&mut self, alloc: Global, address: u64, bytes: &[u8]) -> Result<(), AllocError>
        requires { address + length bytes.now ≤ 2 ^ 64 }
        ensures all { OnOk result (self.new ≡ loaded self.old address bytes.now) }
        ensures front { OnErr result ((count : ℕ) × (count < length bytes.now)
            × (self.new ≡ loaded self.old address (take count bytes.now))) }
    {
        let mut done = 0;
        while done < bytes.len() {
            let start = address + done as u64;
            let room = PAGE_BYTES - (start % PAGE_BYTES as u64) as usize;
            let count = room.min(bytes.len() - done);
            self.load_part(alloc, start, &bytes[done..done + count])?;
            done += count;
        }
        Ok(())
    }

    /// Writes bytes of one page.
    fn load_part(&mut self, alloc: Global, address: u64, bytes: &[u8]) -> Result<(), AllocError>
        requires { address % PAGE_BYTES + length bytes.now ≤ PAGE_BYTES }
        ensures after { OnOk result (self.new ≡ loaded self.old address bytes.now) }
        ensures unchanged { OnErr result (self.new ≡ self.old) }
        ensures space { length self.old.cells ≡ 2 ^ 64 }
    {
        let at = self.pages.page_for(alloc, address / PAGE_BYTES as u64)?;
        self.pages.load(at, address, bytes);
        Ok(())
    }

    /// How many pages it has. No clause says how many: a page is made by the first request that carries bytes there, or by an
    /// image.
    pub fn pages(&self) -> usize {
        self.pages.len()
    }
}

/// Whether the flags of bytes from one on are all of the page of an address.
fn is_in_page(address: u64, first: u64, flags: &[bool]) -> bool
    ensures page { IsTrue result → first / PAGE_BYTES ≡ address / PAGE_BYTES }
    ensures inside { IsTrue result → first % PAGE_BYTES + length flags.now ≤ PAGE_BYTES }
{
    let page = PAGE_BYTES as u64;
    first / page == address / page && flags.len() <= PAGE_BYTES - (first % page) as usize
}

/// What the answer to an illegal request has to fit.
#[inline(never)]
fn deny(ask: &Ask, answer: &mut Pattern)
    ensures { answer.new ≡ record {
      op = reply_op_of ask.now.op;
      size = ask.now.size;
      source = ask.now.source;
      denied = Some true;
      bytes = shown_cells (reply_op_of ask.now.op) (known_of (replicate (2 ^ ask.now.size) 0));
      spoiled = [];
    } }
{
    answer.head(ask, Some(true));
    let count = ask.op().reply_op().byte_count(ask.size());
    answer.cells.fill(true, count);
}
