//! The bytes of messages, those of one after those of the other.
ghost use Rattle.std.specs.Prelude.{◌≡◌, ◌+◌, ◌≤◌, ◌++◌, [], length, vec_len, vec_capacity, IfOk, OnErr, OnOk};
ghost use Rattle.tl_types.specs.Operation.{byte_count, may_leave_unset};
ghost use Rattle.tl_journal.specs.Pools.{AreIn, HasSameBytes, IsKeptInPool, IsPlainKept, KeepsRoom, bytes_in_pool, plain_in, pool_len, pool_room};

use std::alloc::{AllocError, Global};
use std::marker::Model;
use tl_types::{Ask, AskOp, Bytes};

/// The bytes that messages carry, those of one after those of the other: of partial puts, which may leave some unset,
/// in a pool of their own.
#[derive(Drop)]
pub struct Pools {
    whole: Vec<u8>,
    partial: Vec<Option<u8>>,
}

impl Model for Pools {
    ghost use Rattle.std.specs.Prelude.{vec_capacity};
    ghost use Rattle.tl_journal.specs.Pools.{PoolsView};

    ghost Value = { PoolsView };

    ghost view = { λ p. record {
      whole = p.whole.items;
      partial = p.partial.items;
      whole_room = vec_capacity p.whole;
      partial_room = vec_capacity p.partial;
    } };
}

/// Appends bytes, of which some may be left unset, to a pool that has room for them.
fn push_each(pool: &mut Vec<Option<u8>>, bytes: &Bytes)
    requires { vec_len pool.old + length bytes.now ≤ vec_capacity pool.old }
    ensures appended { pool.new.items ≡ pool.old.items ++ bytes.now }
    ensures room { vec_capacity pool.new ≡ vec_capacity pool.old }
{
    for place in 0..bytes.len() {
        pool.push_reserved(bytes.get(place));
    }
}

impl Pools {
    /// No bytes.
    pub fn new(alloc: Global) -> Pools
        ensures whole { result.whole ≡ [] }
        ensures partial { result.partial ≡ [] }
    {
        Pools {
            whole: Vec::new(alloc),
            partial: Vec::new(alloc),
        }
    }

    /// Makes room for so many more bytes of partial puts, and so many of all other messages.
    pub fn reserve(&mut self, whole: usize, partial: usize) -> Result<(), AllocError>
        ensures bytes { HasSameBytes self.old self.new }
        ensures keeps { KeepsRoom self.old self.new }
        ensures whole { OnOk result (length self.old.whole + whole ≤ self.new.whole_room) }
        ensures partial { OnOk result (length self.old.partial + partial ≤ self.new.partial_room) }
    {
        self.whole.reserve(whole)?;
        self.partial.reserve(partial)?;
        Ok(())
    }

    /// Appends the bytes of a request to their pool, and makes room for them first. The answer is where they begin.
    pub fn keep(&mut self, op: AskOp, bytes: &Bytes) -> Result<usize, AllocError>
        ensures ok { IfOk result (IsKeptInPool (may_leave_unset op) bytes.now self.old self.new) }
        ensures err { OnErr result (HasSameBytes self.old self.new) }
        ensures room { KeepsRoom self.old self.new }
    {
        if op.may_leave_unset() {
            self.reserve(0, bytes.len())?;
        } else {
            self.reserve(bytes.len(), 0)?;
        }
        Ok(self.keep_reserved(op, bytes))
    }

    /// Appends the bytes of a request to their pool, which has room for them. The answer is where they begin.
    pub fn keep_reserved(&mut self, op: AskOp, bytes: &Bytes) -> usize
        requires { pool_len self.old (may_leave_unset op) + length bytes.now
            ≤ pool_room self.old (may_leave_unset op) }
        ensures kept { IsKeptInPool (may_leave_unset op) bytes.now self.old self.new result }
        ensures room { KeepsRoom self.old self.new }
    {
        if op.may_leave_unset() {
            let start = self.partial.len();
            push_each(&mut self.partial, bytes);
            start
        } else {
            self.keep_plain_reserved(bytes.plain())
        }
    }

    /// Appends bytes that are all given to their pool, which has room for them. The answer is where they begin.
    pub fn keep_plain_reserved(&mut self, bytes: &[u8]) -> usize
        requires { length self.old.whole + length bytes.now ≤ self.old.whole_room }
        ensures kept { IsPlainKept bytes.now self.old self.new result }
        ensures room { KeepsRoom self.old self.new }
    {
        let start = self.whole.len();
        self.whole.extend_from_slice(bytes).unwrap();
        start
    }

    /// Puts a request of these parts, whose bytes begin at a place of their pool, in the place of another.
    pub fn fill(&self, op: AskOp, size: u8, source: u16, address: u64, start: usize, ask: &mut Ask)
        requires { AreIn self.now op size start }
        ensures { ask.new ≡ record {
          op = op;
          size = size;
          source = source;
          address = address;
          bytes = bytes_in_pool self.now (may_leave_unset op) start (byte_count op size);
        } }
    {
        let count = op.byte_count(size);
        if op.may_leave_unset() {
            let bytes = &self.partial[start..][..count];
            ask.refill(op, size, source, address, bytes);
        } else {
            ask.refill_given(op, size, source, address, self.plain(start, count));
        }
    }

    /// So many bytes from a place on of those that are all given.
    pub fn plain(&self, start: usize, count: usize) -> &[u8]
        requires { start + count ≤ length self.now.whole }
        ensures { result.now ≡ plain_in self.now start count }
    {
        &self.whole[start..][..count]
    }

    /// Gives back the room that no byte has taken.
    pub fn shrink_to_fit(&mut self)
        ensures { HasSameBytes self.old self.new }
    {
        self.whole.shrink_to_fit();
        self.partial.shrink_to_fit();
    }
}
