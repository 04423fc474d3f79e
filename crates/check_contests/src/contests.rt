//! The requests that a port has accepted and not yet answered, if nobody knows in which order they take effect.
ghost use Rattle.std.specs.Prelude.{◌≡◌, ℕ, ◌<◌, [], length, slice_get, map, Some, None, true, IfOk, IfSome, OnOk, OnErr, option_map};
ghost use Rattle.std.specs.List.{remove};
ghost use Rattle.check_memory.specs.Partial.{after_partial, takes_bytes};
ghost use Rattle.check_cells.specs.Pattern.{unsure};
ghost use Rattle.check_memory.specs.Pattern.{pattern};
ghost use Rattle.check_contests.specs.Cut.{memory_cut};
ghost use Rattle.check_contests.specs.Contests.{contested_in, due_beside, due_of, entry_accepting, kept_accepting, kept_answering, kept_of, memory_accepting, one_may_write, slave_accepting};

use crate::accepted::Accepted;
use crate::due::hide;
use crate::flags::{NEAR_BYTES, mark_all, mark_own, near};
use crate::placed::Placed;
use crate::sent::serve_sent;
use check_cells::{Pattern, Sent};
use check_memory::{PartialMemory, Slave};
use std::alloc::{AllocError, Global};
use std::marker::Model;
use tl_types::{Ask, MAX_BYTES};

/// The requests that are accepted and not yet answered, in the order in which they were accepted.
#[derive(Drop)]
pub struct Contests {
    kept: Vec<Accepted>,
}

impl Model for Contests {
    ghost use Rattle.std.specs.Prelude.{List};
    ghost use Rattle.check_contests.specs.declared.accepted.Accepted.{Accepted};

    ghost Value = { List Accepted };

    ghost view = { λ c. c.kept.items };
}

impl Clone for Contests {
    ghost use Rattle.std.specs.Prelude.{◌≡◌};

    ghost is_clone = { λ contests copy. copy ≡ contests };

    fn clone(&self) -> Result<Contests, AllocError> {
        Ok(Contests {
            kept: self.kept.clone()?,
        })
    }
}

/// Makes each byte of what is due to a request unknown that one of those kept may write.
fn hide_each(memory: &PartialMemory, kept: &[Accepted], ask: &Ask, due: &mut Pattern)
    ensures { due.new ≡ due_beside memory.now ask.now (one_may_write memory.now kept.now) due.old }
{
    for entry in kept {
        hide(memory, ask, &entry.ask, due);
    }
}

/// Serves a legal request that carries bytes beside those kept, in a memory that is seen in one place: windows that have a
/// byte in common lie in one block of as many bytes as the largest message has.
fn serve_in_block(
    alloc: Global,
    memory: &mut PartialMemory,
    kept: &[Accepted],
    ask: &Ask,
    due: &mut Pattern,
) -> Result<(), AllocError>
    requires takes { takes_bytes memory.old ask.now ≡ true }
    requires alone { memory.old.mirrors ≡ [] }
    ensures after { IfOk result (λ _.
        memory.new ≡ contested_in memory.old kept.now ask.now (after_partial memory.old ask.now)) }
    ensures pattern { IfOk result (λ _. due.new ≡ pattern memory.old ask.now) }
    ensures unchanged { OnErr result (memory.new ≡ memory.old) }
    ensures due_unchanged { OnErr result (due.new ≡ due.old) }
{
    let block = ask.address() - ask.address() % MAX_BYTES as u64;
    let _in_limit = ask.width();
    let mut flags = [false; MAX_BYTES];
    mark_all(memory, kept, ask, block, &mut flags);
    memory.serve_and_forget(alloc, ask, block, &flags, due)
}

/// Serves a legal request that carries bytes beside those kept, in a memory whose windows stand anywhere.
// apart, so that a memory in one place goes by short code
#[inline(never)]
fn serve_near(
    alloc: Global,
    memory: &mut PartialMemory,
    kept: &[Accepted],
    ask: &Ask,
    due: &mut Pattern,
) -> Result<(), AllocError>
    requires takes { takes_bytes memory.old ask.now ≡ true }
    ensures after { IfOk result (λ _.
        memory.new ≡ contested_in memory.old kept.now ask.now (after_partial memory.old ask.now)) }
    ensures pattern { IfOk result (λ _. due.new ≡ pattern memory.old ask.now) }
    ensures unchanged { OnErr result (memory.new ≡ memory.old) }
    ensures due_unchanged { OnErr result (due.new ≡ due.old) }
{
    let first = near(memory.start(ask));
    let _in_limit = ask.width();
    let mut flags = [false; NEAR_BYTES];
    mark_all(memory, kept, ask, first, &mut flags);
    memory.serve_and_forget(alloc, ask, first, &flags, due)
}

/// Serves a request, none of whose beats was corrupt, beside those kept: the memory is the one after it, without the bytes
/// that are contested, and what is expected of it stands in the place of another pattern. If there is no memory for a page,
/// nothing is changed.
fn serve_contested(
    alloc: Global,
    memory: &mut PartialMemory,
    kept: &[Accepted],
    ask: &Ask,
    due: &mut Pattern,
) -> Result<(), AllocError>
    ensures after { IfOk result (λ _.
        memory.new ≡ contested_in memory.old kept.now ask.now (after_partial memory.old ask.now)) }
    ensures pattern { IfOk result (λ _. due.new ≡ pattern memory.old ask.now) }
    ensures unchanged { OnErr result (memory.new ≡ memory.old) }
    ensures due_unchanged { OnErr result (due.new ≡ due.old) }
{
    if ask.op().carries_bytes() && memory.permits(ask) {
        if memory.is_mirrored() {
            serve_near(alloc, memory, kept, ask, due)
        } else {
            serve_in_block(alloc, memory, kept, ask, due)
        }
    } else {
        memory.serve_into(alloc, ask, due)
    }
}

/// Makes unknown what a legal request that carries bytes, a beat of which was corrupt, may write beside those kept, and what is
/// contested. If there is no memory for a page, nothing is changed.
fn forget_corrupt(
    alloc: Global,
    memory: &mut PartialMemory,
    kept: &[Accepted],
    ask: &Ask,
) -> Result<(), AllocError>
    requires takes { takes_bytes memory.old ask.now ≡ true }
    ensures after { OnOk result (memory.new
        ≡ contested_in memory.old kept.now ask.now (memory_cut memory.old ask.now)) }
    ensures unchanged { OnErr result (memory.new ≡ memory.old) }
{
    let here = Placed::of(memory, ask);
    let first = near(here.address());
    let _in_limit = here.width();
    let mut flags = [false; NEAR_BYTES];
    mark_all(memory, kept, ask, first, &mut flags);
    mark_own(&here, first, &mut flags);
    memory.forget(alloc, first, &flags)
}

/// Serves a corrupt request beside those kept: the bytes that it may write are unknown, and those that are contested. What is
/// expected of it stands in the place of another pattern. If there is no memory for a page, nothing is changed.
// apart, since few requests are corrupt: it makes room for an answer of its own
#[inline(never)]
fn serve_corrupt(
    alloc: Global,
    memory: &mut PartialMemory,
    kept: &[Accepted],
    ask: &Ask,
    due: &mut Pattern,
) -> Result<(), AllocError>
    ensures after { IfOk result (λ _.
        memory.new ≡ contested_in memory.old kept.now ask.now (memory_cut memory.old ask.now)) }
    ensures pattern { IfOk result (λ _. due.new ≡ unsure (pattern memory.old ask.now)) }
    ensures unchanged { OnErr result (memory.new ≡ memory.old) }
    ensures due_unchanged { OnErr result (due.new ≡ due.old) }
{
    let mut expected = Pattern::blank();
    memory.answer(ask, &mut expected);
    expected.doubt();
    if ask.op().carries_bytes() && memory.permits(ask) {
        forget_corrupt(alloc, memory, kept, ask)?;
    }
    due.refill_from(&expected);
    Ok(())
}

/// Serves a request beside those kept, as `serve_contested` and `serve_corrupt` do, and makes each byte of what is due unknown
/// that one of those kept may write.
fn serve_beside(
    alloc: Global,
    memory: &mut PartialMemory,
    kept: &[Accepted],
    sent: &Sent,
    due: &mut Pattern,
) -> Result<(), AllocError>
    ensures after { IfOk result (λ _. memory.new ≡ memory_accepting memory.old kept.now sent.now) }
    ensures due { IfOk result (λ _. due.new ≡ due_of (Slave.Memory memory.old) kept.now sent.now) }
    ensures unchanged { OnErr result (memory.new ≡ memory.old) }
{
    let ask = sent.ask();
    if sent.is_corrupt() {
        serve_corrupt(alloc, memory, kept, ask, due)?;
    } else {
        serve_contested(alloc, memory, kept, ask, due)?;
    }
    hide_each(memory, kept, ask, due);
    Ok(())
}

/// Serves a request beside those kept. If there is no memory for a page, the slave is not changed.
fn serve(
    alloc: Global,
    slave: &mut Slave,
    kept: &[Accepted],
    sent: &Sent,
    due: &mut Pattern,
) -> Result<(), AllocError>
    ensures after { IfOk result (λ _. slave.new ≡ slave_accepting slave.old kept.now sent.now) }
    ensures due { IfOk result (λ _. due.new ≡ due_of slave.old kept.now sent.now) }
    ensures unchanged { OnErr result (slave.new ≡ slave.old) }
{
    if kept.is_empty() {
        return serve_sent(alloc, slave, sent, due);
    }
    match slave {
        Slave::Memory(memory) => serve_beside(alloc, memory, kept, sent, due),
        Slave::Device => {
            due.expect_any(sent.ask());
            Ok(())
        }
    }
}

/// Makes each byte unknown of what is due to those kept that a new request may write.
fn hide_new(slave: &Slave, kept: &mut [Accepted], ask: &Ask)
    ensures { kept.new ≡ map (entry_accepting slave.now ask.now) kept.old }
{
    if let Slave::Memory(memory) = slave {
        for entry in kept.iter_mut() {
            hide(memory, &entry.ask, ask, &mut entry.due);
        }
    }
}

/// The place of the one kept of a wide source.
fn place_of(kept: &[Accepted], wide: usize) -> Option<usize>
    ensures none { result ≡ None → kept_of kept.now wide ≡ None }
    ensures rest_same { result ≡ None → kept_answering kept.now wide ≡ kept.now }
    ensures here { IfSome result (λ place. place < length kept.now) }
    ensures one { IfSome result (λ place. kept_of kept.now wide ≡ slice_get kept.now place) }
    ensures rest { IfSome result (λ place. kept_answering kept.now wide ≡ remove kept.now place) }
{
    for (place, entry) in kept.iter().enumerate() {
        if entry.wide == wide {
            return Some(place);
        }
    }
    None
}

impl Contests {
    /// None.
    pub fn new(alloc: Global) -> Contests
        ensures { result ≡ [] }
    {
        Contests {
            kept: Vec::new(alloc),
        }
    }

    /// A slave accepts a request of a wide source, with its place in the port's list. If memory is refused, nothing is
    /// changed.
    pub fn accept(
        &mut self,
        alloc: Global,
        slave: &mut Slave,
        wide: usize,
        index: usize,
        sent: &Sent,
    ) -> Result<(), AllocError>
        ensures kept { OnOk result (self.new ≡ kept_accepting slave.old self.old wide index sent.now) }
        ensures slave { OnOk result (slave.new ≡ slave_accepting slave.old self.old sent.now) }
        ensures unchanged { OnErr result (self.new ≡ self.old) }
        ensures slave_unchanged { OnErr result (slave.new ≡ slave.old) }
    {
        self.kept.reserve(1)?;
        let mut due = Pattern::blank();
        serve(alloc, slave, self.kept.as_slice(), sent, &mut due)?;
        let ask = sent.ask();
        hide_new(slave, self.kept.as_mut_slice(), ask);
        self.kept.push_reserved(Accepted {
            wide,
            ask: ask.copy(),
            due,
            index,
        });
        Ok(())
    }

    /// The request of a wide source, with what its reply has to fit.
    pub fn due(&self, wide: usize) -> Option<&Accepted>
        ensures { option_map (λ entry. entry.now) result ≡ kept_of self.now wide }
    {
        match place_of(self.kept.as_slice(), wide) {
            Some(place) => Some(&self.kept[place]),
            None => None,
        }
    }

    /// All are taken out.
    pub fn clear(&mut self)
        ensures { self.new ≡ [] }
    {
        self.kept.clear();
    }

    /// The request of a wide source is answered: it is taken out.
    pub fn answer(&mut self, wide: usize) -> Option<Accepted>
        ensures taken { result ≡ kept_of self.old wide }
        ensures rest { self.new ≡ kept_answering self.old wide }
    {
        match place_of(self.kept.as_slice(), wide) {
            Some(place) => Some(self.kept.remove(place)),
            None => None,
        }
    }
}
