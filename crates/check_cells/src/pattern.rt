//! Replies of which some parts may be unknown.
ghost use Rattle.std.specs.Prelude.{◌≡◌, ◌↔◌, ℕ, ◌≤◌, Bool, [], length, true, false, IsTrue, Some};
ghost use Rattle.tl_types.specs.Operation.{reply_op_of};
ghost use Rattle.tl_types.specs.declared.operation.ReplyOp.TheVariants.{AccessAck};
ghost use Rattle.check_cells.specs.Known.{IsBelowBut};
ghost use Rattle.check_cells.specs.Pattern.{AreLookedAt, FitsCaptured, captured_as, captured_bytes, device_pattern, unsure};

use crate::cells::Cells;
use crate::marks::Marks;
use std::marker::Model;
use tl_types::{Ask, MAX_BYTES, ReplyOp};

/// A reply of which the denied flag and some bytes may be unknown: the one that is expected, or that was captured.
#[derive(Debug, Drop)]
pub struct Pattern {
    pub cells: Cells,
    pub marks: Marks,
    source: u16,
    size: u8,
    denied: Option<bool>,
    op: ReplyOp,
}

impl Model for Pattern {
    ghost use Rattle.check_cells.specs.Pattern.{Pattern as Expected};

    ghost Value = { Expected };

    ghost view = { λ p. record {
      op = p.op;
      size = p.size;
      source = p.source;
      denied = p.denied;
      bytes = p.cells;
      spoiled = p.marks;
    } };
}

impl Pattern {
    /// An acknowledgement to source 0: room for patterns that are written one after the other.
    pub fn blank() -> Pattern
        ensures { result ≡ record {
          op = AccessAck;
          size = 0;
          source = 0;
          denied = Some false;
          bytes = [];
          spoiled = [];
        } }
    {
        Pattern {
            cells: Cells::new(),
            marks: Marks::new(),
            source: 0,
            size: 0,
            denied: Some(false),
            op: ReplyOp::AccessAck,
        }
    }

    /// Puts a captured reply with no spoiled byte in the place of another. Of one that is denied the bytes are not looked at.
    pub fn refill(&mut self, op: ReplyOp, size: u8, source: u16, denied: bool, bytes: &[Option<u8>])
        requires { length bytes.now ≤ MAX_BYTES }
        ensures { self.new ≡ captured_as op size source denied bytes.now }
    {
        put_captured(&mut self.cells, denied, bytes);
        self.marks.clear();
        self.marks.push(false, bytes.len());
        self.set_fields(op, size, source, Some(denied));
    }

    /// Puts these fields in the place of all but its bytes and their marks.
    pub fn set_fields(&mut self, op: ReplyOp, size: u8, source: u16, denied: Option<bool>)
        ensures { self.new ≡ record {
          op = op;
          size = size;
          source = source;
          denied = denied;
          bytes = self.old.bytes;
          spoiled = self.old.spoiled;
        } }
    {
        self.op = op;
        self.size = size;
        self.source = source;
        self.denied = denied;
    }

    /// Puts a copy of another reply in the place of this one.
    pub fn refill_from(&mut self, other: &Pattern)
        ensures { self.new ≡ other.now }
    {
        self.cells.refill_from(&other.cells);
        self.marks.refill_from(&other.marks);
        self.op = other.op;
        self.size = other.size;
        self.source = other.source;
        self.denied = other.denied;
    }

    /// The same reply.
    pub fn copy(&self) -> Pattern
        ensures { result ≡ self.now }
    {
        let mut copy = Pattern::blank();
        copy.refill_from(self);
        copy
    }

    /// All but the bytes of the answer that is expected to a request.
    pub fn head(&mut self, ask: &Ask, denied: Option<bool>)
        ensures { self.new ≡ record {
          op = reply_op_of ask.now.op;
          size = ask.now.size;
          source = ask.now.source;
          denied = denied;
          bytes = self.old.bytes;
          spoiled = [];
        } }
    {
        self.marks.clear();
        self.set_fields(ask.op().reply_op(), ask.size(), ask.source(), denied);
    }

    /// What is expected of a device: any reply of the right form.
    pub fn expect_any(&mut self, ask: &Ask)
        ensures { self.new ≡ device_pattern ask.now }
    {
        self.head(ask, None);
        let count = ask.op().reply_op().byte_count(ask.size());
        self.cells.fill(false, count);
    }

    /// Its opcode.
    pub fn op(&self) -> ReplyOp
        ensures { result ≡ self.now.op }
    {
        self.op
    }

    /// Its size, as the base-2 logarithm of a number of bytes.
    pub fn size(&self) -> u8
        ensures { result ≡ self.now.size }
    {
        self.size
    }

    /// Its source.
    pub fn source(&self) -> u16
        ensures { result ≡ self.now.source }
    {
        self.source
    }

    /// Whether it is denied, if that is known.
    pub fn denied(&self) -> Option<bool>
        ensures { result ≡ self.now.denied }
    {
        self.denied
    }

    /// Its bytes.
    pub fn cells(&self) -> &Cells
        ensures { result.now ≡ self.now.bytes }
    {
        &self.cells
    }

    /// Which of its bytes are spoiled.
    pub fn marks(&self) -> &Marks
        ensures { result.now ≡ self.now.spoiled }
    {
        &self.marks
    }

    /// The answer may be denied too.
    pub fn doubt(&mut self)
        ensures { self.new ≡ unsure self.old }
    {
        if self.denied == Some(false) {
            self.denied = None;
        }
    }

    /// Whether the bytes of a captured reply are as many, and fit those that are expected if they are looked at.
    fn do_bytes_fit(&self, captured: &Pattern) -> bool
        ensures { IsTrue result ↔ ((length captured.now.bytes ≡ length self.now.bytes)
            × (AreLookedAt self.now captured.now
            → IsBelowBut captured.now.spoiled self.now.bytes captured.now.bytes)) }
    {
        if are_looked_at(self.denied, captured.denied) {
            self.cells.is_below_but(&captured.marks, &captured.cells)
        } else {
            captured.cells.len() == self.cells.len()
        }
    }

    /// Whether a captured reply fits this one, which is expected.
    pub fn fits(&self, captured: &Pattern) -> bool
        ensures { IsTrue result ↔ FitsCaptured self.now captured.now }
    {
        self.op == captured.op
            && self.size == captured.size
            && self.source == captured.source
            && is_flag_kept(self.denied, captured.denied)
            && self.do_bytes_fit(captured)
    }
}

/// Whether the bytes of a reply are looked at: unless it is denied and need not be.
fn are_looked_at(less: Option<bool>, more: Option<bool>) -> bool
    ensures { IsTrue result ↔ (more ≡ Some true → less ≡ Some true) }
{
    match (less, more) {
        (Some(true), _) => true,
        (_, Some(true)) => false,
        _ => true,
    }
}

/// Puts the bytes of a captured reply in the place of others: zeros, if it is denied.
fn put_captured(cells: &mut Cells, denied: bool, bytes: &[Option<u8>])
    requires { length bytes.now ≤ MAX_BYTES }
    ensures { cells.new ≡ captured_bytes denied bytes.now }
{
    if denied {
        cells.fill(true, bytes.len());
    } else {
        cells.refill(bytes);
    }
}

/// Whether a flag, if it is known, is known there too and is the same.
fn is_flag_kept(less: Option<bool>, more: Option<bool>) -> bool
    ensures { IsTrue result ↔ ((flag : Bool) → less ≡ Some flag → more ≡ Some flag) }
{
    match (less, more) {
        (None, _) => true,
        (Some(_), None) => false,
        (Some(flag), Some(other)) => flag == other,
    }
}
