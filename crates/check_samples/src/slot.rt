//! A value that is kept of a dump.
ghost use Rattle.std.specs.Prelude.{◌≡◌, IfOk, OnOk, replicate};
ghost use Rattle.check_samples.specs.Digits.{extended, fill_of, part_of, unknown};
ghost use Rattle.check_samples.specs.Slot.{before_of};

use crate::tap::Tap;
use std::alloc::{AllocError, Global};
use std::mem;

/// A kept value: how many bits it has, its digits, those that it had before the time of its last change, and the count
/// of times that had begun by then.
#[derive(Drop)]
pub(crate) struct Slot {
    width: usize,
    earlier: Vec<u8>,
    pub(crate) digits: Vec<u8>,
    since: u64,
}

/// The digit that stands before the digits of a value that has fewer than its signal.
fn fill_of(digits: &[u8]) -> u8
    ensures { result ≡ fill_of digits.now }
{
    match digits {
        [] => b'x',
        [b'0' | b'1', ..] => b'0',
        [first, ..] => *first,
    }
}

impl Slot {
    /// A value that is unknown.
    pub(crate) fn new(alloc: Global, width: usize) -> Result<Slot, AllocError>
        ensures made { IfOk result (λ slot. slot.digits.items ≡ unknown width) }
        ensures width { IfOk result (λ slot. slot.width ≡ width) }
        ensures since { IfOk result (λ slot. slot.since ≡ 0) }
    {
        let mut digits = Vec::with_capacity(alloc, width)?;
        digits.resize(width, b'x')?;
        Ok(Slot {
            width,
            earlier: Vec::with_capacity(alloc, width)?,
            digits,
            since: 0,
        })
    }

    /// Changes the value, when so many times have begun.
    pub(crate) fn change(&mut self, times: u64, digits: &[u8]) -> Result<(), AllocError>
        ensures before { OnOk result (before_of times self.new ≡ before_of times self.old) }
        ensures now { OnOk result (self.new.digits.items ≡ extended self.old.width digits.now) }
        ensures width { self.new.width ≡ self.old.width }
        ensures since { self.new.since ≡ times }
    {
        if self.since != times {
            mem::swap(&mut self.earlier, &mut self.digits);
            self.since = times;
        }
        self.digits.clear();
        if digits.len() < self.width {
            self.digits
                .resize(self.width - digits.len(), fill_of(digits))?;
        }
        self.digits.extend_from_slice(digits)
    }

    /// Gives all bits this digit, when so many times have begun.
    pub(crate) fn fill(&mut self, times: u64, digit: u8) -> Result<(), AllocError>
        ensures before { OnOk result (before_of times self.new ≡ before_of times self.old) }
        ensures now { OnOk result (self.new.digits.items ≡ replicate self.old.width digit) }
        ensures width { self.new.width ≡ self.old.width }
        ensures since { self.new.since ≡ times }
    {
        if self.since != times {
            mem::swap(&mut self.earlier, &mut self.digits);
            self.since = times;
        }
        self.digits.clear();
        self.digits.resize(self.width, digit)
    }

    /// The digits that it had before the last of so many times.
    #[inline(always)]
    pub(crate) fn before(&self, times: u64) -> &[u8]
        ensures { result.now ≡ before_of times self.now }
    {
        if self.since == times {
            self.earlier.as_slice()
        } else {
            self.digits.as_slice()
        }
    }
}

/// The digits that a tap takes of a value.
#[inline(always)]
pub(crate) fn part(digits: &[u8], tap: Tap) -> &[u8]
    ensures { result.now ≡ part_of digits.now tap }
{
    if tap.from <= tap.to && tap.to <= digits.len() {
        &digits[tap.from..tap.to]
    } else {
        b""
    }
}
