//! The body of a dump: what happens, word by word.
ghost use Rattle.std.specs.Prelude.{◌≡◌, ◌++◌, OnOk, map};
ghost use Rattle.check_vcd.specs.Body.{Tells, begun, body_of, changed, passed, resumed, start, step_of, timed, told, with_bit, with_digits};
ghost use Rattle.check_vcd.specs.Codes.{find_in};
ghost use Rattle.check_vcd.specs.Token.{are_plain, plain_digit};

use crate::codes::Codes;
use crate::fault::{Mistake, WordFault};
use crate::token::{TokenKind, are_bits, are_plain, is_end, plain_digit, token_kind};
use std::alloc::{AllocError, Global};
use tl_text::read_number;

/// The most digits of a time.
pub const TIME_DIGITS: usize = 20;

/// Where a word of a dump's body stands.
#[derive(Debug, Clone, Copy, PartialEq, Eq)]
pub enum BodyPlace {
    /// Where something new begins.
    Plain,
    InComment,
    /// Behind a value of several bits.
    BehindVector,
    /// Behind a real number or a text.
    BehindOther,
}

/// What happens in a dump.
#[derive(Debug, Clone, Copy, PartialEq, Eq)]
pub enum Event {
    /// A time begins.
    Time(u64),
    /// The value that is kept in this slot changes.
    Change(usize),
    /// On this line changes are told again, after they were not.
    Resume(u64),
}

/// A dump's body while it is read: the identifiers, where the next word stands, the value at hand with its count of
/// digits, of which a front alone may be kept, the last time, and whether changes are not told.
#[derive(Drop)]
pub(crate) struct Body {
    pub(crate) codes: Codes,
    place: BodyPlace,
    pub(crate) value: Vec<u8>,
    size: u64,
    time: Option<u64>,
    is_off: bool,
}

/// Appends digits as what they stand for. In most dumps they are that already, and it is known whether these are.
fn push_plain(value: &mut Vec<u8>, digits: &[u8], plain: bool) -> Result<(), AllocError>
    requires { plain ≡ are_plain digits.now }
    ensures { OnOk result (value.new.items ≡ value.old.items ++ map plain_digit digits.now) }
{
    if plain {
        return value.extend_from_slice(digits);
    }
    for digit in digits {
        value.push(plain_digit(*digit))?;
    }
    Ok(())
}

impl Body {
    /// Before the first word of a body.
    pub(crate) fn new(alloc: Global, codes: Codes) -> Body
        ensures start { body_of result ≡ start }
        ensures codes { result.codes ≡ codes }
    {
        Body {
            codes,
            place: BodyPlace::Plain,
            value: Vec::new(alloc),
            size: 0,
            time: None,
            is_off: false,
        }
    }

    /// Takes the identifier of the value at hand.
    #[inline(always)]
    fn change(&self, code: &[u8]) -> Result<Option<Event>, WordFault>
        ensures { Tells result (changed (find_in self.now.codes) (body_of self.now) code.now) self.now }
    {
        let Some(coded) = self.codes.find(code) else {
            return Err(WordFault::Wrong(Mistake::NoSuchIdentifier));
        };
        if coded.width < self.size {
            return Err(WordFault::Wrong(Mistake::TooWide));
        }
        match coded.slot {
            Some(slot) => Ok(Some(Event::Change(slot))),
            None => Ok(None),
        }
    }

    /// Takes the identifier of a value that is not of bits.
    fn pass(&self, code: &[u8]) -> Result<Option<Event>, WordFault>
        ensures { Tells result (passed (find_in self.now.codes) (body_of self.now) code.now) self.now }
    {
        match self.codes.find(code) {
            Some(_) => Ok(None),
            None => Err(WordFault::Wrong(Mistake::NoSuchIdentifier)),
        }
    }

    /// Takes the digits of a time.
    fn take_time(&mut self, digits: &[u8]) -> Result<Option<Event>, WordFault>
        ensures told { Tells result (timed (body_of self.old) digits.now) self.new }
        ensures codes { self.new.codes ≡ self.old.codes }
    {
        let Some(time) = read_number(digits, 10, TIME_DIGITS) else {
            return Err(WordFault::Wrong(Mistake::NotADump));
        };
        if let Some(last) = self.time
            && time < last
        {
            return Err(WordFault::Wrong(Mistake::TimeFalls));
        }
        self.time = Some(time);
        Ok(Some(Event::Time(time)))
    }

    /// Takes a value of one bit, with its identifier.
    #[inline(always)]
    fn take_scalar(&mut self, digit: u8, code: &[u8]) -> Result<Option<Event>, WordFault>
        ensures told { Tells result (changed (find_in self.old.codes) (with_bit (body_of self.old) digit) code.now)
            self.new }
        ensures codes { self.new.codes ≡ self.old.codes }
    {
        self.value.clear();
        self.value.push(plain_digit(digit))?;
        self.size = 1;
        self.change(code)
    }

    /// Takes the digits of a value, of which there were so many.
    #[inline(always)]
    #[tactic(auto, using(crate::proofs::DigitLemmas::plain_are_bits))]
    fn take_vector(&mut self, digits: &[u8], size: u64) -> Result<Option<Event>, WordFault>
        ensures told { Tells result (with_digits (body_of self.old) digits.now size) self.new }
        ensures codes { self.new.codes ≡ self.old.codes }
    {
        let plain = are_plain(digits);
        if digits.is_empty() || !(plain || are_bits(digits)) {
            return Err(WordFault::Wrong(Mistake::BadValue));
        }
        self.value.clear();
        push_plain(&mut self.value, digits, plain)?;
        self.size = size;
        self.place = BodyPlace::BehindVector;
        Ok(None)
    }

    /// Takes the word on this line after which changes are told.
    fn resume(&mut self, line: u64) -> Option<Event>
        ensures told { resumed (body_of self.old) line ≡ told result (body_of self.new) }
        ensures codes { self.new.codes ≡ self.old.codes }
    {
        if self.is_off {
            self.is_off = false;
            Some(Event::Resume(line))
        } else {
            None
        }
    }

    /// Takes a word that begins something new.
    #[inline(always)]
    fn begin(&mut self, word: &[u8], size: u64, line: u64) -> Result<Option<Event>, WordFault>
        ensures told { Tells result (begun (find_in self.old.codes) (body_of self.old) line size word.now) self.new }
        ensures codes { self.new.codes ≡ self.old.codes }
    {
        let [first, rest @ ..] = word else {
            return Err(WordFault::Wrong(Mistake::NotADump));
        };
        match token_kind(*first, word) {
            TokenKind::Scalar => self.take_scalar(*first, rest),
            TokenKind::Vector => self.take_vector(rest, size.saturating_sub(1)),
            TokenKind::Time => self.take_time(rest),
            TokenKind::Other => {
                self.place = BodyPlace::BehindOther;
                Ok(None)
            }
            TokenKind::Comment => {
                self.place = BodyPlace::InComment;
                Ok(None)
            }
            TokenKind::Ignored => Ok(None),
            TokenKind::Off => {
                self.is_off = true;
                Ok(None)
            }
            TokenKind::On => Ok(self.resume(line)),
            TokenKind::Unknown => Err(WordFault::Wrong(Mistake::NotADump)),
        }
    }

    /// Takes a word of so many bytes on this line, and answers what happens with it.
    #[inline(always)]
    pub(crate) fn take(
        &mut self,
        word: &[u8],
        size: u64,
        line: u64,
    ) -> Result<Option<Event>, WordFault>
        ensures told { Tells result (step_of (find_in self.old.codes) (body_of self.old) line size word.now) self.new }
        ensures codes { self.new.codes ≡ self.old.codes }
    {
        match self.place {
            BodyPlace::Plain => self.begin(word, size, line),
            BodyPlace::InComment => {
                if is_end(word) {
                    self.place = BodyPlace::Plain;
                }
                Ok(None)
            }
            BodyPlace::BehindVector => {
                self.place = BodyPlace::Plain;
                self.change(word)
            }
            BodyPlace::BehindOther => {
                self.place = BodyPlace::Plain;
                self.pass(word)
            }
        }
    }
}
