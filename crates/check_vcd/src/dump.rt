//! A dump, read from a stream: its header, and then what happens in it.
ghost use Rattle.std.specs.Prelude.{◌≡◌, ℕ, List, Err, IfOk, OnOk, map};
ghost use Rattle.check_vcd.specs.Codes.{coded_in, find_in, as_widest};
ghost use Rattle.check_vcd.specs.Dump.{Happened, IsNoDump, IsOpened, IsMistakeAt, IsWrong, KeepsValue, Opens};
ghost use Rattle.check_vcd.specs.Header.{var_view};
ghost use Rattle.check_vcd.specs.declared.fault.Mistake.{Mistake};

use crate::body::{Body, Event};
use crate::codes::{Coded, Codes};
use crate::fault::{DumpFault, Mistake};
use crate::header::{Header, Var};
use crate::words::Words;
use std::alloc::{AllocError, Global};
use std::io::Read;
use std::marker::Model;

/// An identifier that one more signal has, of so many bits: it is as wide as the widest.
fn as_widest(known: Option<Coded>, width: u64) -> Coded
    ensures { result ≡ as_widest known width }
{
    match known {
        Some(known) if width <= known.width => known,
        _ => Coded { width, slot: None },
    }
}

/// The identifiers that signals have. If two signals have one, the widest says how many bits there are.
fn codes_of(alloc: Global, vars: &[Var]) -> Result<Codes, AllocError>
    ensures { IfOk result (λ codes. (code : List ℕ)
        → find_in codes code ≡ coded_in (map var_view vars.now) code) }
{
    let mut codes = Codes::new(alloc)?;
    for var in vars {
        let coded = as_widest(codes.find(&var.code), var.width);
        codes.put(alloc, &var.code, coded)?;
    }
    Ok(codes)
}

/// Reads the header of a dump, up to the word that ends it.
fn read_header<R: Read + Drop>(alloc: Global, words: &mut Words<R>) -> Result<Vec<Var>, DumpFault>
    ensures ok { IfOk result (λ vars. IsOpened words.old.left words.new.left (map var_view vars.items)) }
    ensures wrong { (line : ℕ) (mistake : Mistake) → result ≡ Err (DumpFault.At line mistake)
        → IsMistakeAt words.old.left line mistake }
{
    let mut header = Header::new(alloc);
    for _ in 0..u64::MAX {
        if !words.read()? {
            return Err(DumpFault::At(words.line(), Mistake::CutInHeader));
        }
        match header.take(alloc, words.bytes()) {
            Ok(true) => return Ok(header.vars),
            Ok(false) => {}
            Err(fault) => return Err(fault.on(words.line())),
        }
    }
    Err(DumpFault::Read)
}

/// A dump after its header.
#[derive(Drop)]
pub struct Dump<R: Read + Drop> {
    words: Words<R>,
    body: Body,
}

impl<R: Read + Drop> Model for Dump<R> {
    ghost use Rattle.check_vcd.specs.Dump.{Dumping};

    ghost Value = { Dumping };

    ghost use Rattle.check_vcd.specs.Body.{body_of};
    ghost use Rattle.check_vcd.specs.contracts.codes.Codes as the_codes;
    ghost use Rattle.std.specs.Coded.{codes};

    ghost view = { λ d. record { words = d.words.left; codes = d.body.codes; body = body_of d.body } };

    ghost coded = { Prim.hlevel (codes, the_codes.the_row.coded) };
}

impl<R: Read + Drop> Dump<R> {
    /// Opens the dump that a reader gives; answers it with the signals that it declares.
    pub fn open(alloc: Global, reader: R) -> Result<(Vec<Var>, Dump<R>), DumpFault>
        ensures ok { IfOk result (λ pair. Opens (R.remaining reader) (map var_view pair.0.items) pair.1) }
        ensures wrong { (line : ℕ) (mistake : Mistake) → result ≡ Err (DumpFault.At line mistake)
            → IsNoDump (R.remaining reader) line mistake }
    {
        let mut words = Words::new(alloc, reader)?;
        let vars = read_header(alloc, &mut words)?;
        let codes = codes_of(alloc, &vars)?;
        let dump = Dump {
            words,
            body: Body::new(alloc, codes),
        };
        Ok((vars, dump))
    }

    /// Keeps the values of an identifier in a slot, if it is declared. It may be called before anything was read.
    pub fn keep(&mut self, alloc: Global, code: &[u8], slot: usize) -> Result<(), AllocError>
        ensures kept { OnOk result (KeepsValue self.old code.now slot self.new) }
        ensures words { self.new.words ≡ self.old.words }
        ensures body { self.new.body ≡ self.old.body }
    {
        if let Some(known) = self.body.codes.find(code) {
            let coded = Coded {
                width: known.width,
                slot: Some(slot),
            };
            self.body.codes.put(alloc, code, coded)?;
        }
        Ok(())
    }

    /// Reads on to what happens next, if anything does.
    pub fn read(&mut self) -> Result<Option<Event>, DumpFault>
        ensures ok { IfOk result (Happened self.old self.new) }
        ensures wrong { (line : ℕ) (mistake : Mistake) → result ≡ Err (DumpFault.At line mistake)
            → IsWrong self.old line mistake }
        ensures codes { self.new.codes ≡ self.old.codes }
    {
        for _ in 0..u64::MAX {
            if !self.words.read()? {
                return Ok(None);
            }
            let line = self.words.line();
            match self.body.take(self.words.bytes(), self.words.size(), line) {
                Ok(None) => {}
                Ok(Some(event)) => return Ok(Some(event)),
                Err(fault) => return Err(fault.on(line)),
            }
        }
        Err(DumpFault::Read)
    }

    /// The digits of the value that changed last.
    pub fn value(&self) -> &[u8]
        ensures { result.now ≡ self.now.body.value }
    {
        self.body.value.as_slice()
    }
}
