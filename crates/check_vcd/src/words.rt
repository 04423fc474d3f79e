//! The words of a text, one after the other.
ghost use Rattle.std.specs.Prelude.{◌≡◌, IfErr, IfOk};
ghost use Rattle.check_vcd.specs.Fault.{IsNoMistake};
ghost use Rattle.check_vcd.specs.Words.{AnswersWord, HasWordsOf};

use crate::fault::DumpFault;
use crate::scanner::{Places, Scanner};
use std::alloc::Global;
use std::io::Read;
use std::marker::Model;

/// Reads the words of a text. The last word stands in the scanner's chunk, if all of it was at hand, and else by itself.
#[derive(Drop)]
pub struct Words<R: Read + Drop> {
    scanner: Scanner<R>,
    whole: Option<Places>,
}

impl<R: Read + Drop> Model for Words<R> {
    ghost use Rattle.check_vcd.specs.Words.{Reading};

    ghost Value = { Reading };

    ghost use Rattle.check_vcd.specs.Words.{nothing};
    ghost use Rattle.check_vcd.specs.Scanner.{IsPlaced, left, last_word};

    ghost view = { λ w. record { left = left R.remaining w.scanner nothing; word = last_word w.scanner w.whole } };

    ghost invariant = { λ w. IsPlaced w.scanner w.whole };
}

impl<R: Read + Drop> Words<R> {
    /// The words of what a reader gives.
    pub fn new(alloc: Global, reader: R) -> Result<Words<R>, DumpFault>
        ensures ok { IfOk result (λ words. HasWordsOf (R.remaining reader) words.left) }
        ensures fault { IfErr result IsNoMistake }
    {
        Ok(Words {
            scanner: Scanner::new(alloc, reader)?,
            whole: None,
        })
    }

    /// Reads the next word; answers whether there was one. A last word that no blank ends is none, since it may be cut.
    #[inline(always)]
    pub fn read(&mut self) -> Result<bool, DumpFault>
        ensures ok { IfOk result (AnswersWord self.old.left self.new.left self.new.word) }
        ensures fault { IfErr result IsNoMistake }
    {
        self.whole = self.scanner.take_whole();
        if self.whole.is_some() {
            return Ok(true);
        }
        self.scanner.read()
    }

    /// The bytes of the last word, of which the front alone is kept.
    pub fn bytes(&self) -> &[u8]
        ensures { result.now ≡ self.now.word.bytes }
    {
        match self.whole {
            Some(places) => self.scanner.bytes_at(places),
            None => self.scanner.word.as_slice(),
        }
    }

    /// How many bytes it had.
    pub fn size(&self) -> u64
        ensures { result ≡ self.now.word.size }
    {
        match self.whole {
            Some(places) => (places.to - places.from) as u64,
            None => self.scanner.size,
        }
    }

    /// The line on which it stands, counted from 1 by line feeds.
    pub fn line(&self) -> u64
        ensures { result ≡ self.now.word.line }
    {
        self.scanner.line
    }
}
