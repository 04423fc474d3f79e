//! The header of a dump: the signals that it declares.
ghost use Rattle.std.specs.Prelude.{◌≡◌, IfOk, map};
ghost use Rattle.check_vcd.specs.Header.{Leads, began, blank, command_of, declared, header_of, joined as joined_words, named, obeyed, path as path_of, scoped, step_of, unscoped, went_on};
ghost use Rattle.check_vcd.specs.Range.{named_view};

use crate::fault::{Mistake, WordFault};
use crate::range::{Span, split_range};
use crate::token::is_end;
use std::alloc::{AllocError, Global};
use tl_text::read_number;

/// The most words of a command that are looked at.
pub const MAX_ARGS: usize = 8;

/// The most digits of a width.
pub const WIDTH_DIGITS: usize = 10;

/// A signal that a dump declares: its hierarchical name, its identifier, how many bits it has, and the indices of these
/// if they are given.
#[derive(Debug, Drop)]
pub struct Var {
    pub name: Vec<u8>,
    pub code: Vec<u8>,
    pub width: u64,
    pub span: Option<Span>,
}

/// A command of a header.
#[derive(Debug, Clone, Copy, PartialEq, Eq)]
pub enum Command {
    Scope,
    Upscope,
    Var,
    EndDefinitions,
    /// It says nothing of signals.
    Other,
}

/// A header while it is read: the scopes that are open, the command at hand with its first words, and the signals that
/// were declared.
#[derive(Drop)]
pub(crate) struct Header {
    scopes: Vec<Vec<u8>>,
    command: Option<Command>,
    args: Vec<Vec<u8>>,
    pub(crate) vars: Vec<Var>,
}

/// The command that a word names.
fn command_of(word: &[u8]) -> Command
    ensures { result ≡ command_of word.now }
{
    if word == b"$scope".as_slice() {
        Command::Scope
    } else if word == b"$upscope".as_slice() {
        Command::Upscope
    } else if word == b"$var".as_slice() {
        Command::Var
    } else if word == b"$enddefinitions".as_slice() {
        Command::EndDefinitions
    } else {
        Command::Other
    }
}

/// The name of a signal within scopes.
fn path(alloc: Global, scopes: &[Vec<u8>], name: &[u8]) -> Result<Vec<u8>, AllocError>
    ensures { IfOk result (λ text. text.items ≡ path_of (map (λ scope. scope.items) scopes.now) name.now) }
{
    let mut text = Vec::new(alloc);
    for scope in scopes {
        text.extend_from_slice(scope)?;
        text.push(b'.')?;
    }
    text.extend_from_slice(name)?;
    Ok(text)
}

/// The name that words spell together.
fn joined(alloc: Global, words: &[Vec<u8>]) -> Result<Vec<u8>, AllocError>
    ensures { IfOk result (λ text. text.items ≡ joined_words (map (λ word. word.items) words.now)) }
{
    let mut text = Vec::new(alloc);
    for word in words {
        text.extend_from_slice(word)?;
    }
    Ok(text)
}

/// A name, without the range of its bits where it ends in one.
fn name_and_span(name: &[u8], width: u64) -> (&[u8], Option<Span>)
    ensures { named_view result ≡ named width name.now }
{
    match split_range(name) {
        Some((base, span)) if span.has_bits(width) => (base, Some(span)),
        _ => (name, None),
    }
}

impl Header {
    /// Before its first word.
    pub(crate) fn new(alloc: Global) -> Header
        ensures { header_of result ≡ blank }
    {
        Header {
            scopes: Vec::new(alloc),
            command: None,
            args: Vec::new(alloc),
            vars: Vec::new(alloc),
        }
    }

    /// Opens the scope that the command names.
    fn open_scope(&mut self, alloc: Global) -> Result<bool, WordFault>
        ensures { Leads result (scoped (header_of self.old)) self.new }
    {
        let [_, name, ..] = self.args.as_slice() else {
            return Err(WordFault::Wrong(Mistake::NotADump));
        };
        let name = Vec::from_slice(alloc, name)?;
        self.scopes.push(name)?;
        Ok(false)
    }

    /// Closes the scope that was opened last.
    fn close_scope(&mut self) -> Result<bool, WordFault>
        ensures { Leads result (unscoped (header_of self.old)) self.new }
    {
        if self.scopes.is_empty() {
            return Err(WordFault::Wrong(Mistake::NotADump));
        }
        self.scopes.truncate(self.scopes.len() - 1);
        Ok(false)
    }

    /// Declares the signal that the command names.
    fn declare(&mut self, alloc: Global) -> Result<bool, WordFault>
        ensures { Leads result (declared (header_of self.old)) self.new }
    {
        let [_, width, code, words @ ..] = self.args.as_slice() else {
            return Err(WordFault::Wrong(Mistake::NotADump));
        };
        let Some(width) = read_number(width, 10, WIDTH_DIGITS) else {
            return Err(WordFault::Wrong(Mistake::NotADump));
        };
        let name = joined(alloc, words)?;
        let (base, span) = name_and_span(&name, width);
        let var = Var {
            name: path(alloc, &self.scopes, base)?,
            code: Vec::from_slice(alloc, code)?,
            width,
            span,
        };
        self.vars.push(var)?;
        Ok(false)
    }

    /// Does what the command says, after its end.
    fn obey(&mut self, alloc: Global, command: Command) -> Result<bool, WordFault>
        ensures { Leads result (obeyed command (header_of self.old)) self.new }
    {
        match command {
            Command::Scope => self.open_scope(alloc),
            Command::Upscope => self.close_scope(),
            Command::Var => self.declare(alloc),
            Command::EndDefinitions => Ok(true),
            Command::Other => Ok(false),
        }
    }

    /// Takes the word that begins a command.
    fn begin(&mut self, word: &[u8]) -> Result<bool, WordFault>
        ensures { Leads result (began (header_of self.old) word.now) self.new }
    {
        if word.first() != Some(&b'$') {
            return Err(WordFault::Wrong(Mistake::NotADump));
        }
        self.command = Some(command_of(word));
        self.args.clear();
        Ok(false)
    }

    /// Takes a word of the command.
    fn go_on(&mut self, alloc: Global, command: Command, word: &[u8]) -> Result<bool, WordFault>
        ensures { Leads result (went_on command (header_of self.old) word.now) self.new }
    {
        if is_end(word) {
            self.command = None;
            return self.obey(alloc, command);
        }
        if self.args.len() < MAX_ARGS {
            self.args.push(Vec::from_slice(alloc, word)?)?;
        }
        Ok(false)
    }

    /// Takes a word; answers whether it ends the header.
    pub(crate) fn take(&mut self, alloc: Global, word: &[u8]) -> Result<bool, WordFault>
        ensures { Leads result (step_of (header_of self.old) word.now) self.new }
    {
        match self.command {
            Some(command) => self.go_on(alloc, command, word),
            None => self.begin(word),
        }
    }
}
