//! How far requests have come across.
ghost use Rattle.std.specs.Prelude.{◌≡◌, ◌↔◌, ℕ, ◌*◌, ◌<◌, ◌≤◌, length, map, is_some, List, Option, IsTrue, IsSomeAnd, option_map};
ghost use Rattle.check_flight.specs.Crossing.Crossing.{Waiting, Crossed, Given};
ghost use Rattle.check_flight.specs.Crossing.{given, reply_bytes, request_bytes, AreSameInCut, AreSameParts, IsCutSpoiled, IsSameCut, IsSameReply, IsSameSent};

use crate::answer::Answer;
use check_beats::MAX_LANES;
use check_cells::{Cells, Marks, Pattern, Sent};
use std::alloc::AllocError;
use std::marker::Model;
use tl_types::{Bytes, MAX_BYTES};

/// How far a request has come.
#[derive(Debug, Clone, Copy, PartialEq, Eq)]
pub enum Reach {
    /// It is at its master's link alone.
    AtMaster,
    /// A port has taken it.
    AtPort,
    /// The port has given its reply.
    Answered,
}

/// How far the request in flight of a master's source has come across.
#[derive(Debug, Drop)]
pub struct Crossing {
    reach: Reach,
    /// The reply that the port has given, if it has.
    answer: Answer,
}

impl Model for Crossing {
    ghost use Rattle.check_flight.specs.Crossing.{Crossing, crossing_kept};

    ghost Value = { Crossing };

    ghost view = { λ c. crossing_kept c.reach c.answer };
}

impl Clone for Crossing {
    ghost use Rattle.std.specs.Prelude.{◌≡◌};

    ghost is_clone = { λ crossing copy. copy ≡ crossing };

    fn clone(&self) -> Result<Crossing, AllocError> {
        Ok(Crossing {
            reach: self.reach,
            answer: self.answer.copy(),
        })
    }
}

/// Whether the same bytes are known, and are the same.
fn are_same_bytes(given: &Cells, captured: &Cells) -> bool
    ensures { IsTrue result ↔ (given.now ≡ captured.now) }
{
    given.is_below(captured) && captured.is_below(given)
}

/// Whether a cut of so many bytes is spoiled: a byte of it is.
fn is_cut_spoiled(marks: &Marks, width: usize, cut: usize) -> bool
    requires some { 0 < width }
    requires in_limit { width ≤ MAX_LANES }
    requires room { width * cut ≤ MAX_BYTES }
    ensures { (bytes : List (Option ℕ)) → IsTrue result
        ↔ IsCutSpoiled width (record { bytes = bytes; spoiled = marks.now }) cut }
{
    for place in width * cut..width * cut + width {
        if marks.get(place) {
            return true;
        }
    }
    false
}

/// Whether the same bytes of a cut are known, and are the same.
fn are_same_in_cut(given: &Cells, captured: &Cells, width: usize, cut: usize) -> bool
    requires some { 0 < width }
    requires in_limit { width ≤ MAX_LANES }
    requires room { width * cut ≤ MAX_BYTES }
    requires paired { length captured.now ≡ length given.now }
    ensures { IsTrue result ↔ AreSameInCut width cut given.now captured.now }
{
    for place in width * cut..given.len().min(width * cut + width) {
        if given.get(place) != captured.get(place) {
            return false;
        }
    }
    true
}

/// The bytes of a captured message, and which of them are spoiled.
#[derive(Drop)]
struct PartsOf<'a> {
    cells: &'a Cells,
    marks: &'a Marks,
}

impl<'a> Model for PartsOf<'a> {
    ghost use Rattle.check_flight.specs.Crossing.{MessageBytes};

    ghost Value = { MessageBytes };

    ghost view = { λ p. record { bytes = p.cells.now; spoiled = p.marks.now } };
}

/// Whether two messages are the same in a cut: it is spoiled in both, or in neither and its bytes are known alike.
fn is_same_cut(given: &PartsOf, captured: &PartsOf, width: usize, cut: usize) -> bool
    requires some { 0 < width }
    requires in_limit { width ≤ MAX_LANES }
    requires room { width * cut ≤ MAX_BYTES }
    requires paired { length captured.now.bytes ≡ length given.now.bytes }
    ensures { IsTrue result ↔ IsSameCut width given.now captured.now cut }
{
    if is_cut_spoiled(given.marks, width, cut) {
        return is_cut_spoiled(captured.marks, width, cut);
    }
    !is_cut_spoiled(captured.marks, width, cut)
        && are_same_in_cut(given.cells, captured.cells, width, cut)
}

/// Whether two messages are the same in each cut.
// apart, since few messages have a spoiled byte
#[inline(never)]
fn are_same_cuts(given: &PartsOf, captured: &PartsOf, width: usize) -> bool
    requires some { 0 < width }
    requires in_limit { width ≤ MAX_LANES }
    requires paired { length captured.now.bytes ≡ length given.now.bytes }
    ensures { IsTrue result ↔ ((cut : ℕ) → IsSameCut width given.now captured.now cut) }
{
    let marks = given.marks.len().max(captured.marks.len());
    let places = given.cells.len().max(marks);
    for cut in 0..places / width + 1 {
        if !is_same_cut(given, captured, width, cut) {
            return false;
        }
    }
    true
}

/// Whether the bytes of two messages are the same, in cuts of so many.
fn are_same_parts(given: &PartsOf, captured: &PartsOf, width: usize) -> bool
    requires some { 0 < width }
    requires in_limit { width ≤ MAX_LANES }
    ensures { IsTrue result ↔ AreSameParts width given.now captured.now }
{
    if !given.marks.is_any() && !captured.marks.is_any() {
        return are_same_bytes(given.cells, captured.cells);
    }
    given.cells.len() == captured.cells.len() && are_same_cuts(given, captured, width)
}

/// The bytes of a captured reply, and which of them are spoiled.
fn reply_bytes(reply: &Pattern) -> PartsOf
    ensures { result ≡ reply_bytes reply.now }
{
    PartsOf {
        cells: reply.cells(),
        marks: reply.marks(),
    }
}

/// Whether two captured replies are the same but for their sources, in cuts of so many bytes.
fn is_same_reply(given: &Pattern, captured: &Pattern, width: usize) -> bool
    requires some { 0 < width }
    requires in_limit { width ≤ MAX_LANES }
    ensures { IsTrue result ↔ IsSameReply width given.now captured.now }
{
    given.op() == captured.op()
        && given.size() == captured.size()
        && given.denied() == captured.denied()
        && are_same_parts(&reply_bytes(given), &reply_bytes(captured), width)
}

/// The bytes of a request, unknown where none is given.
fn cells_of(bytes: &Bytes) -> Cells
    ensures { result ≡ bytes.now }
{
    let mut cells = Cells::new();
    for place in 0..bytes.len() {
        cells.push(bytes.get(place));
    }
    cells
}

/// Whether a byte is given in both, or in neither.
fn is_given_alike(one: Option<u8>, other: Option<u8>) -> bool
    ensures { IsTrue result ↔ (is_some one ≡ is_some other) }
{
    match (one, other) {
        (Some(_), Some(_)) | (None, None) => true,
        (Some(_), None) | (None, Some(_)) => false,
    }
}

/// Whether the same bytes are given.
fn are_given_alike(sent: &Bytes, seen: &Bytes) -> bool
    ensures { IsTrue result ↔ (map (λ byte. is_some byte) seen.now ≡ map (λ byte. is_some byte) sent.now) }
{
    if sent.len() != seen.len() {
        return false;
    }
    for place in 0..sent.len() {
        if !is_given_alike(sent.get(place), seen.get(place)) {
            return false;
        }
    }
    true
}

/// Whether the bytes of two requests are the same, in cuts of so many.
// apart, since few requests have a spoiled byte
#[inline(never)]
fn are_sent_in_cuts(sent: &Sent, seen: &Sent, width: usize) -> bool
    requires some { 0 < width }
    requires in_limit { width ≤ MAX_LANES }
    ensures { IsTrue result ↔ ((map (λ byte. is_some byte) seen.now.ask.bytes
        ≡ map (λ byte. is_some byte) sent.now.ask.bytes)
        × AreSameParts width (request_bytes sent.now) (request_bytes seen.now)) }
{
    let given = cells_of(sent.ask().bytes());
    let captured = cells_of(seen.ask().bytes());
    let given = PartsOf {
        cells: &given,
        marks: sent.marks(),
    };
    let captured = PartsOf {
        cells: &captured,
        marks: seen.marks(),
    };
    are_given_alike(sent.ask().bytes(), seen.ask().bytes())
        && are_same_parts(&given, &captured, width)
}

/// Whether the bytes of two requests are the same, in cuts of so many.
fn are_same_bytes_sent(sent: &Sent, seen: &Sent, width: usize) -> bool
    requires some { 0 < width }
    requires in_limit { width ≤ MAX_LANES }
    ensures { IsTrue result ↔ ((map (λ byte. is_some byte) seen.now.ask.bytes
        ≡ map (λ byte. is_some byte) sent.now.ask.bytes)
        × AreSameParts width (request_bytes sent.now) (request_bytes seen.now)) }
{
    if !sent.marks().is_any() && !seen.marks().is_any() {
        return sent.ask().bytes().is_same(seen.ask().bytes());
    }
    are_sent_in_cuts(sent, seen, width)
}

/// Whether two requests are the same but for their sources, in cuts of so many bytes.
pub fn is_same_sent(sent: &Sent, seen: &Sent, width: usize) -> bool
    requires some { 0 < width }
    requires in_limit { width ≤ MAX_LANES }
    ensures { IsTrue result ↔ IsSameSent width sent.now seen.now }
{
    let (ask, other) = (sent.ask(), seen.ask());
    ask.op() == other.op()
        && ask.size() == other.size()
        && ask.address() == other.address()
        && are_same_bytes_sent(sent, seen, width)
}

impl Crossing {
    /// The request is at its master's link alone.
    pub fn waiting() -> Crossing
        ensures { result ≡ Waiting }
    {
        Crossing {
            reach: Reach::AtMaster,
            answer: Answer::blank(),
        }
    }

    /// Whether no port has taken the request.
    pub fn is_waiting(&self) -> bool
        ensures { IsTrue result ↔ (self.now ≡ Waiting) }
    {
        matches!(self.reach, Reach::AtMaster)
    }

    /// What the port has given, if it has.
    pub fn given(&self) -> Option<&Answer>
        ensures { option_map (λ answer. answer.now) result ≡ given self.now }
    {
        match self.reach {
            Reach::AtMaster | Reach::AtPort => None,
            Reach::Answered => Some(&self.answer),
        }
    }

    /// Whether a reply that was captured at the master's link is the one that the port has given, in cuts of so many bytes.
    pub fn gave(&self, width: usize, captured: &Pattern) -> bool
        requires some { 0 < width }
        requires in_limit { width ≤ MAX_LANES }
        ensures { IsTrue result
            ↔ IsSomeAnd (given self.now) (λ answer. IsSameReply width answer.reply captured.now) }
    {
        match self.given() {
            Some(answer) => is_same_reply(&answer.reply, captured, width),
            None => false,
        }
    }

    /// A request is at its master's link.
    pub fn wait(&mut self)
        ensures { self.new ≡ Waiting }
    {
        self.reach = Reach::AtMaster;
    }

    /// A port has taken the request.
    pub fn cross(&mut self)
        ensures { self.new ≡ Crossed }
    {
        self.reach = Reach::AtPort;
    }

    /// The port has given this captured reply, where one that fits this answer was due.
    pub fn give(&mut self, due: &Answer, captured: &Pattern)
        ensures { self.new ≡ Given (record due.now { reply = captured.now }) }
    {
        self.answer.reply.refill_from(captured);
        self.answer.port = due.port;
        self.answer.index = due.index;
        self.reach = Reach::Answered;
    }
}
