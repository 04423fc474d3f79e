//! The lines of verdicts.
ghost use Rattle.std.specs.Prelude.{◌≡◌, ◌<◌, ◌≤◌, ◌+◌, ◌++◌, length, vec_capacity, OnErr, OnOk};
ghost use Rattle.tl_text.specs.Text.{BeginsWith};
ghost use Rattle.check_lines.specs.Reply.{pattern_text};
ghost use Rattle.check_lines.specs.Verdict.{breach_line, channel_text, empty_line, fault_text, form_text, lawful_line, link_text, number_text, unlawful_text, timed_line, unlawful_line, wrong_text};

use crate::breach::Breach;
use crate::names::Names;
use crate::reply::push_pattern;
use check_beats::FormFault;
use check_cells::Pattern;
use check_rows::Row;
use check_watch::{Beat, Fault, Link};
use std::alloc::AllocError;
use tl_text::push_field;

/// How many rows there are, and how many whole requests and replies were seen, each modulo 2^64.
#[derive(Debug, Clone, Copy, PartialEq, Eq)]
pub struct VerdictCounts {
    pub rows: u64,
    pub requests: u64,
    pub answered: u64,
}

/// The words of a fault of a beat alone.
#[tactic(auto, unfolding(crate::specs::Verdict::form_text))]
fn form_words(fault: FormFault) -> &'static str
    ensures { result.now ≡ form_text fault }
{
    match fault {
        FormFault::Changed => "field changed",
        FormFault::Opcode => "unknown opcode",
        FormFault::Param => "wrong param",
        FormFault::Size => "size out of range",
        FormFault::Unaligned => "unaligned address",
        FormFault::Mask => "wrong mask",
        FormFault::CorruptFlag => "wrong corrupt flag",
        FormFault::UnknownData => "unknown data",
    }
}

#[tactic(auto, using(tl_text::proofs::TextLemmas::begins))]
fn push_words(text: &mut Vec<u8>, words: &str) -> Result<(), AllocError>
    ensures ok { OnOk result (text.new.items ≡ text.old.items ++ words.now) }
    ensures err { OnErr result (BeginsWith text.old.items text.new.items) }
    ensures room { vec_capacity text.old ≤ vec_capacity text.new }
    ensures full { OnErr result (vec_capacity text.old
        < length text.old.items + length words.now) }
{
    text.extend_from_slice(words.as_bytes())
}

/// Appends some words and a reply, as traces spell it.
#[tactic(auto, using(tl_text::proofs::TextLemmas::begins))]
fn push_words_and_reply(text: &mut Vec<u8>, words: &str, reply: &Pattern) -> Result<(), AllocError>
    ensures ok { OnOk result (text.new.items ≡ text.old.items ++ words.now ++ pattern_text reply.now) }
    ensures err { OnErr result (BeginsWith text.old.items text.new.items) }
    ensures room { vec_capacity text.old ≤ vec_capacity text.new }
    ensures full { OnErr result (vec_capacity text.old
        < length text.old.items + length words.now + length (pattern_text reply.now)) }
{
    push_words(text, words)?;
    push_pattern(text, reply)
}

#[tactic(auto, using(tl_text::proofs::TextLemmas::begins), unfolding(crate::specs::Verdict::wrong_text))]
fn push_wrong_reply(
    text: &mut Vec<u8>,
    expected: &Pattern,
    captured: &Pattern,
) -> Result<(), AllocError>
    ensures ok { OnOk result
        (text.new.items ≡ text.old.items ++ wrong_text expected.now captured.now) }
    ensures err { OnErr result (BeginsWith text.old.items text.new.items) }
    ensures room { vec_capacity text.old ≤ vec_capacity text.new }
    ensures full { OnErr result (vec_capacity text.old
        < length text.old.items + length (wrong_text expected.now captured.now)) }
{
    push_words_and_reply(text, "wrong reply: expected ", expected)?;
    push_words_and_reply(text, ", captured ", captured)
}

#[tactic(auto, using(tl_text::proofs::TextLemmas::begins), unfolding(crate::specs::Verdict::fault_text))]
fn push_fault(text: &mut Vec<u8>, fault: &Fault) -> Result<(), AllocError>
    ensures ok { OnOk result (text.new.items ≡ text.old.items ++ fault_text fault.now) }
    ensures err { OnErr result (BeginsWith text.old.items text.new.items) }
    ensures room { vec_capacity text.old ≤ vec_capacity text.new }
    ensures full { OnErr result (vec_capacity text.old
        < length text.old.items + length (fault_text fault.now)) }
{
    match fault {
        Fault::Form(fault) => push_words(text, form_words(*fault)),
        Fault::NoSuchSource => push_words(text, "no such source"),
        Fault::SourceBusy => push_words(text, "source in flight"),
        Fault::WrongPort => push_words(text, "not this port's address"),
        Fault::NoRequest => push_words(text, "reply without request"),
        Fault::EarlyReply => push_words(text, "reply before its request ended"),
        Fault::OutOfOrder => push_words(text, "reply out of order"),
        Fault::WrongSize => push_words(text, "size of another request"),
        Fault::WrongOpcode => push_words(text, "opcode of another operation"),
        Fault::UnknownData => push_words(text, "unknown data"),
        Fault::NotSent => push_words(text, "no master sent this request"),
        Fault::NotGiven => push_words(text, "the port gave no such reply"),
        Fault::WrongReply(expected, captured) => push_wrong_reply(text, expected, captured),
    }
}

/// Appends a master or a port by its letter and its number.
#[tactic(auto, using(tl_text::proofs::TextLemmas::begins), unfolding(crate::specs::Verdict::number_text))]
fn push_number(text: &mut Vec<u8>, link: Link) -> Result<(), AllocError>
    ensures ok { OnOk result (text.new.items ≡ text.old.items ++ number_text link) }
    ensures err { OnErr result (BeginsWith text.old.items text.new.items) }
    ensures room { vec_capacity text.old ≤ vec_capacity text.new }
    ensures full { OnErr result (vec_capacity text.old
        < length text.old.items + length (number_text link)) }
{
    match link {
        Link::Master(number) => push_field(text, b"m", number as u64),
        Link::Port(number) => push_field(text, b"p", number as u64),
    }
}

/// Appends a link by its name, or by its letter and its number.
fn push_link(text: &mut Vec<u8>, names: &Names, link: Link) -> Result<(), AllocError>
    ensures ok { OnOk result (text.new.items ≡ text.old.items ++ link_text names.now link) }
    ensures err { OnErr result (BeginsWith text.old.items text.new.items) }
    ensures room { vec_capacity text.old ≤ vec_capacity text.new }
    ensures full { OnErr result (vec_capacity text.old
        < length text.old.items + length (link_text names.now link)) }
{
    match names.name(link) {
        Some(name) => push_words(text, name),
        None => push_number(text, link),
    }
}

#[tactic(auto, unfolding(crate::specs::Verdict::channel_text))]
fn channel_words(beat: &Beat) -> &'static str
    ensures { result.now ≡ channel_text beat.now }
{
    match beat {
        Beat::A(_) => " A: ",
        Beat::D(_) => " D: ",
    }
}

/// Appends the line of a lawful capture.
#[tactic(auto, using(tl_text::proofs::TextLemmas::begins), unfolding(crate::specs::Verdict::lawful_line))]
pub fn push_lawful(text: &mut Vec<u8>, counts: &VerdictCounts) -> Result<(), AllocError>
    ensures ok { OnOk result (text.new.items ≡ text.old.items ++ lawful_line counts.now) }
    ensures err { OnErr result (BeginsWith text.old.items text.new.items) }
{
    push_field(text, b"lawful: ", counts.rows)?;
    push_field(text, b" rows, ", counts.requests)?;
    push_field(text, b" requests, ", counts.answered)?;
    text.extend_from_slice(b" answered\n")
}

/// Appends the line of a capture without a request.
#[tactic(auto, using(tl_text::proofs::TextLemmas::begins), unfolding(crate::specs::Verdict::empty_line))]
pub fn push_empty(text: &mut Vec<u8>) -> Result<(), AllocError>
    ensures ok { OnOk result (text.new.items ≡ text.old.items ++ empty_line) }
    ensures err { OnErr result (BeginsWith text.old.items text.new.items) }
{
    text.extend_from_slice(b"empty: no request\n")
}

/// Appends where a capture is not lawful: a row and its channel, with its link by the name that it has.
#[tactic(auto, using(tl_text::proofs::TextLemmas::begins), unfolding(crate::specs::Verdict::unlawful_text))]
fn push_place(text: &mut Vec<u8>, names: &Names, row: &Row) -> Result<(), AllocError>
    ensures ok { OnOk result (text.new.items ≡ text.old.items ++ unlawful_text names.now row.now) }
    ensures err { OnErr result (BeginsWith text.old.items text.new.items) }
    ensures room { vec_capacity text.old ≤ vec_capacity text.new }
    ensures full { OnErr result (vec_capacity text.old
        < length text.old.items + length (unlawful_text names.now row.now)) }
{
    push_field(text, b"unlawful: line ", row.line)?;
    push_field(text, b", time ", row.time)?;
    text.extend_from_slice(b", ")?;
    push_link(text, names, row.link)?;
    push_words(text, channel_words(&row.beat))?;
    Ok(())
}

/// Appends the line of a capture that is not lawful by the fault of a beat.
#[tactic(auto, using(tl_text::proofs::TextLemmas::begins), unfolding(crate::specs::Verdict::unlawful_line))]
pub fn push_unlawful(
    text: &mut Vec<u8>,
    names: &Names,
    row: &Row,
    fault: &Fault,
) -> Result<(), AllocError>
    ensures ok { OnOk result (text.new.items ≡ text.old.items ++ unlawful_line names.now row.now fault.now) }
    ensures err { OnErr result (BeginsWith text.old.items text.new.items) }
    ensures room { vec_capacity text.old ≤ vec_capacity text.new }
    ensures full { OnErr result (vec_capacity text.old
        < length text.old.items + length (unlawful_line names.now row.now fault.now)) }
{
    push_place(text, names, row)?;
    push_fault(text, fault)?;
    text.push(b'\n')?;
    Ok(())
}

/// The same by the time that a reply took, in these words.
#[tactic(auto, using(tl_text::proofs::TextLemmas::begins), unfolding(crate::specs::Verdict::timed_line))]
fn push_timed(text: &mut Vec<u8>, names: &Names, row: &Row, words: &str) -> Result<(), AllocError>
    ensures ok { OnOk result (text.new.items ≡ text.old.items ++ timed_line names.now row.now words.now) }
    ensures err { OnErr result (BeginsWith text.old.items text.new.items) }
{
    push_place(text, names, row)?;
    push_words(text, words)?;
    text.push(b'\n')?;
    Ok(())
}

/// Appends the line of a capture whose rules a row breaks.
pub fn push_breach(
    text: &mut Vec<u8>,
    names: &Names,
    row: &Row,
    breach: &Breach,
) -> Result<(), AllocError>
    ensures ok { OnOk result (text.new.items ≡ text.old.items ++ breach_line names.now row.now breach.now) }
    ensures err { OnErr result (BeginsWith text.old.items text.new.items) }
{
    match breach {
        Breach::Beat(fault) => push_unlawful(text, names, row, fault),
        Breach::LateReply => push_timed(text, names, row, "late reply"),
        Breach::NoReply => push_timed(text, names, row, "no reply in time"),
    }
}
