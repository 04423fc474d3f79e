//! The words of a bin.
ghost use Rattle.std.specs.Prelude.{◌≡◌, ◌++◌, codes, OnErr, OnOk, if◌then◌else◌};
ghost use Rattle.std.specs.Fmt.{decimal};
ghost use Rattle.tl_text.specs.Text.{BeginsWith};
ghost use Rattle.check_beats.specs.Message.{arith_of, logic_of, op_of};
ghost use Rattle.check_bins.specs.Text.{access_text, bin_line, bin_text, cause_text, channel_text, edge_text, master_text, operation_text, pair_text, port_text, shape_text};

use crate::bin::{Access, Bin, Cause, CountedChannel, Operation, Pair, Shape};
use std::alloc::AllocError;
use tl_text::{push_field, word};
use tl_types::{Arith, AskOp, Hint, Logic};

fn arith_of(param: u8) -> Arith
    ensures { result ≡ arith_of param }
{
    match param {
        0 => Arith::Min,
        1 => Arith::Max,
        2 => Arith::MinU,
        3 => Arith::MaxU,
        _ => Arith::Add,
    }
}

fn logic_of(param: u8) -> Logic
    ensures { result ≡ logic_of param }
{
    match param {
        0 => Logic::Xor,
        1 => Logic::Or,
        2 => Logic::And,
        _ => Logic::Swap,
    }
}

/// The operation that an opcode and a parameter stand for, if they stand for one.
fn op_of(opcode: u8, param: u8) -> AskOp
    ensures { result ≡ op_of opcode param }
{
    match opcode {
        0 => AskOp::PutFull,
        1 => AskOp::PutPartial,
        2 => AskOp::Arithmetic(arith_of(param)),
        3 => AskOp::Logical(logic_of(param)),
        4 => AskOp::Get,
        _ if param == 0 => AskOp::Intent(Hint::PrefetchRead),
        _ => AskOp::Intent(Hint::PrefetchWrite),
    }
}

fn shape_words(shape: Shape) -> &'static str
    ensures { result.now ≡ shape_text shape }
{
    match shape {
        Shape::Empty => " none",
        Shape::Full => " all",
        Shape::One => " one",
        Shape::Hole => " hole",
        Shape::Low => " low",
        Shape::High => " high",
        Shape::Even => " even",
        Shape::Odd => " odd",
        Shape::Other => " other",
    }
}

fn channel_words(channel: CountedChannel) -> &'static [u8]
    ensures { result.now ≡ channel_text channel }
{
    match channel {
        CountedChannel::A => b" A ",
        CountedChannel::D => b" D ",
    }
}

#[tactic(auto, using(tl_text::proofs::TextLemmas::begins))]
fn push_words(text: &mut Vec<u8>, words: &str) -> Result<(), AllocError>
    ensures ok { OnOk result (text.new.items ≡ text.old.items ++ words.now) }
    ensures err { OnErr result (BeginsWith text.old.items text.new.items) }
{
    text.extend_from_slice(words.as_bytes())
}

#[tactic(auto, using(tl_text::proofs::TextLemmas::begins))]
fn push_master(text: &mut Vec<u8>, master: usize) -> Result<(), AllocError>
    ensures ok { OnOk result (text.new.items ≡ text.old.items ++ master_text master) }
    ensures err { OnErr result (BeginsWith text.old.items text.new.items) }
{
    push_field(text, b" m", master as u64)
}

#[tactic(auto, using(tl_text::proofs::TextLemmas::begins))]
fn push_port(text: &mut Vec<u8>, ports: usize, port: usize) -> Result<(), AllocError>
    ensures ok { OnOk result (text.new.items ≡ text.old.items ++ port_text ports port) }
    ensures err { OnErr result (BeginsWith text.old.items text.new.items) }
{
    if port < ports {
        push_field(text, b" p", port as u64)
    } else {
        push_words(text, " error")
    }
}

/// Some words, a master and a port.
#[tactic(auto, using(tl_text::proofs::TextLemmas::begins))]
fn push_pair(text: &mut Vec<u8>, words: &str, ports: usize, pair: Pair) -> Result<(), AllocError>
    ensures ok { OnOk result (text.new.items ≡ text.old.items ++ words.now ++ pair_text ports pair) }
    ensures err { OnErr result (BeginsWith text.old.items text.new.items) }
{
    push_words(text, words)?;
    push_master(text, pair.master)?;
    push_port(text, ports, pair.port)
}

#[tactic(auto, using(tl_text::proofs::TextLemmas::begins))]
fn push_operation(text: &mut Vec<u8>, operation: Operation) -> Result<(), AllocError>
    ensures ok { OnOk result (text.new.items ≡ text.old.items ++ operation_text operation) }
    ensures err { OnErr result (BeginsWith text.old.items text.new.items) }
{
    push_words(text, " ")?;
    push_words(text, word(op_of(operation.opcode, operation.param)))?;
    push_field(text, b" ", u64::from(operation.size))
}

/// Some words, a master, a port, an operation and some words more.
#[tactic(auto, using(tl_text::proofs::TextLemmas::begins))]
fn push_message(
    text: &mut Vec<u8>,
    words: &str,
    ports: usize,
    pair: Pair,
    operation: Operation,
    end: &str,
) -> Result<(), AllocError>
    ensures ok { OnOk result (text.new.items
        ≡ text.old.items ++ words.now ++ pair_text ports pair ++ operation_text operation ++ end.now) }
    ensures err { OnErr result (BeginsWith text.old.items text.new.items) }
{
    push_pair(text, words, ports, pair)?;
    push_operation(text, operation)?;
    push_words(text, end)
}

/// Some words, a master, a port, a channel and a number.
#[tactic(auto, using(tl_text::proofs::TextLemmas::begins))]
fn push_of_channel(
    text: &mut Vec<u8>,
    words: &str,
    ports: usize,
    pair: Pair,
    channel: CountedChannel,
    number: u64,
) -> Result<(), AllocError>
    ensures ok { OnOk result (text.new.items
        ≡ text.old.items ++ words.now ++ pair_text ports pair ++ channel_text channel ++ decimal number) }
    ensures err { OnErr result (BeginsWith text.old.items text.new.items) }
{
    push_pair(text, words, ports, pair)?;
    push_field(text, channel_words(channel), number)
}

#[tactic(auto, using(tl_text::proofs::TextLemmas::begins))]
fn push_mask(
    text: &mut Vec<u8>,
    ports: usize,
    pair: Pair,
    size: u8,
    shape: Shape,
) -> Result<(), AllocError>
    ensures ok { OnOk result (text.new.items ≡ text.old.items
        ++ codes "mask" ++ pair_text ports pair ++ codes " " ++ decimal size ++ shape_text shape) }
    ensures err { OnErr result (BeginsWith text.old.items text.new.items) }
{
    push_pair(text, "mask", ports, pair)?;
    push_field(text, b" ", u64::from(size))?;
    push_words(text, shape_words(shape))
}

/// Some words, a master, a port and some words more.
#[tactic(auto, using(tl_text::proofs::TextLemmas::begins))]
fn push_pair_words(
    text: &mut Vec<u8>,
    words: &str,
    ports: usize,
    pair: Pair,
    end: &str,
) -> Result<(), AllocError>
    ensures ok { OnOk result (text.new.items
        ≡ text.old.items ++ words.now ++ pair_text ports pair ++ end.now) }
    ensures err { OnErr result (BeginsWith text.old.items text.new.items) }
{
    push_pair(text, words, ports, pair)?;
    push_words(text, end)
}

/// Some words, a master and a number.
#[tactic(auto, using(tl_text::proofs::TextLemmas::begins))]
fn push_of_master(
    text: &mut Vec<u8>,
    words: &str,
    master: usize,
    number: u64,
) -> Result<(), AllocError>
    ensures ok { OnOk result (text.new.items
        ≡ text.old.items ++ words.now ++ master_text master ++ codes " " ++ decimal number) }
    ensures err { OnErr result (BeginsWith text.old.items text.new.items) }
{
    push_words(text, words)?;
    push_master(text, master)?;
    push_field(text, b" ", number)
}

/// Some words, a port and a number.
#[tactic(auto, using(tl_text::proofs::TextLemmas::begins))]
fn push_of_port(
    text: &mut Vec<u8>,
    words: &str,
    ports: usize,
    port: usize,
    number: u64,
) -> Result<(), AllocError>
    ensures ok { OnOk result (text.new.items
        ≡ text.old.items ++ words.now ++ port_text ports port ++ codes " " ++ decimal number) }
    ensures err { OnErr result (BeginsWith text.old.items text.new.items) }
{
    push_words(text, words)?;
    push_port(text, ports, port)?;
    push_field(text, b" ", number)
}

#[tactic(auto, using(tl_text::proofs::TextLemmas::begins))]
fn push_edge(
    text: &mut Vec<u8>,
    ports: usize,
    port: usize,
    number: usize,
    is_last: bool,
) -> Result<(), AllocError>
    ensures ok { OnOk result (text.new.items ≡ text.old.items
        ++ codes "edge" ++ port_text ports port ++ codes " " ++ decimal number ++ edge_text is_last) }
    ensures err { OnErr result (BeginsWith text.old.items text.new.items) }
{
    push_of_port(text, "edge", ports, port, number as u64)?;
    push_words(text, edge_words(is_last))
}

#[tactic(auto, using(tl_text::proofs::TextLemmas::begins))]
fn push_lane(text: &mut Vec<u8>, master: usize, size: u8, offset: usize) -> Result<(), AllocError>
    ensures ok { OnOk result (text.new.items ≡ text.old.items
        ++ codes "lane" ++ master_text master ++ codes " " ++ decimal size ++ codes " " ++ decimal offset) }
    ensures err { OnErr result (BeginsWith text.old.items text.new.items) }
{
    push_of_master(text, "lane", master, u64::from(size))?;
    push_field(text, b" ", offset as u64)
}

#[tactic(auto, using(tl_text::proofs::TextLemmas::begins))]
fn push_contested(text: &mut Vec<u8>, ports: usize, port: usize) -> Result<(), AllocError>
    ensures ok { OnOk result (text.new.items ≡ text.old.items ++ codes "contested" ++ port_text ports port) }
    ensures err { OnErr result (BeginsWith text.old.items text.new.items) }
{
    push_words(text, "contested")?;
    push_port(text, ports, port)
}

/// Some words, a port and some words more.
#[tactic(auto, using(tl_text::proofs::TextLemmas::begins))]
fn push_port_words(
    text: &mut Vec<u8>,
    words: &str,
    ports: usize,
    port: usize,
    end: &str,
) -> Result<(), AllocError>
    ensures ok { OnOk result (text.new.items ≡ text.old.items ++ words.now ++ port_text ports port ++ end.now) }
    ensures err { OnErr result (BeginsWith text.old.items text.new.items) }
{
    push_words(text, words)?;
    push_port(text, ports, port)?;
    push_words(text, end)
}

fn aligned_words(is_unaligned: bool) -> &'static str
    ensures { result.now ≡ (if is_unaligned then codes " unaligned" else codes " aligned") }
{
    if is_unaligned {
        " unaligned"
    } else {
        " aligned"
    }
}

fn denied_words(is_denied: bool) -> &'static str
    ensures { result.now ≡ (if is_denied then codes " denied" else codes " given") }
{
    if is_denied { " denied" } else { " given" }
}

fn elsewhere_words(elsewhere: bool) -> &'static str
    ensures { result.now ≡ (if elsewhere then codes " other" else codes " same") }
{
    if elsewhere { " other" } else { " same" }
}

fn corrupt_words(is_reply: bool) -> &'static str
    ensures { result.now ≡ (if is_reply then codes " answered" else codes " asked") }
{
    if is_reply { " answered" } else { " asked" }
}

fn edge_words(is_last: bool) -> &'static str
    ensures { result.now ≡ edge_text is_last }
{
    if is_last { " last" } else { " first" }
}

fn cause_words(cause: Cause) -> &'static str
    ensures { result.now ≡ cause_text cause }
{
    match cause {
        Cause::Nowhere => " nowhere",
        Cause::NoPath => " no_path",
        Cause::Unaligned => " unaligned",
        Cause::Beyond => " beyond",
        Cause::Unserved => " unserved",
    }
}

fn access_words(access: Access) -> &'static str
    ensures { result.now ≡ access_text access }
{
    match access {
        Access::Read => " read",
        Access::Write => " write",
        Access::Atomic => " atomic",
        Access::Hint => " hint",
    }
}

#[tactic(auto, using(tl_text::proofs::TextLemmas::begins))]
fn push_after(
    text: &mut Vec<u8>,
    ports: usize,
    port: usize,
    before: Access,
    here: Access,
) -> Result<(), AllocError>
    ensures ok { OnOk result (text.new.items ≡ text.old.items
        ++ codes "after" ++ port_text ports port ++ access_text before ++ access_text here) }
    ensures err { OnErr result (BeginsWith text.old.items text.new.items) }
{
    push_port_words(text, "after", ports, port, access_words(before))?;
    push_words(text, access_words(here))
}

/// Appends the words of a bin of a system of so many ports.
#[tactic(auto, using(tl_text::proofs::TextLemmas::begins), unfolding(crate::specs::Text::bin_text))]
pub fn push_bin(text: &mut Vec<u8>, ports: usize, bin: &Bin) -> Result<(), AllocError>
    ensures ok { OnOk result (text.new.items ≡ text.old.items ++ bin_text ports bin.now) }
    ensures err { OnErr result (BeginsWith text.old.items text.new.items) }
{
    match *bin {
        Bin::Asked(pair, operation, is_unaligned) => {
            let end = aligned_words(is_unaligned);
            push_message(text, "asked", ports, pair, operation, end)
        }
        Bin::Answered(pair, operation, is_denied) => {
            let end = denied_words(is_denied);
            push_message(text, "answered", ports, pair, operation, end)
        }
        Bin::Beats(pair, channel, beats) => {
            push_of_channel(text, "beats", ports, pair, channel, beats as u64)
        }
        Bin::Mask(pair, size, shape) => push_mask(text, ports, pair, size, shape),
        Bin::InFlight(master, requests) => {
            push_of_master(text, "in_flight", master, requests as u64)
        }
        Bin::AtPort(port, requests) => {
            push_of_port(text, "at_port", ports, port, requests as u64)
        }
        Bin::Overtook(pair, elsewhere) => {
            let end = elsewhere_words(elsewhere);
            push_pair_words(text, "overtook", ports, pair, end)
        }
        Bin::Again(master, least) => push_of_master(text, "again", master, least),
        Bin::Contested(port) => push_contested(text, ports, port),
        Bin::Source(master, source) => push_of_master(text, "source", master, source as u64),
        Bin::Range(port, number) => push_of_port(text, "range", ports, port, number as u64),
        Bin::Edge(port, number, is_last) => push_edge(text, ports, port, number, is_last),
        Bin::Latency(port, least) => push_of_port(text, "latency", ports, port, least),
        Bin::Gap(pair, channel, least) => {
            push_of_channel(text, "gap", ports, pair, channel, least)
        }
        Bin::Refused(port, cause) => {
            push_port_words(text, "refused", ports, port, cause_words(cause))
        }
        Bin::Lane(master, size, offset) => push_lane(text, master, size, offset),
        Bin::After(port, before, here) => push_after(text, ports, port, before, here),
        Bin::Corrupt(pair, operation, is_reply) => {
            let end = corrupt_words(is_reply);
            push_message(text, "corrupt", ports, pair, operation, end)
        }
    }
}

/// Appends the line of a bin that occurred so often.
#[tactic(auto, using(tl_text::proofs::TextLemmas::begins))]
pub fn push_line(text: &mut Vec<u8>, ports: usize, bin: &Bin, count: u64) -> Result<(), AllocError>
    ensures ok { OnOk result (text.new.items ≡ text.old.items ++ bin_line ports (bin.now, count)) }
    ensures err { OnErr result (BeginsWith text.old.items text.new.items) }
{
    push_bin(text, ports, bin)?;
    push_field(text, b" ", count)?;
    text.push(b'\n')?;
    Ok(())
}
