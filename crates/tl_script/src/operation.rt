//! The operation that a line of a script spells.
ghost use Rattle.std.specs.Prelude.{◌≡◌, ◌≤◌, ◌<◌, ◌^◌, ◌||◌, IfSome, is_some, map, option_map};
ghost use Rattle.std.specs.List.{list_all};
ghost use Rattle.tl_types.specs.Operation.{may_leave_unset};
ghost use Rattle.tl_types.specs.Request.{IsLawfulRequest};
ghost use Rattle.tl_script.specs.Operation.{IsLawfulJob, address_of, operand_bytes, job_of, operation_in, operation_of, request_of, size_of, source_of_word};
ghost use Rattle.tl_script.specs.System.{IsFrom};
ghost use Rattle.tl_script.specs.declared.operation.Job.TheVariants.{Send};

use crate::data::read_data;
use tl_text::{read_name, read_number, split_words};
use tl_types::{Ask, AskOp, Bytes, MAX_SIZE, width};

/// One step of a master.
#[derive(Debug, Drop)]
pub enum Job {
    /// Waits until nothing of the master's is out.
    Wait,
    /// Sends a request, with the master's own source.
    Send(Ask),
}

/// What a line spells, but for the bytes of its request.
#[derive(Clone, Copy)]
pub(crate) enum Spelled {
    Wait,
    Send {
        op: AskOp,
        size: u8,
        source: u16,
        address: u64,
    },
}

/// The operation that a line spells, for a master that has this many sources; none for every other line.
pub fn read_operation(line: &[u8], sources: u16) -> Option<Job>
    ensures value { result ≡ operation_of sources line.now }
    ensures source { IfSome result (IsFrom sources) }
{
    let mut bytes = Bytes::new();
    match spell(line, sources, &mut bytes)? {
        Spelled::Wait => Some(Job::Wait),
        Spelled::Send {
            op,
            size,
            source,
            address,
        } => Some(Job::Send(Ask::from_parts(op, size, source, address, bytes))),
    }
}

/// What a line spells, for a master that has this many sources, with the bytes of its request in the place of those
/// that there were; none for every other line.
// line after line is read into the same bytes: no message is moved to where it is kept
pub(crate) fn spell(line: &[u8], sources: u16, bytes: &mut Bytes) -> Option<Spelled>
    ensures value { option_map (λ spelled. job_of spelled bytes.new) result ≡ operation_of sources line.now }
    ensures lawful { IfSome result (λ spelled. IsLawfulJob spelled bytes.new) }
    ensures source { IfSome result (λ spelled. IsFrom sources (job_of spelled bytes.new)) }
{
    spell_words(split_words(line).as_slice(), sources, bytes)
}

#[tactic(auto, unfolding(crate::specs::Operation::operation_in))]
fn spell_words(words: &[&[u8]], sources: u16, bytes: &mut Bytes) -> Option<Spelled>
    ensures value { option_map (λ spelled. job_of spelled bytes.new) result
        ≡ operation_in sources (map (λ word. word.now) words.now) }
    ensures lawful { IfSome result (λ spelled. IsLawfulJob spelled bytes.new) }
    ensures source { IfSome result (λ spelled. IsFrom sources (job_of spelled bytes.new)) }
{
    if let [word] = words {
        if *word == b"wait".as_slice() {
            return Some(Spelled::Wait);
        }
    }
    spell_request(words, sources, bytes)
}

#[tactic(auto, unfolding(crate::specs::Operation::request_of))]
fn spell_request(words: &[&[u8]], sources: u16, bytes: &mut Bytes) -> Option<Spelled>
    ensures value { option_map (λ spelled. job_of spelled bytes.new) result
        ≡ option_map Send (request_of sources (map (λ word. word.now) words.now)) }
    ensures lawful { IfSome result (λ spelled. IsLawfulJob spelled bytes.new) }
    ensures source { IfSome result (λ spelled. IsFrom sources (job_of spelled bytes.new)) }
{
    let [source, name, address, size, more @ ..] = words else {
        return None;
    };
    let Some(source) = read_source(source, sources) else {
        return None;
    };
    let Some(op) = read_name(name) else {
        return None;
    };
    let Some(address) = read_address(address) else {
        return None;
    };
    let Some(size) = read_size(size) else {
        return None;
    };
    let Some(()) = read_bytes(op, size, more, bytes) else {
        return None;
    };
    Some(Spelled::Send {
        op,
        size,
        source,
        address,
    })
}

#[tactic(auto, unfolding(crate::specs::Operation::source_of_word))]
fn read_source(word: &[u8], sources: u16) -> Option<u16>
    ensures value { result ≡ source_of_word sources word.now }
    ensures below { IfSome result (λ source. source < sources) }
{
    let source = read_number(word, 10, 3)?;
    if source < u64::from(sources) {
        Some(source as u16)
    } else {
        None
    }
}

#[tactic(auto, unfolding(crate::specs::Operation::address_of))]
fn read_address(word: &[u8]) -> Option<u64>
    ensures { result ≡ address_of word.now }
{
    match word.strip_prefix(b"0x") {
        Some(digits) => read_number(digits, 16, 16),
        None => read_number(word, 10, 20),
    }
}

#[tactic(auto, unfolding(crate::specs::Operation::size_of))]
fn read_size(word: &[u8]) -> Option<u8>
    ensures value { result ≡ size_of word.now }
    ensures limit { IfSome result (λ size. size ≤ MAX_SIZE) }
{
    let size = read_number(word, 10, 1)?;
    if size <= u64::from(MAX_SIZE) {
        Some(size as u8)
    } else {
        None
    }
}

/// Reads the bytes that the words after the size spell in the place of those that there were.
#[tactic(auto, unfolding(crate::specs::Operation::operand_bytes))]
fn read_bytes(op: AskOp, size: u8, words: &[&[u8]], bytes: &mut Bytes) -> Option<()>
    requires { size ≤ MAX_SIZE }
    ensures value { option_map (λ _. bytes.new) result ≡ operand_bytes op size (map (λ word. word.now) words.now) }
    ensures lawful { IfSome result (λ _. IsLawfulRequest op size bytes.new) }
{
    match words {
        [] if !op.carries_bytes() => {
            bytes.clear();
            Some(())
        }
        [word] if op.carries_bytes() => {
            read_data(word, width(size), bytes)?;
            if may_carry(op, bytes) { Some(()) } else { None }
        }
        _ => None,
    }
}

/// Whether the operation may carry these bytes, some of which may be unset.
fn may_carry(op: AskOp, bytes: &Bytes) -> bool
    ensures { result ≡ (may_leave_unset op || list_all is_some bytes.now) }
{
    op.may_leave_unset() || all_set(bytes)
}

fn all_set(bytes: &Bytes) -> bool
    ensures { result ≡ list_all is_some bytes.now }
{
    let mut all = true;
    for place in 0..bytes.len() {
        all &= bytes.get(place).is_some();
    }
    all
}
