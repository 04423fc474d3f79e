//! The words of faults, and that want of memory is one fault of a script.
use super::holds;
use std::alloc::Global;
use std::fmt::Display;
use std::process::Abort;
use tl_beats::BeatFault;
use tl_ops::BankFault;
use tl_script::{MapFault, ScriptFault, SourceFault};
use tl_slots::{CoreFault, CoreMakeFault};
use tl_types::{AskFault, OpFault, ReplyFault};

/// Each fault is told in its words.
fn expect_texts<F: Display>(rt: &impl Abort, alloc: Global, rows: &[(F, &str)]) {
    for (fault, text) in rows {
        let told = format!(in alloc; "{fault}").ok().expect(rt, "memory");
        holds(rt, text, told.as_str() == *text);
    }
}

const OPS: [(OpFault, &str); 3] = [
    (OpFault::Cached, "a cached operation"),
    (OpFault::UnknownOpcode, "no such opcode"),
    (OpFault::UnknownParam, "no such parameter"),
];

const ASKS: [(AskFault, &str); 3] = [
    (AskFault::TooLarge, "the size is over the limit"),
    (
        AskFault::WrongCount,
        "the number of bytes is not the message's",
    ),
    (AskFault::HoleInFull, "a byte is left unset"),
];

const REPLIES: [(ReplyFault, &str); 3] = [
    (ReplyFault::TooLarge, "the size is over the limit"),
    (
        ReplyFault::WrongCount,
        "the number of bytes is not the message's",
    ),
    (
        ReplyFault::DirtyDenied,
        "a denied reply has a byte that is not zero",
    ),
];

const BEATS: [(BeatFault, &str); 7] = [
    (BeatFault::NoBeat, "there is no beat"),
    (
        BeatFault::Op(OpFault::Cached),
        "the first beat names no operation: a cached operation",
    ),
    (BeatFault::Size, "the size is over the limit"),
    (BeatFault::Count, "the number of beats is not the message's"),
    (
        BeatFault::Changed(4),
        "beat 4 has other fields than the first",
    ),
    (BeatFault::Mask(2), "the mask of beat 2 is not lawful"),
    (
        BeatFault::CorruptFlag(0),
        "beat 0 is marked corrupt, and carries no bytes of a denied reply",
    ),
];

const BANKS: [(BankFault, &str); 2] = [
    (BankFault::TooLong, "the bank is too long"),
    (
        BankFault::PastEnd,
        "the bank passes the end of the address space",
    ),
];

const MAPS: [(MapFault, &str); 5] = [
    (MapFault::TooMany, "too many ports"),
    (MapFault::EmptyRange(2), "port 2: empty range"),
    (MapFault::PastEnd(0), "port 0: past the end"),
    (MapFault::Overlap(0, 1), "ports 0 and 1 overlap"),
    (MapFault::Memory, "memory refused"),
];

const SOURCES: [(SourceFault, &str); 3] = [
    (SourceFault::TooMany, "too many masters or sources"),
    (SourceFault::NoSource(3), "master 3: no source"),
    (SourceFault::Memory, "memory refused"),
];

const CORES: [(CoreFault, &str); 6] = [
    (CoreFault::NoSuchSlot, "no such slot"),
    (CoreFault::NoSuchAgent, "no such master or port"),
    (CoreFault::WrongPhase, "the slot is in another phase"),
    (
        CoreFault::NotOwner,
        "the slot is another master's or port's",
    ),
    (CoreFault::StillOwns, "the master still owns a slot"),
    (CoreFault::HasLeft, "the master has left"),
];

const CORES_MADE: [(CoreMakeFault, &str); 2] = [
    (CoreMakeFault::BadCount, "a count is out of its range"),
    (CoreMakeFault::Memory, "memory refused"),
];

/// Those that no script has.
const SCRIPTS: [(ScriptFault, &str); 2] = [
    (
        ScriptFault::Map(MapFault::PastEnd(3)),
        "script: port 3: past the end",
    ),
    (ScriptFault::Memory, "memory refused"),
];

#[test]
fn faults_are_told_in_words(rt: HostRuntime) {
    let alloc = rt.alloc();
    expect_texts(&rt, alloc, &OPS);
    expect_texts(&rt, alloc, &ASKS);
    expect_texts(&rt, alloc, &REPLIES);
    expect_texts(&rt, alloc, &BEATS);
    expect_texts(&rt, alloc, &BANKS);
    expect_texts(&rt, alloc, &MAPS);
    expect_texts(&rt, alloc, &SOURCES);
    expect_texts(&rt, alloc, &CORES);
    expect_texts(&rt, alloc, &CORES_MADE);
    expect_texts(&rt, alloc, &SCRIPTS);
}

#[test]
fn want_of_memory_is_one_fault(rt: HostRuntime) {
    let of_map = ScriptFault::from(MapFault::Memory);
    holds(&rt, "of the map", of_map == ScriptFault::Memory);
    let of_sources = ScriptFault::from(SourceFault::Memory);
    holds(&rt, "of the sources", of_sources == ScriptFault::Memory);
}
