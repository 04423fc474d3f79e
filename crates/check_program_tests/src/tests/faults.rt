//! The lines and statuses of the faults of tlcheck and tlvcd.
use crate::tests::holds;
use check_keys::SystemFault;
use check_program::{CaptureFault, CheckFault, KeyFault, SignalKey, WaveFault};
use check_rows::RowFault;
use check_samples::{EdgeFault, Signal, UnknownBit};
use check_vcd::Mistake;
use check_watch::Link;

/// Faults of tlcheck.
const OF_CAPTURES: [(CheckFault, &str, u8); 7] = [
    (
        CheckFault::System(SystemFault::TooLong),
        "system: longer than 1048576 bytes",
        1,
    ),
    (
        CheckFault::System(SystemFault::ImageUnreadable(3)),
        "system: port 3: image can't be read",
        1,
    ),
    (
        CheckFault::Capture(CaptureFault::TooLong(7)),
        "capture: line 7: row too long",
        1,
    ),
    (
        CheckFault::Capture(CaptureFault::Row(9, RowFault::TimeFalls)),
        "capture: line 9: time falls",
        1,
    ),
    (CheckFault::Memory, "memory refused", 4),
    (CheckFault::Read, "read failed", 5),
    (CheckFault::Write, "write failed", 5),
];

#[test]
fn faults_of_captures_have_their_lines_and_statuses(rt: HostRuntime) {
    for (fault, line, status) in &OF_CAPTURES {
        let text = format!(in rt.alloc(); "{fault}").expect(&rt, "memory");
        holds(&rt, line, text.as_str() == *line);
        holds(&rt, line, fault.status() == *status);
    }
}

/// Faults of tlvcd.
const OF_DUMPS: [(WaveFault, &str, u8); 14] = [
    (
        WaveFault::System(SystemFault::TooLong),
        "system: longer than 1048576 bytes",
        1,
    ),
    (
        WaveFault::Keys(KeyFault::WrongType(SignalKey::Wires)),
        "system: wrong type of wires",
        1,
    ),
    (
        WaveFault::Dump(12, Mistake::BadValue),
        "tlvcd: line 12: bad value",
        1,
    ),
    (
        WaveFault::Unknown(OF_ASK),
        "tlvcd: time 35, m0 A: a_opcode is unknown",
        1,
    ),
    (
        WaveFault::Unknown(OF_REPLY),
        "tlvcd: time 9, p3 D: d_size is unknown",
        1,
    ),
    (
        WaveFault::Edges(EdgeFault::NeverRises(None)),
        "tlvcd: the clock never rises",
        1,
    ),
    (
        WaveFault::Edges(EdgeFault::NeverFalls(None)),
        "tlvcd: the clock never falls",
        1,
    ),
    (
        WaveFault::Edges(EdgeFault::ResetAtEdges(None, true)),
        "tlvcd: the reset is active at every edge",
        1,
    ),
    (
        WaveFault::Edges(EdgeFault::ResetAtEdges(None, false)),
        "tlvcd: the reset is active at every edge (reset_active = \"low\"?)",
        1,
    ),
    (
        WaveFault::Edges(EdgeFault::ResetAtBeats(true)),
        "tlvcd: the reset is active at every beat",
        1,
    ),
    (
        WaveFault::Edges(EdgeFault::ResetAtBeats(false)),
        "tlvcd: the reset is active at every beat (reset_active = \"low\"?)",
        1,
    ),
    (WaveFault::Memory, "memory refused", 4),
    (WaveFault::Read, "read failed", 5),
    (WaveFault::Write, "write failed", 5),
];

const OF_ASK: UnknownBit = UnknownBit {
    time: 35,
    link: Link::Master(0),
    signal: Signal::AOpcode,
};

const OF_REPLY: UnknownBit = UnknownBit {
    time: 9,
    link: Link::Port(3),
    signal: Signal::DSize,
};

#[test]
fn faults_of_dumps_have_their_lines_and_statuses(rt: HostRuntime) {
    for (fault, line, status) in &OF_DUMPS {
        let text = format!(in rt.alloc(); "{fault}").expect(&rt, "memory");
        holds(&rt, line, text.as_str() == *line);
        holds(&rt, line, fault.status() == *status);
    }
}
