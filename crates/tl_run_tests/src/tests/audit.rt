//! Audits of small traces and histories.
use super::{holds, sources_of};
use std::alloc::Global;
use std::process::Abort;
use tl_audit::{AuditFault, audit_lists};
use tl_journal::{Journal, Place, Trace};
use tl_types::{Ask, AskOp, Reply, ReplyOp};

/// One of two messages with their replies: four bytes are put at an address, and got again.
#[derive(Clone, Copy)]
enum Message {
    Put,
    Got,
}

const DATA: [u8; 4] = [0x11, 0x22, 0x33, 0x44];

fn pair(rt: &impl Abort, message: Message, source: u16) -> (Ask, Reply) {
    let data = [Some(0x11), Some(0x22), Some(0x33), Some(0x44)];
    let (op, given, reply, read): (AskOp, &[Option<u8>], ReplyOp, &[u8]) = match message {
        Message::Put => (AskOp::PutFull, &data, ReplyOp::AccessAck, &[]),
        Message::Got => (AskOp::Get, &[], ReplyOp::AccessAckData, &DATA),
    };
    let ask = Ask::new(op, 2, source, 0x1000, given).expect(rt, "a request");
    let reply = Reply::new(reply, 2, source, false, read).expect(rt, "a reply");
    (ask, reply)
}

/// The trace of a master whose source this is: messages at port 0 with their indexes.
fn trace_of(rt: &impl Abort, alloc: Global, source: u16, entries: &[(Message, usize)]) -> Trace {
    let mut trace = Trace::with_room(alloc, entries.len()).expect(rt, "memory");
    for (message, index) in entries {
        let (ask, reply) = pair(rt, *message, source);
        let place = Place {
            port: 0,
            index: *index,
        };
        trace.push_reserved(source, &ask, &reply, place);
    }
    trace
}

/// The history of a port: messages with the wide sources of those who sent them.
fn history_of(rt: &impl Abort, alloc: Global, messages: &[(Message, u16)]) -> Journal {
    let mut history = Journal::new(alloc);
    for (message, wide) in messages {
        let (ask, reply) = pair(rt, *message, *wide);
        history.push(*wide, &ask, &reply).expect(rt, "memory");
    }
    history
}

/// Masters of 16 sources each with their entries, all from one source, the histories of ports, and what the audit
/// answers.
struct Case {
    source: u16,
    /// The messages of each master, with their places in the history of port 0.
    masters: &'static [&'static [(Message, usize)]],
    /// The messages of each port, with the wide sources of those who sent them.
    ports: &'static [&'static [(Message, u16)]],
    answer: Result<(), AuditFault>,
}

use Message::{Got, Put};

const BOTH: &[(Message, u16)] = &[(Put, 0), (Got, 0)];

const THREE_PUTS: &[(Message, u16)] = &[(Put, 0), (Put, 0), (Put, 0)];

/// The entries of one master, and the history of one port.
static ONE_MASTER: [Case; 11] = [
    Case {
        source: 0,
        masters: &[&[(Put, 0), (Got, 1)]],
        ports: &[BOTH],
        answer: Ok(()),
    },
    Case {
        source: 0,
        masters: &[&[(Put, 0), (Got, 1)]],
        ports: &[&[]],
        answer: Err(AuditFault::Missing(0, 0)),
    },
    Case {
        source: 0,
        masters: &[&[(Put, 0), (Put, 0), (Got, 1)]],
        ports: &[BOTH],
        answer: Err(AuditFault::Twice(0, 0)),
    },
    Case {
        source: 0,
        masters: &[&[(Got, 1), (Put, 0)]],
        ports: &[BOTH],
        answer: Err(AuditFault::Order(0, 1)),
    },
    Case {
        source: 0,
        masters: &[&[(Put, 0)]],
        ports: &[BOTH],
        answer: Err(AuditFault::Untraced(0, 1)),
    },
    Case {
        source: 0,
        masters: &[&[]],
        ports: &[BOTH],
        answer: Err(AuditFault::Untraced(0, 0)),
    },
    // Of several faults: an entry that is nowhere, before a place named twice, before one that nobody names.
    Case {
        source: 0,
        masters: &[&[(Put, 0), (Put, 0), (Got, 0)]],
        ports: &[BOTH],
        answer: Err(AuditFault::Missing(0, 2)),
    },
    Case {
        source: 0,
        masters: &[&[(Put, 0), (Put, 0)]],
        ports: &[BOTH],
        answer: Err(AuditFault::Twice(0, 0)),
    },
    // The second entry was served before the first, and nobody has traced the third of the history: what is out of order is
    // named before what is not traced.
    Case {
        source: 0,
        masters: &[&[(Put, 1), (Put, 0)]],
        ports: &[THREE_PUTS],
        answer: Err(AuditFault::Order(0, 1)),
    },
    Case {
        source: 0,
        masters: &[&[(Put, 0), (Put, 1)]],
        ports: &[THREE_PUTS],
        answer: Err(AuditFault::Untraced(0, 2)),
    },
    // A source that no master has.
    Case {
        source: 0,
        masters: &[&[(Put, 0)]],
        ports: &[&[(Put, 1)]],
        answer: Err(AuditFault::Missing(0, 0)),
    },
];

/// A master with 16 sources for each of these.
const COUNTS: [u32; 2] = [16, 16];

/// The audit of a case.
fn audit_of(rt: &impl Abort, alloc: Global, case: &Case) -> Result<(), AuditFault> {
    let counts = COUNTS.get(..case.masters.len()).expect(rt, "few masters");
    let sources = sources_of(rt, alloc, counts);
    let mut traces = Vec::new(alloc);
    for entries in case.masters {
        let trace = trace_of(rt, alloc, case.source, entries);
        traces.push(trace).expect(rt, "memory");
    }
    let mut histories = Vec::new(alloc);
    for messages in case.ports {
        let history = history_of(rt, alloc, messages);
        histories.push(history).expect(rt, "memory");
    }
    let mut lists = Vec::new(alloc);
    for history in &histories {
        lists.push(history).expect(rt, "memory");
    }
    audit_lists(alloc, &sources, &traces, &lists)
}

/// The audit of a case answers what it should.
fn audits(rt: &impl Abort, alloc: Global, cases: &[Case]) {
    for case in cases {
        holds(rt, "an audit", audit_of(rt, alloc, case) == case.answer);
    }
}

#[test]
fn small_runs_are_audited(rt: HostRuntime) {
    audits(&rt, rt.alloc(), &ONE_MASTER);
}

/// Both masters have put once, from their sources 1: the second one's wide source is 17. Port 1 has served nothing.
static TWO_MASTERS: [Case; 2] = [
    Case {
        source: 1,
        masters: &[&[(Put, 1)], &[(Put, 0)]],
        ports: &[&[(Put, 17), (Put, 1)], &[]],
        answer: Ok(()),
    },
    Case {
        source: 1,
        masters: &[&[(Put, 1)], &[(Put, 0)]],
        ports: &[&[(Put, 1), (Put, 17)], &[]],
        answer: Err(AuditFault::Missing(0, 0)),
    },
];

#[test]
fn masters_are_told_apart_by_wide_sources(rt: HostRuntime) {
    audits(&rt, rt.alloc(), &TWO_MASTERS);
}

/// Of the first kind of fault that there is, the lowest master and port are named, and there the lowest place. Port 0
/// has served nothing.
static LOWEST: [Case; 2] = [
    Case {
        source: 1,
        masters: &[&[(Put, 7), (Put, 8)], &[(Put, 7), (Put, 8)]],
        ports: &[&[], &[], &[]],
        answer: Err(AuditFault::Missing(0, 0)),
    },
    Case {
        source: 1,
        masters: &[&[], &[]],
        ports: &[&[], &[(Put, 1), (Put, 1)], &[(Put, 1), (Put, 1)]],
        answer: Err(AuditFault::Untraced(1, 0)),
    },
];

#[test]
fn the_lowest_place_is_named(rt: HostRuntime) {
    audits(&rt, rt.alloc(), &LOWEST);
}

static LINES: [(AuditFault, &str); 5] = [
    (
        AuditFault::Missing(1, 2),
        "audit: master 1 entry 2: not in its history",
    ),
    (
        AuditFault::Twice(1, 2),
        "audit: port 1 entry 2: traced twice",
    ),
    (
        AuditFault::Order(1, 2),
        "audit: master 1 entry 2: out of order",
    ),
    (
        AuditFault::Untraced(1, 2),
        "audit: port 1 entry 2: not traced",
    ),
    (AuditFault::Memory, "memory refused"),
];

#[test]
fn faults_have_lines(rt: HostRuntime) {
    for (fault, line) in &LINES {
        let text = format!(in rt.alloc(); "{fault}").expect(&rt, "memory");
        holds(&rt, line, text.as_str() == *line);
    }
}
