//! The lines and statuses of the faults of a run (`tl_program`). `tests/hostile/disturb_streams` runs the program with
//! streams that are slow or fail.
use super::holds;
use tl_audit::AuditFault;
use tl_program::fault::RunFault;

/// The faults of a run but those of its script.
static LINES: [(RunFault, &str, u8); 9] = [
    (RunFault::Memory, "memory refused", 4),
    (RunFault::Read, "read failed", 5),
    (RunFault::Write, "write failed", 5),
    (
        RunFault::Audit(AuditFault::Missing(1, 2)),
        "audit: master 1 entry 2: not in its history",
        3,
    ),
    (
        RunFault::Audit(AuditFault::Untraced(1, 2)),
        "audit: port 1 entry 2: not traced",
        3,
    ),
    (RunFault::NoThread, "thread refused", 4),
    (RunFault::GateHeld(2), "gate of port 2 held", 5),
    (RunFault::StrayBook(3), "port 3: stray book", 5),
    (RunFault::NotLeft(1), "master 1 has not left", 5),
];

#[test]
fn faults_have_their_lines_and_statuses(rt: HostRuntime) {
    for (fault, line, status) in &LINES {
        let text = format!(in rt.alloc(); "{fault}").expect(&rt, "memory");
        holds(&rt, line, text.as_str() == *line);
        holds(&rt, line, fault.status() == *status);
    }
}
