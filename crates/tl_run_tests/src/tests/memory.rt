//! What is answered if memory is refused. These tests hold whether their requests for memory are granted or not, so
//! that each request may be refused in turn (`rt try --test --fail-alloc N`, `tests/hostile/refuse_memory`): the answer is
//! the right one, or that memory was refused. A text is the whole one, or there is none.
use super::holds;
use std::alloc::{AllocError, Global};
use std::process::Abort;
use tl_audit::{AuditFault, audit_lists};
use tl_journal::{Journal, Place, Trace};
use tl_map::{SourceOwners, blocks};
use tl_script::{write_account, write_history, write_trace};
use tl_slots::{Core, CoreMakeFault, Phase};
use tl_types::{Ask, Memory, Reply};

#[test]
fn a_core_is_made_or_memory_is_refused(rt: HostRuntime) {
    match Core::new(rt.alloc(), 3, 2, 2) {
        Ok(core) => {
            holds(&rt, "a slot", core.phase(2) == Some(Phase::Free));
            holds(&rt, "no slot", core.phase(3) == None);
        }
        Err(fault) => holds(&rt, "memory", fault == CoreMakeFault::Memory),
    }
}

/// The trace of one get of one byte, which port 0 served first.
fn trace_of_one(alloc: Global) -> Result<Trace, AllocError> {
    let mut trace = Trace::with_room(alloc, 1)?;
    let place = Place { port: 0, index: 0 };
    trace.push_reserved(0, &Ask::blank(), &Reply::blank(), place);
    Ok(trace)
}

/// The history of one get of one byte, which came with this wide source.
fn history_of_one(alloc: Global, wide: u16) -> Result<Journal, AllocError> {
    let mut history = Journal::new(alloc);
    history.push(wide, &Ask::blank(), &Reply::blank())?;
    Ok(history)
}

fn is_whole_or_none(rt: &impl Abort, text: Result<Vec<u8>, Memory>, whole: &str) {
    if let Ok(text) = text {
        holds(rt, whole, text.as_slice() == whole.as_bytes());
    }
}

#[test]
fn a_trace_is_whole_or_memory_is_refused(rt: HostRuntime) {
    if let Ok(trace) = trace_of_one(rt.alloc()) {
        let text = write_trace(rt.alloc(), &[trace]);
        is_whole_or_none(&rt, text, "m0 s0 get 0x0 0 -> AccessAck p0 #0\n");
    }
}

#[test]
fn a_history_is_whole_or_memory_is_refused(rt: HostRuntime) {
    if let Ok(history) = history_of_one(rt.alloc(), 17) {
        let text = write_history(rt.alloc(), 0, &history);
        is_whole_or_none(&rt, text, "p0 #0 w17 get 0x0 0 -> AccessAck\n");
    }
}

#[test]
fn an_account_is_whole_or_memory_is_refused(rt: HostRuntime) {
    let text = write_account(rt.alloc(), 4, 1);
    is_whole_or_none(&rt, text, "free 4 held 1\n");
}

/// The audit of a master with one source, which has collected the reply to the one request that its port served.
fn audit_of_one(alloc: Global) -> Result<(), AuditFault> {
    let Ok(owners) = blocks(alloc, &[1]) else {
        return Err(AuditFault::Memory);
    };
    let Ok(sources) = SourceOwners::new(alloc, &owners) else {
        return Err(AuditFault::Memory);
    };
    let Ok(history) = history_of_one(alloc, 0) else {
        return Err(AuditFault::Memory);
    };
    let Ok(trace) = trace_of_one(alloc) else {
        return Err(AuditFault::Memory);
    };
    audit_lists(alloc, &sources, &[trace], &[&history])
}

#[test]
fn an_audit_says_yes_or_memory_is_refused(rt: HostRuntime) {
    let answer = audit_of_one(rt.alloc());
    holds(
        &rt,
        "yes, or memory",
        answer == Ok(()) || answer == Err(AuditFault::Memory),
    );
}
