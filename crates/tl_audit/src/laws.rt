//! A law of the audit, on a function that does nothing but carry it.
ghost use Rattle.tl_audit.specs.Reader.{AgreeingIsOneThreads};

/// Traces that agree with the histories of lawful books are those of one thread, which serves each port's history from
/// reset: each entry carries its reply, each entry of a history is traced once, and each source's entries at a port
/// were served in the order of the trace.
pub fn agreeing_is_one_threads()
    ensures { AgreeingIsOneThreads }
{}
