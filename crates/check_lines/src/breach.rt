//! How a row breaks the rules.
use check_watch::Fault;

/// How a row of a capture breaks the rules: by its beat, or by the time that a reply took, where there is a limit.
#[derive(Debug, Drop)]
pub enum Breach {
    /// The beat has this fault.
    Beat(Fault),
    /// The beat begins a reply later than the limit allows.
    LateReply,
    /// The beat begins a request that has waited for its reply longer than the limit allows.
    NoReply,
}
