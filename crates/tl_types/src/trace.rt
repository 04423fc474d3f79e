//! Entries of traces.
use crate::reply::Reply;
use crate::request::Ask;

/// One line of a trace: a request, its reply, the port that served it, and its place in that port's history.
///
/// In a master's trace the request and the reply carry the master's own source, in a history the wide one.
#[derive(Debug, Drop)]
pub struct Entry {
    pub ask: Ask,
    pub reply: Reply,
    pub port: usize,
    pub index: usize,
}
