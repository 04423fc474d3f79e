//! What a beat ends.
ghost use Rattle.std.specs.Prelude.{◌≡◌, if◌then◌else◌};
ghost use Rattle.check_watch.specs.Scene.{ended_by};

use check_cells::{Pattern, Sent};

/// A request with the reply that was captured, its port, and its place in the port's list.
#[derive(Debug, Drop)]
pub struct SeenEntry {
    /// The request as it crossed.
    pub sent: Sent,
    pub reply: Pattern,
    pub port: usize,
    pub index: usize,
}

/// What a beat ends.
#[derive(Debug, Drop)]
pub enum Seen {
    /// Nothing: it is a part of a message.
    Part,
    /// A request.
    WholeAsk,
    /// A reply. It is told with its request.
    WholeReply(SeenEntry),
}

/// What a beat ends, without the reply that it ends.
#[derive(Debug, Clone, Copy, PartialEq, Eq)]
pub enum Ended {
    /// Nothing: it is a part of a message.
    Part,
    /// A request.
    Ask,
    /// A reply.
    Reply,
}

impl Ended {
    /// What a beat of a request ends, by whether it is its last.
    pub fn of_ask(is_last: bool) -> Ended
        ensures { result ≡ (if is_last then Ended.Ask else Ended.Part) }
    {
        if is_last { Ended::Ask } else { Ended::Part }
    }

    /// What a beat of a reply ends, by whether it is its last.
    pub fn of_reply(is_last: bool) -> Ended
        ensures { result ≡ (if is_last then Ended.Reply else Ended.Part) }
    {
        if is_last { Ended::Reply } else { Ended::Part }
    }
}

impl Seen {
    /// The same, without the reply.
    pub fn ended(&self) -> Ended
        ensures { result ≡ ended_by self.now }
    {
        match self {
            Seen::Part => Ended::Part,
            Seen::WholeAsk => Ended::Ask,
            Seen::WholeReply(_) => Ended::Reply,
        }
    }
}
