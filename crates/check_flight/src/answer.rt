//! Replies, with the port that gives them.
ghost use Rattle.std.specs.Prelude.{◌≡◌, [], Some, false};
ghost use Rattle.tl_types.specs.declared.operation.ReplyOp.TheVariants.{AccessAck};

use check_cells::Pattern;

/// A reply, the port that gives it, and the place of its request in the port's list. The reply is what a captured one has
/// to fit, or the captured one.
#[derive(Debug, Drop)]
pub struct Answer {
    pub reply: Pattern,
    pub port: usize,
    pub index: usize,
}

impl Answer {
    /// An acknowledgement to source 0 from port 0: room for answers that are written one after the other.
    pub fn blank() -> Answer
        ensures { result ≡ record {
          reply = record { op = AccessAck; size = 0; source = 0; denied = Some false; bytes = []; spoiled = [] };
          port = 0;
          index = 0;
        } }
    {
        Answer {
            reply: Pattern::blank(),
            port: 0,
            index: 0,
        }
    }

    /// The same answer.
    pub fn copy(&self) -> Answer
        ensures { result ≡ self.now }
    {
        Answer {
            reply: self.reply.copy(),
            port: self.port,
            index: self.index,
        }
    }
}
