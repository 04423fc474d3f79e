//! The line of a reply that was seen at a link.
ghost use Rattle.std.specs.Prelude.{◌≡◌, ◌++◌, OnErr, OnOk};
ghost use Rattle.tl_text.specs.Text.{BeginsWith};
ghost use Rattle.check_lines.specs.Trace.{AppendsLine, entry_line, exchange_text};

use crate::reply::push_pattern;
use crate::sent::push_sent;
use check_watch::{Link, SeenEntry};
use std::alloc::AllocError;
use tl_map::SourceOwners;
use tl_script::{push_origin, push_place};

/// Appends a request and the reply that was captured.
#[tactic(auto, using(tl_text::proofs::TextLemmas::begins))]
fn push_exchange(text: &mut Vec<u8>, entry: &SeenEntry) -> Result<(), AllocError>
    ensures ok { OnOk result (text.new.items ≡ text.old.items ++ exchange_text entry.now) }
    ensures err { OnErr result (BeginsWith text.old.items text.new.items) }
{
    push_sent(text, &entry.sent)?;
    text.extend_from_slice(b" -> ")?;
    push_pattern(text, &entry.reply)
}

/// Appends the line of a request of a master from this source of its own, with the reply that was captured.
#[tactic(auto, using(tl_text::proofs::TextLemmas::begins), unfolding(crate::specs::Trace::entry_line))]
fn push_entry(
    text: &mut Vec<u8>,
    master: usize,
    source: u16,
    entry: &SeenEntry,
) -> Result<(), AllocError>
    ensures ok { OnOk result (text.new.items ≡ text.old.items ++ entry_line master source entry.now) }
    ensures err { OnErr result (BeginsWith text.old.items text.new.items) }
{
    push_origin(text, master, source)?;
    push_exchange(text, entry)?;
    push_place(text, entry.port, entry.index)?;
    text.push(b'\n')?;
    Ok(())
}

/// Appends the line of an entry whose reply was seen at a link, to this source of the link, as a trace has it. At a
/// port's link that is a wide source, and the line has its master and the master's own source. If nobody has the
/// source, there is none.
pub fn push_answer(
    text: &mut Vec<u8>,
    sources: &SourceOwners,
    link: Link,
    source: u16,
    entry: &SeenEntry,
) -> Result<(), AllocError>
    ensures ok { OnOk result (AppendsLine sources.now link source entry.now text.old.items text.new.items) }
    ensures err { OnErr result (BeginsWith text.old.items text.new.items) }
{
    match link {
        Link::Master(master) => push_entry(text, master, source, entry),
        Link::Port(_) => match sources.owner(source) {
            Some((master, own)) => push_entry(text, master, own, entry),
            None => Ok(()),
        },
    }
}
