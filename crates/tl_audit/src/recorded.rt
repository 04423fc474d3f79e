//! Whether an entry of a trace is the one at its port and index.
ghost use Rattle.std.specs.Prelude.{◌≡◌, ◌↔◌, IsTrue, None, Some, false};
ghost use Rattle.tl_audit.specs.Agrees.{IsRecorded, journals_in, pair_at};

use tl_journal::Journal;
use tl_map::SourceOwners;
use tl_types::{Ask, Entry, Reply};

/// Whether a request is another but for the source, which is this one.
fn is_ask(wide: &Ask, source: u16, own: &Ask) -> bool
    ensures { IsTrue result ↔ (wide.now ≡ record own.now { source = source }) }
{
    wide.source() == source
        && wide.op() == own.op()
        && wide.size() == own.size()
        && wide.address() == own.address()
        && wide.bytes().is_same(own.bytes())
}

/// Whether a reply is another but for the source, which is this one.
fn is_reply(wide: &Reply, source: u16, own: &Reply) -> bool
    ensures { IsTrue result ↔ (wide.now ≡ record own.now { source = source }) }
{
    wide.source() == source
        && wide.op() == own.op()
        && wide.size() == own.size()
        && wide.denied() == own.denied()
        && wide.bytes() == own.bytes()
}

/// Whether a request and its reply are an entry's with this source in place of the entry's own.
fn is_pair(pair: &(Ask, Reply), wide: u16, entry: &Entry) -> bool
    ensures { IsTrue result
        ↔ (pair.now ≡ (record entry.now.ask { source = wide }, record entry.now.reply { source = wide })) }
{
    is_ask(&pair.0, wide, &entry.ask) && is_reply(&pair.1, wide, &entry.reply)
}

/// Puts the request and the reply at a place of a port's history in the place of others, if there is such a place.
fn read_pair(histories: &[&Journal], port: usize, index: usize, pair: &mut (Ask, Reply)) -> bool
    ensures found { IsTrue result → pair_at (journals_in histories.now) port index ≡ Some pair.new }
    ensures none { result ≡ false → pair_at (journals_in histories.now) port index ≡ None }
{
    let Some(history) = histories.get(port) else {
        return false;
    };
    if index >= history.len() {
        return false;
    }
    history.read(index, &mut pair.0, &mut pair.1);
    true
}

/// Whether an entry of a master, with its source widened, is the pair at its port and index, which is read into the
/// place of another.
pub(crate) fn is_recorded(
    sources: &SourceOwners,
    histories: &[&Journal],
    master: usize,
    entry: &Entry,
    pair: &mut (Ask, Reply),
) -> bool
    ensures { IsTrue result ↔ IsRecorded sources.now (journals_in histories.now) master entry.now }
{
    let Some(wide) = sources.widen(master, entry.ask.source()) else {
        return false;
    };
    if !read_pair(histories, entry.port, entry.index, pair) {
        return false;
    }
    is_pair(pair, wide, entry)
}
