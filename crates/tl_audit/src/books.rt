//! The audit of traces and books.
ghost use Rattle.std.specs.Prelude.{◌≡◌, IfErr, IfOk, OnOk};
ghost use Rattle.tl_journal.specs.Trace.{entries_in};
ghost use Rattle.tl_audit.specs.Agrees.{Agrees, HasAuditFault, journals_in};
ghost use Rattle.tl_audit.specs.Reader.{histories_of};
ghost use Rattle.tl_audit.specs.declared.fault.AuditFault.TheVariants.{Memory};

use crate::fault::AuditFault;
use crate::lists::audit_lists;
use std::alloc::{AllocError, Global};
use tl_journal::{Journal, Trace};
use tl_map::SourceOwners;
use tl_port::Book;

/// The histories of books.
fn histories_in<'a>(alloc: Global, books: &'a [Book]) -> Result<Vec<&'a Journal>, AllocError>
    ensures { IfOk result (λ histories. journals_in histories.items ≡ histories_of books.now) }
{
    let mut histories = Vec::with_capacity(alloc, books.len())?;
    for book in books {
        histories.push(book.history())?;
    }
    Ok(histories)
}

/// Whether the traces of masters and the histories of books hold the same entries, each once. It answers what
/// [`audit_lists`] answers of the books' histories.
pub fn audit(
    alloc: Global,
    sources: &SourceOwners,
    traces: &[Trace],
    books: &[Book],
) -> Result<(), AuditFault>
    ensures ok { OnOk result (Agrees sources.now (entries_in traces.now) (histories_of books.now)) }
    ensures fault { IfErr result
        (HasAuditFault sources.now (entries_in traces.now) (histories_of books.now)) }

    // If they agree nothing but want of memory is answered beside Ok.
    ensures agreed { Agrees sources.now (entries_in traces.now) (histories_of books.now)
        → IfErr result (λ fault. fault ≡ Memory) }
{
    let histories = histories_in(alloc, books)?;
    audit_lists(alloc, sources, traces, &histories)
}
