//! The text of what a run by threads leaves.
ghost use Rattle.std.specs.Prelude.{◌≡◌, ◌++◌, [], IfOk, OnOk, length, if◌then◌else◌};
ghost use Rattle.tl_audit.specs.Reader.{histories_of};
ghost use Rattle.tl_journal.specs.Trace.{entries_in};
ghost use Rattle.tl_script.specs.History.{account_text};
ghost use Rattle.tl_serial.specs.Text.{histories_text, run_text};

use crate::named::ThreadedRun;
use std::alloc::{AllocError, Global};
use tl_port::Book;
use tl_script::{push_account, push_history, push_traces};
use tl_types::Memory;

/// Appends the lines of the books' histories, port 0's first.
fn push_histories(text: &mut Vec<u8>, books: &[Book]) -> Result<(), AllocError>
    ensures { OnOk result
        (text.new.items
        ≡ text.old.items ++ histories_text (histories_of books.now)) }
{
    for (port, book) in books.iter().enumerate() {
        push_history(text, port, book.history())?;
    }
    Ok(())
}

/// Appends the lines of the books' histories, if they are asked for.
fn push_asked(text: &mut Vec<u8>, books: &[Book], history: bool) -> Result<(), AllocError>
    ensures { OnOk result (text.new.items
        ≡ text.old.items ++ (if history then histories_text (histories_of books.now) else [])) }
{
    if history {
        push_histories(text, books)
    } else {
        Ok(())
    }
}

/// The text of a run: its traces, its histories where they are asked for, and how many slots are free and how many
/// held.
pub fn threaded_text(alloc: Global, run: &ThreadedRun, history: bool) -> Result<Vec<u8>, Memory>
    ensures { IfOk result (λ text. text.items
        ≡ run_text history (entries_in run.now.traces.items) (histories_of run.now.books.items)
        ++ account_text (length run.now.account.free.items) (length run.now.account.held.items)) }
{
    let mut text = Vec::new(alloc);
    push_traces(&mut text, &run.traces)?;
    push_asked(&mut text, &run.books, history)?;
    push_account(&mut text, run.account.free.len(), run.account.held.len())?;
    Ok(text)
}
