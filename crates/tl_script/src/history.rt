//! The lines of histories, and of the slots' account.
ghost use Rattle.std.specs.Prelude.{◌≡◌, ◌++◌, IfOk, OnErr, OnOk};
ghost use Rattle.tl_script.specs.History.{account_text, history_line, history_text};
ghost use Rattle.tl_text.specs.Text.{BeginsWith};

use crate::print::push_message;
use std::alloc::{AllocError, Global};
use tl_journal::Journal;
use tl_text::push_field;
use tl_types::{Ask, Memory, Reply};

#[tactic(auto, using(tl_text::proofs::TextLemmas::begins), unfolding(crate::specs::History::history_line))]
fn push_line(
    text: &mut Vec<u8>,
    port: usize,
    index: usize,
    ask: &Ask,
    reply: &Reply,
) -> Result<(), AllocError>
    ensures ok { OnOk result
        (text.new.items
        ≡ text.old.items ++ history_line port index (ask.now, reply.now)) }
    ensures err { OnErr result (BeginsWith text.old.items text.new.items) }
{
    push_field(text, b"p", port as u64)?;
    push_field(text, b" #", index as u64)?;
    push_field(text, b" w", u64::from(ask.source()))?;
    text.push(b' ')?;
    push_message(text, ask, reply)?;
    text.push(b'\n')?;
    Ok(())
}

/// Appends the lines of a port's history: one for each request that it served, from index 0 on. The sources are wide
/// ones.
#[tactic(auto, using(tl_text::proofs::TextLemmas::begins))]
pub fn push_history(text: &mut Vec<u8>, port: usize, history: &Journal) -> Result<(), AllocError>
    ensures ok { OnOk result
        (text.new.items ≡ text.old.items ++ history_text port history.now.items) }
    ensures err { OnErr result (BeginsWith text.old.items text.new.items) }
{
    let (mut ask, mut reply) = (Ask::blank(), Reply::blank());
    for index in 0..history.len() {
        history.read(index, &mut ask, &mut reply);
        push_line(text, port, index, &ask, &reply)?;
    }
    Ok(())
}

/// The text of a port's history.
pub fn write_history(alloc: Global, port: usize, history: &Journal) -> Result<Vec<u8>, Memory>
    ensures { IfOk result (λ text. text.items ≡ history_text port history.now.items) }
{
    let mut text = Vec::new(alloc);
    push_history(&mut text, port, history)?;
    Ok(text)
}

/// Appends the line of how many slots are free and how many are held.
#[tactic(auto, using(tl_text::proofs::TextLemmas::begins))]
pub fn push_account(text: &mut Vec<u8>, free: usize, held: usize) -> Result<(), AllocError>
    ensures ok { OnOk result
        (text.new.items ≡ text.old.items ++ account_text free held) }
    ensures err { OnErr result (BeginsWith text.old.items text.new.items) }
{
    push_field(text, b"free ", free as u64)?;
    push_field(text, b" held ", held as u64)?;
    text.push(b'\n')?;
    Ok(())
}

/// The line of how many slots are free and how many are held.
pub fn write_account(alloc: Global, free: usize, held: usize) -> Result<Vec<u8>, Memory>
    ensures { IfOk result (λ text. text.items ≡ account_text free held) }
{
    let mut text = Vec::new(alloc);
    push_account(&mut text, free, held)?;
    Ok(text)
}
