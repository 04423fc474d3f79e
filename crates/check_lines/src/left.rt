//! The line of a capture at whose end requests are left.
ghost use Rattle.std.specs.Prelude.{◌≡◌, ◌<◌, ◌≤◌, ◌+◌, ◌++◌, length, vec_capacity, OnErr, OnOk};
ghost use Rattle.tl_text.specs.Text.{BeginsWith};
ghost use Rattle.check_lines.specs.Verdict.{asked_text, began_text, incomplete_line, owner_text};

use crate::target::name_word;
use check_rows::{Began, Left};
use check_watch::{Beat, Origin};
use std::alloc::AllocError;
use tl_script::push_target;
use tl_text::push_field;

/// Appends what the first beat of a request asks for: its operation, its address and its size. A beat of a reply asks
/// for nothing.
#[tactic(auto, using(tl_text::proofs::TextLemmas::begins))]
fn push_asked(text: &mut Vec<u8>, beat: &Beat) -> Result<(), AllocError>
    ensures ok { OnOk result (text.new.items ≡ text.old.items ++ asked_text beat.now) }
    ensures err { OnErr result (BeginsWith text.old.items text.new.items) }
    ensures room { vec_capacity text.old ≤ vec_capacity text.new }
    ensures full { OnErr result (vec_capacity text.old
        < length text.old.items + length (asked_text beat.now)) }
{
    match beat {
        Beat::A(ask) => {
            text.push(b' ')?;
            push_target(
                text,
                name_word(ask.opcode, ask.param),
                ask.address,
                ask.size,
            )
        }
        Beat::D(_) => Ok(()),
    }
}

/// Appends where and when a request began.
#[tactic(auto, using(tl_text::proofs::TextLemmas::begins))]
fn push_began(text: &mut Vec<u8>, began: &Began) -> Result<(), AllocError>
    ensures ok { OnOk result (text.new.items ≡ text.old.items ++ began_text began.now) }
    ensures err { OnErr result (BeginsWith text.old.items text.new.items) }
    ensures room { vec_capacity text.old ≤ vec_capacity text.new }
    ensures full { OnErr result (vec_capacity text.old
        < length text.old.items + length (began_text began.now)) }
{
    push_field(
        text,
        b" requests without reply, the first: line ",
        began.line,
    )?;
    push_field(text, b", time ", began.time)
}

/// Appends a master and its own source.
#[tactic(auto, using(tl_text::proofs::TextLemmas::begins))]
fn push_owner(text: &mut Vec<u8>, origin: &Origin) -> Result<(), AllocError>
    ensures ok { OnOk result (text.new.items ≡ text.old.items ++ owner_text origin.now) }
    ensures err { OnErr result (BeginsWith text.old.items text.new.items) }
    ensures room { vec_capacity text.old ≤ vec_capacity text.new }
    ensures full { OnErr result (vec_capacity text.old
        < length text.old.items + length (owner_text origin.now)) }
{
    push_field(text, b", m", origin.master as u64)?;
    push_field(text, b" s", u64::from(origin.source))
}

/// Appends the line of a lawful capture at whose end requests are left.
#[tactic(auto, using(tl_text::proofs::TextLemmas::begins), unfolding(crate::specs::Verdict::incomplete_line))]
pub fn push_incomplete(text: &mut Vec<u8>, left: &Left) -> Result<(), AllocError>
    ensures ok { OnOk result (text.new.items ≡ text.old.items ++ incomplete_line left.now) }
    ensures err { OnErr result (BeginsWith text.old.items text.new.items) }
    ensures room { vec_capacity text.old ≤ vec_capacity text.new }
    ensures full { OnErr result (vec_capacity text.old
        < length text.old.items + length (incomplete_line left.now)) }
{
    push_field(text, b"incomplete: ", left.requests as u64)?;
    push_began(text, &left.first.began)?;
    push_owner(text, &left.first.origin)?;
    push_asked(text, &left.first.began.beat)?;
    text.push(b'\n')?;
    Ok(())
}
