//! Requests as they crossed, of which beats may have been marked corrupt.
ghost use Rattle.std.specs.Prelude.{◌≡◌, IfOk, OnErr, true};
ghost use Rattle.check_cells.specs.Pattern.{unsure};
ghost use Rattle.check_memory.specs.Slave.{expected_of, slave_takes_bytes};
ghost use Rattle.check_contests.specs.Cut.{slave_cut};
ghost use Rattle.check_contests.specs.Sent.{expected_of_sent, slave_after_sent};

use crate::cut::cut_short;
use check_cells::{AskSoFar, Pattern, Sent};
use check_memory::Slave;
use std::alloc::{AllocError, Global};
use tl_types::Ask;

/// Puts what the answer to a request has to fit in the place of another pattern: to a corrupt request it may be denied.
pub fn answer_sent(slave: &Slave, sent: &Sent, answer: &mut Pattern)
    ensures { answer.new ≡ expected_of_sent slave.now sent.now }
{
    slave.answer(sent.ask(), answer);
    if sent.is_corrupt() {
        answer.doubt();
    }
}

/// Serves a corrupt request: the bytes that it may write are unknown afterwards. If there is no memory for a page, nothing is
/// changed.
// apart, since few requests are corrupt: it makes room for an answer of its own
#[inline(never)]
fn serve_corrupt(
    alloc: Global,
    slave: &mut Slave,
    ask: &Ask,
    answer: &mut Pattern,
) -> Result<(), AllocError>
    ensures after { IfOk result (λ _. slave.new ≡ slave_cut slave.old ask.now) }
    ensures expected { IfOk result (λ _. answer.new ≡ unsure (expected_of slave.old ask.now)) }
    ensures takes { OnErr result (slave_takes_bytes slave.old ask.now ≡ true) }
    ensures unchanged { OnErr result (slave.new ≡ slave.old) }
    ensures answer_unchanged { OnErr result (answer.new ≡ answer.old) }
{
    let mut expected = Pattern::blank();
    slave.answer(ask, &mut expected);
    expected.doubt();
    cut_short(alloc, slave, &AskSoFar::whole(ask))?;
    answer.refill_from(&expected);
    Ok(())
}

/// Serves a request: the slave is the one after it, and what its answer has to fit stands in the place of another. If there
/// is no memory for a page of the bytes that it takes, nothing is changed.
pub fn serve_sent(
    alloc: Global,
    slave: &mut Slave,
    sent: &Sent,
    answer: &mut Pattern,
) -> Result<(), AllocError>
    ensures after { IfOk result (λ _. slave.new ≡ slave_after_sent slave.old sent.now) }
    ensures expected { IfOk result (λ _. answer.new ≡ expected_of_sent slave.old sent.now) }
    ensures takes { OnErr result (slave_takes_bytes slave.old sent.now.ask ≡ true) }
    ensures unchanged { OnErr result (slave.new ≡ slave.old) }
    ensures answer_unchanged { OnErr result (answer.new ≡ answer.old) }
{
    if sent.is_corrupt() {
        serve_corrupt(alloc, slave, sent.ask(), answer)
    } else {
        slave.serve_into(alloc, sent.ask(), answer)
    }
}
