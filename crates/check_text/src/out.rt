//! What is told, on its way out.
ghost use Rattle.std.specs.Prelude.{◌≡◌, OnOk, OnErr, IfErr};
ghost use Rattle.std.specs.Io.KnownBytes.{Appends};
ghost use Rattle.tl_streams.specs.Streams.{AppendsPart};
ghost use Rattle.check_text.specs.Out.{Finishes, Moves, is_cut};

use crate::fault::{CaptureFault, Verdict};
use std::io::Write;
use tl_streams::{LimitedWriter, write_all};

/// How long a text grows before it is written. So no more of it is kept than this and the lines of one time.
const LONG: usize = 4096;

/// Writes a text and clears it, if it is long.
pub fn write_long<W: Write>(
    writer: &mut LimitedWriter<'_, W>,
    text: &mut Vec<u8>,
) -> Result<(), CaptureFault>
    ensures same { writer.new.writer.ghost_name ≡ writer.old.writer.ghost_name }
    ensures moves { OnOk result (Moves (W.contents writer.old.writer.now)
        (W.contents writer.new.writer.now) text.old.items text.new.items) }
    ensures front { OnErr result (AppendsPart (W.contents writer.old.writer.now)
        (W.contents writer.new.writer.now) text.old.items) }
    ensures fault { IfErr result (λ fault. fault ≡ CaptureFault.Write) }
{
    if text.len() < LONG {
        return Ok(());
    }
    match write_all(writer, text) {
        Ok(()) => {
            text.clear();
            Ok(())
        }
        Err(_) => Err(CaptureFault::Write),
    }
}

/// Whether an answer was given in the midst of a line.
fn is_cut(answer: &Result<Verdict, CaptureFault>) -> bool
    ensures { result ≡ is_cut answer.now }
{
    matches!(answer, Err(CaptureFault::Memory | CaptureFault::Write))
}

/// Writes what is left of the text that is told before an answer. Of a line that was cut short nothing is written.
pub fn finish<W: Write>(
    writer: &mut LimitedWriter<'_, W>,
    text: &[u8],
    answer: Result<Verdict, CaptureFault>,
) -> Result<Verdict, CaptureFault>
    ensures same { writer.new.writer.ghost_name ≡ writer.old.writer.ghost_name }
    ensures finishes { Finishes (W.contents writer.old.writer.now)
        (W.contents writer.new.writer.now) text.now answer result }
{
    if is_cut(&answer) {
        return answer;
    }
    match write_all(writer, text) {
        Ok(()) => answer,
        Err(_) => Err(CaptureFault::Write),
    }
}
