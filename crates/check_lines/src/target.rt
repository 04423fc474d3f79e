//! The word of an operation by its opcode.
ghost use Rattle.std.specs.Prelude.{◌≡◌};
ghost use Rattle.check_lines.specs.Target.{name_text};

use tl_text::word;
use tl_types::read_op;

/// The word of the operation that an opcode and a parameter stand for; no word if they stand for none.
pub fn name_word(opcode: u8, param: u8) -> &'static str
    ensures { result.now ≡ name_text opcode param }
{
    match read_op(opcode, param) {
        Ok(op) => word(op),
        Err(_) => "",
    }
}
