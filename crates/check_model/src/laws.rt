//! Laws: what calls in a row come to, and what is seen of a byte that was put.
ghost use Rattle.std.specs.Prelude.{◌≡◌, ◌<◌, ℕ, List, Option, Some, false, length, slice_get, take};
ghost use Rattle.check_memory.specs.Partial.{Partial, byte_seen, is_volatile, place_of_byte};
ghost use Rattle.check_model.specs.Bytes.{with_byte};
ghost use Rattle.check_model.specs.Calls.{AreServed, Call, IsAnswerAfter, after_all, asks_at};
ghost use Rattle.check_model.specs.Model.{ModelState};
ghost use Rattle.check_model.specs.declared.port.ModelPort.{ModelPort};

/// Each port is the one before the calls, after it has served those requests in turn that came to it.
pub fn calls_in_a_row()
    ensures { (calls : List Call) (old new : ModelState) → AreServed old calls new → (number : ℕ) (port : ModelPort)
        → slice_get old.ports number ≡ Some port
        → slice_get new.ports number ≡ Some (after_all port (asks_at number calls)) }
{}

/// Each call is answered what is expected of its port's slave after the requests that came to it before.
pub fn answers_in_a_row()
    ensures { (calls : List Call) (old new : ModelState) → AreServed old calls new → (k : ℕ) (call : Call)
        → slice_get calls k ≡ Some call → (port : ModelPort) → slice_get old.ports call.answer.port ≡ Some port
        → IsAnswerAfter port (asks_at call.answer.port (take k calls)) call }
{}

/// A byte that is put at an address of a memory is what is seen there from then on, unless it changes by itself.
pub fn poked_byte_is_seen()
    ensures { (memory : Partial) (address : ℕ) (byte : Option ℕ) → place_of_byte memory address < length memory.cells
        → is_volatile memory (place_of_byte memory address) ≡ false
        → byte_seen (with_byte memory address byte) address ≡ byte }
{}
