//! tlx as a library of C: systems, models and judges behind handles that the caller owns.
//!
//! `include/tlx.h` is the interface, call by call; `docs/guide/embedding.md` has a first use. Each export takes what a handle
//! holds, has the public calls of the crates below do the work, and puts it back. Most take one call; a judge that is
//! made, a request that is served and a beat that is judged take several: a beat that is taken is `watches`, `bus`,
//! `change`, `take` and `Pending::note`, and one that is refused is `step` and `push_unlawful` too. A call on a model or a
//! text asks for no memory, nor does one on a judge but a step and a reset (`tests/c/check` counts the requests).
//!
//! The clauses of an export are those of the calls that it makes, said of what the handle holds. `laws` has the numbers of
//! the header.
#![tactic(auto)]

ghost use Rattle.std.specs.Prelude.{◌≡◌};

use tl_types::MAX_SIZE;

mod copies;
mod draft;
mod fault;
mod handle;
mod held;
mod judge;
pub mod laws;
mod loose;
mod making;
mod model;
mod reset;
mod system;
mod text;
mod version;
mod wire;

/// `tlx_largest_size` of the header: the largest size of a message.
#[unsafe(no_mangle)]
pub extern "C" fn tlx_largest_size() -> u8
    ensures { result ≡ MAX_SIZE }
{
    MAX_SIZE
}
