//! What the program `tlx` does: it reads a script, runs it by threads or on one thread, and writes the text of the run.
//!
//! [`run_threads`] carries the theorem of a run by threads (`IsThreadedRun`, `specs/Run.antt`): if it answers Ok, there is
//! one arena of the system such that each master's trace has, for each source, the requests of its operations in order,
//! each once, and of what it collected at a port one lawful history has just the master's own; book p is port p's and
//! lawful; and the account is that of an arena at its end, when every master has left, so that all slots are free.
//! `tl_workers` has the threads themselves, and `tl_threads` starts and joins them over one arena. Here `threads` makes
//! the arena and what a run needs.
//!
//! `serial_engine` and `threads_engine` (`engine`) carry the theorems of the program: what is written is the text of the
//! serial run (crate `tl_serial`), or of a run by threads, of the system that all of the input spells. The crate
//! `tl_streams` reads that and writes, within bounds; `tl_options` reads the command line. `run` says which of the two
//! texts is written, and `ended` with which status the program ends. Read on in `docs/design/architecture.md` and
//! `docs/design/model.md`, "Runs".
//!
//! It is a library, so that its tests stand in a crate above it (`tl_run_tests`): a crate with tests is proved twice.
#![tactic(auto)]

pub mod engine;
pub mod fault;
pub mod laws;
mod program;
mod threads;

pub use program::{ended, run};
pub use threads::run_threads;
