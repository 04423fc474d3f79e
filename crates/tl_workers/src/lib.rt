//! The threads of a run: those of masters and of ports, how they wake each other, and how they are started and joined.
//!
//! A master's thread sends its operations in order and collects each reply: what it gives is their trace (`IsTrace`,
//! `specs/Trace.antt`). A port's thread serves what is posted. [`journals_of`], [`books_of`] and [`threads_of`] make
//! what a run needs before its threads start: how many requests go to each port, the books, and what each thread is
//! handed (`specs/Start.antt`). [`run_all`] starts the threads and joins them. No memory is taken while they run. No
//! clause says that they run in parallel: the tests of `tl_run_tests` do, through a [`Gate`].
//!
//! `master_thread` is what a master's thread does, `worker_thread` what one of a port's does, `context` what all of
//! them share, `bell` how they wake each other, `start` and `run` how they are started, joined and stopped.
//!
//! Read on in `docs/design/model.md`, "Runs by threads".
#![tactic(auto)]

mod bell;
mod context;
mod fault;
mod gate;
mod master_thread;
mod run;
mod setup;
mod start;
mod worker_thread;

pub use context::Shared;
pub use fault::ThreadFault;
pub use gate::{Gate, OpenGate};
pub use run::{Ended, ThreadSet, run_all};
pub use setup::{books_of, journals_of, threads_of};
