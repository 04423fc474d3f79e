//! tlx: runs a script of requests over a TileLink crossbar, and prints what each is answered.
//!
//! Standard input is a script, a TOML document of ports, masters and their operations. Each master is a thread, and
//! each port has as many as `--workers` says; standard output is the traces of the run, with `--history` the histories
//! of its ports, and the account of its slots. With `--serial` all runs on one thread, and there is no account. A fault
//! is one line on standard error, and then nothing was written, save for a failed write; a command line that is refused
//! is told by clap's text.
//!
//! The crate `tl_program` carries the theorems: what is written, and the status. Here the program's words, streams and
//! memory are handed to it. It is a crate of its own, so that its proof is not done again for the tests. No clause says
//! that the script read is that on standard input: that is read off `main`.
#![tactic(auto)]

use std::process::ExitCode;
use tl_cli::{read_words, refused};
use tl_options::read_options;
use tl_program::{ended, run};

fn main(rt: HostRuntime) -> ExitCode {
    let words = match read_words(&rt) {
        Ok(words) => words,
        Err(status) => return status,
    };
    match read_options(rt.alloc(), &words) {
        Ok(options) => ended(
            &rt,
            run(&rt, rt.alloc(), &mut rt.stdin(), &mut rt.stdout(), options),
        ),
        Err(error) => refused(&rt, error),
    }
}
