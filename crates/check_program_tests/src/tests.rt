mod erasing;
mod faults;
mod parts;
mod progress;
mod screen;

use std::process::Abort;

/// What a row shows, or a step, holds. A call of this is cheaper to prove than an `assert!`, since it has no paths.
fn holds(rt: &impl Abort, row: &str, whether: bool) {
    assert!(rt; whether, "{row}");
}
