//! What stands on a terminal while a capture is read, and after something else is written there.
use crate::tests::holds;
use crate::tests::screen::{Output, Screen};
use check_program::{Erasing, Meter, Shown};
use std::io::{Read, Write};
use std::process::Abort;

/// Ten rows.
const ROWS: &[u8] = b"0\n1\n2\n3\n4\n5\n6\n7\n8\n9\n";

/// A meter of a capture of which the names of the columns were read, and in a second ten rows.
fn shown<'a>(rt: &impl Abort, screen: &'a Screen) -> Meter<'a, Screen> {
    let meter = Meter::new(screen, None).expect(rt, "a clock");
    meter.count(b"time,link\n");
    screen.millis.set(1_000);
    meter.count(ROWS);
    holds(rt, "a line", screen.shows("10 rows, 10 rows a second"));
    meter
}

/// All of these bytes are written.
fn writes(rt: &impl Abort, output: &mut impl Write, bytes: &[u8]) {
    let count = output.write(bytes).expect(rt, "bytes");
    holds(rt, "a write", count == bytes.len());
}

#[test]
fn a_shorter_line_leaves_no_tail(rt: HostRuntime) {
    let screen = Screen::new(rt.alloc());
    let meter = shown(&rt, &screen);
    screen.millis.set(20_000);
    meter.count(ROWS);
    holds(
        &rt,
        "a shorter line",
        screen.shows("20 rows, 1 rows a second"),
    );
}

#[test]
fn what_is_written_stands_alone(rt: HostRuntime) {
    let screen = Screen::new(rt.alloc());
    let meter = shown(&rt, &screen);
    let mut output = Erasing::new(Output { screen: &screen }, Some(&meter));
    writes(&rt, &mut output, b"unlaw");
    writes(&rt, &mut output, b"ful");
    holds(&rt, "a flush", output.flush().is_ok());
    holds(&rt, "a verdict", screen.shows("unlawful"));
}

/// A reader is at its end.
fn ends(rt: &impl Abort, reader: &mut impl Read) {
    let count = reader.read(&mut [0u8; 1]).expect(rt, "an end");
    holds(rt, "an end", count == 0);
}

#[test]
fn a_line_is_erased_once(rt: HostRuntime) {
    let screen = Screen::new(rt.alloc());
    let meter = shown(&rt, &screen);
    meter.erase();
    holds(&rt, "nothing", screen.shows(""));
    holds(&rt, "a sign", screen.put("x\r").is_ok());
    meter.erase();
    ends(&rt, &mut Shown::new(b"".as_slice(), Some(&meter)));
    holds(&rt, "the sign", screen.shows("x"));
}
