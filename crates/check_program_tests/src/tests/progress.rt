//! The progress of a capture: when its lines come, and what they are.
use crate::tests::holds;
use crate::tests::screen::Screen;
use check_program::{Line, Meter, Shown};
use std::alloc::Global;
use std::io::Read;
use std::process::Abort;

/// At a time, in milliseconds, these bytes are read, and this alone is printed.
type Moment = (u64, &'static [u8], &'static str);

static LONG: [Moment; 5] = [
    (999, b"time,link\n", ""),
    (
        1_000,
        b"1\n2\n3\n",
        "3 rows, 3 rows a second, 40 %\u{1b}[K\r",
    ),
    (1_499, b"4\n5\n", ""),
    (1_500, b"6\n7\n", "7 rows, 4 rows a second, 60 %\u{1b}[K\r"),
    (1_501, b"", "\u{1b}[K"),
];

/// Whether a capture of 40 bytes prints this at these moments.
fn prints(alloc: Global, moments: &[Moment]) -> bool {
    let screen = Screen::new(alloc);
    let Some(meter) = Meter::new(&screen, Some(40)) else {
        return false;
    };
    let mut is_so = true;
    for (millis, read, printed) in moments {
        screen.millis.set(*millis);
        meter.count(read);
        is_so &= screen.has_said(printed);
    }
    is_so
}

#[test]
fn a_line_comes_after_a_second_and_then_every_half(rt: HostRuntime) {
    holds(&rt, "a long capture", prints(rt.alloc(), &LONG));
}

#[test]
fn nothing_is_printed_of_a_short_capture(rt: HostRuntime) {
    holds(
        &rt,
        "a short capture",
        prints(rt.alloc(), &[(0, b"time,link\n1\n", ""), (5_000, b"", "")]),
    );
}

/// A line, and how it is spelled.
static LINES: [(Line, &str); 6] = [
    (
        Line {
            rows: 0,
            millis: 0,
            bytes: 0,
            whole: None,
        },
        "0 rows, 0 rows a second",
    ),
    (
        Line {
            rows: 1_200_000,
            millis: 2_000,
            bytes: 9,
            whole: None,
        },
        "1200000 rows, 600000 rows a second",
    ),
    (
        Line {
            rows: 5,
            millis: 2_000,
            bytes: 99,
            whole: Some(100),
        },
        "5 rows, 2 rows a second, 99 %",
    ),
    (
        Line {
            rows: 5,
            millis: 1_000,
            bytes: 100,
            whole: Some(100),
        },
        "5 rows, 5 rows a second, 100 %",
    ),
    // the file has grown, or had no length
    (
        Line {
            rows: 5,
            millis: 1_000,
            bytes: 300,
            whole: Some(100),
        },
        "5 rows, 5 rows a second, 100 %",
    ),
    (
        Line {
            rows: 5,
            millis: 1_000,
            bytes: 7,
            whole: Some(0),
        },
        "5 rows, 5 rows a second, 100 %",
    ),
];

#[test]
fn lines_are_spelled(rt: HostRuntime) {
    for (line, spelled) in &LINES {
        let text = line.to_string(rt.alloc()).expect(&rt, "memory");
        holds(&rt, spelled, text.as_str() == *spelled);
    }
}

/// So many bytes are read.
fn take(rt: &impl Abort, reader: &mut impl Read, buffer: &mut [u8], count: usize) {
    holds(
        rt,
        "bytes",
        reader.read(buffer).expect(rt, "bytes") == count,
    );
}

#[test]
fn what_is_read_is_handed_on(rt: HostRuntime) {
    let screen = Screen::new(rt.alloc());
    let meter = Meter::new(&screen, Some(5));
    let mut shown = Shown::new(b"12345".as_slice(), meter.as_ref());
    let mut buffer = [0u8; 3];
    screen.millis.set(2_000);
    take(&rt, &mut shown, &mut buffer, 3);
    holds(&rt, "the bytes", buffer == *b"123");
    holds(
        &rt,
        "a line",
        screen.has_said("0 rows, 0 rows a second, 60 %\u{1b}[K\r"),
    );
    take(&rt, &mut shown, &mut buffer, 2);
    take(&rt, &mut shown, &mut buffer, 0);
    holds(&rt, "no line", screen.has_said("\u{1b}[K"));
}
