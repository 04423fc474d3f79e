//! Texts with the records and lines that they have, worked out by hand; and readers that give a text bit by bit.
ghost use Rattle.std.specs.Prelude.{◌<◌, Some};

use crate::tests::holds;
use check_records::{RecordFault, Records};
use std::alloc::Global;
use std::io;
use std::io::{ErrorKind, Read};
use std::process::Abort;

/// A reader that gives at most so many bytes a read, is interrupted at each read whose number this divides, and fails
/// at the read of this number.
#[derive(Drop)]
struct Trickle<'t> {
    text: &'t [u8],
    step: usize,
    interrupted: u32,
    fails: u32,
    reads: u32,
    ghost gives: { 0 < step },
}

impl<'t> Read for Trickle<'t> {
    ghost remaining = { λ r. Some r.text.now };

    fn read(&mut self, buf: &mut [u8]) -> io::Result<usize> {
        self.reads = self.reads.saturating_add(1);
        if self.reads == self.fails {
            return Err(io::Error::from(ErrorKind::Other));
        }
        if self.interrupted != 0 && self.reads % self.interrupted == 0 {
            return Err(io::Error::from(ErrorKind::Interrupted));
        }
        let count = self.step.min(buf.len()).min(self.text.len());
        let (front, text) = self.text.split_at(count);
        buf[..count].copy_from_slice(front);
        self.text = text;
        Ok(count)
    }
}

fn reader_of(text: &[u8], step: usize, interrupted: u32, fails: u32) -> Trickle<'_>
    requires { 0 < step }
{
    Trickle {
        text,
        step,
        interrupted,
        fails,
        reads: 0,
    }
}

/// The reader of a text as a whole.
fn whole(text: &[u8]) -> Trickle<'_> {
    reader_of(text, usize::MAX, 0, 0)
}

/// Appends a bar and a field.
fn push_field(rt: &impl Abort, text: &mut String, field: &[u8]) {
    text.push('|').expect(rt, "memory");
    let field = str::from_utf8(field).unwrap_or("?");
    text.push_str(field).expect(rt, "memory");
}

/// Appends the fields of a record.
fn push_fields(rt: &impl Abort, text: &mut String, records: &Records<Trickle>) {
    for column in records.columns() {
        push_field(rt, text, column);
    }
}

/// Appends what stands between the commas of a line without quotes.
fn push_parts(rt: &impl Abort, text: &mut String, line: &[u8]) {
    let mut start = 0;
    for end in 0..=line.len() {
        if matches!(line.get(end), None | Some(b',')) {
            push_field(rt, text, line.get(start..end).expect(rt, "a part"));
            start = end.saturating_add(1);
        }
    }
}

/// Appends a record to a text: its line before a colon, its fields each after a bar, and a line feed.
fn push_record(rt: &impl Abort, text: &mut String, records: &Records<Trickle>) {
    write!(text, "{}:", records.line()).expect(rt, "memory");
    match records.bare() {
        Some(line) => push_parts(rt, text, line),
        None => push_fields(rt, text, records),
    }
    text.push('\n').expect(rt, "memory");
}

/// Reads the next record, and leaves it in place if it may be and can.
fn read_next(records: &mut Records<Trickle>, in_place: bool) -> Result<bool, RecordFault> {
    if in_place {
        records.read_in_place()
    } else {
        records.read()
    }
}

/// Appends what records are left, one after the other, left in place where they may be and can. The answer is the fault,
/// if there is one.
fn push_records(
    rt: &impl Abort,
    text: &mut String,
    records: &mut Records<Trickle>,
    in_place: bool,
) -> Option<RecordFault> {
    for _ in 0..1000 {
        match read_next(records, in_place) {
            Ok(true) => push_record(rt, text, records),
            Ok(false) => return None,
            Err(fault) => return Some(fault),
        }
    }
    None
}

/// Appends the records of a text, as `push_records` does.
fn list(
    rt: &impl Abort,
    text: &mut String,
    alloc: Global,
    reader: Trickle,
    in_place: bool,
) -> Option<RecordFault> {
    match Records::new(alloc, reader) {
        Ok(mut records) => push_records(rt, text, &mut records, in_place),
        Err(fault) => Some(fault),
    }
}

/// Texts, and their records as `list` writes them.
static TEXTS: [(&[u8], &str); 22] = [
    (b"", ""),
    (b"\n\r\n\r", ""),
    (b"\xef\xbb\xbf", ""),
    (b"\xef\xbb", "1:|?\n"),
    (b"a", "1:|a\n"),
    (b"a,b\nc\n", "1:|a|b\n2:|c\n"),
    (b"a,b\r\nc\r\n\r\nd", "1:|a|b\n2:|c\n4:|d\n"),
    (b"a\rb\r\rc\n", "1:|a\n1:|b\n1:|c\n"),
    (b"\n\n a,,\n\n", "3:| a||\n"),
    (b"\xef\xbb\xbfa,b\n\xef", "1:|a|b\n2:|?\n"),
    (b"\"a\"\"b\",\"c,d\"\n", "1:|a\"b|c,d\n"),
    (b"\"a\nb\",c\n\"\r\n\"\nd", "1:|a\nb|c\n3:|\r\n\n5:|d\n"),
    (b"a\"b,\"c\"d\n", "1:|a\"b|cd\n"),
    (b"\"\"\n\"\",\n,\n", "1:|\n2:||\n3:||\n"),
    (b"a\n\"b\nc", "1:|a\n2:|b\nc\n"),
    (b"a\r\n\n\r\"", "1:|a\n3:|\n"),
    (b"a,b\nc,\"d\ne\",f\ng,h\n", "1:|a|b\n2:|c|d\ne|f\n4:|g|h\n"),
    (b"a,b\"c,d\"\n\"e\"\n", "1:|a|b\"c|d\"\n2:|e\n"),
    (b"a,\"b\"\"\",\"\",c\r\n,\r\n", "1:|a|b\"||c\n2:||\n"),
    (b"a,\"b,c\r\n\"\r\nd\r\n", "1:|a|b,c\r\n\n3:|d\n"),
    (b",\r,a\n\"\",b\r", "1:||\n1:||a\n2:||b\n"),
    (b"ab,cd\r\nef,gh", "1:|ab|cd\n2:|ef|gh\n"),
];

/// A text is listed so.
fn is_listed(rt: &impl Abort, alloc: Global, reader: Trickle, in_place: bool, records: &str) {
    let mut text = String::new(alloc);
    holds(
        rt,
        "no fault",
        list(rt, &mut text, alloc, reader, in_place) == None,
    );
    holds(rt, "records", text.as_str() == records);
}

/// A text has these records, read whole, in parts of each size, and byte by byte with interruptions. So each record,
/// each field and each CR LF lies across two reads once, and ends exactly at the end of a read once.
fn has_records(rt: &impl Abort, alloc: Global, text: &[u8], records: &str) {
    for in_place in &[false, true] {
        is_listed(rt, alloc, whole(text), *in_place, records);
        for step in 1..text.len() {
            let reader = reader_of(text, step, 0, 0);
            is_listed(rt, alloc, reader, *in_place, records);
        }
    }
    is_listed(rt, alloc, reader_of(text, 1, 2, 0), false, records);
}

#[test]
fn texts_have_their_records(rt: HostRuntime) {
    for (text, records) in &TEXTS {
        has_records(&rt, rt.alloc(), text, records);
    }
}

/// A text whose third line has so many bytes between two quotes, or without them.
fn long_text(rt: &impl Abort, alloc: Global, quoted: bool, count: usize) -> Vec<u8> {
    let quote: &[u8] = if quoted { b"\"" } else { b"" };
    let mut text = Vec::new(alloc);
    text.extend_from_slice(b"a\r\n\n").expect(rt, "memory");
    text.extend_from_slice(quote).expect(rt, "memory");
    for _ in 0..count {
        text.push(b'x').expect(rt, "memory");
    }
    text.extend_from_slice(quote).expect(rt, "memory");
    text.push(b'\n').expect(rt, "memory");
    text
}

/// The answers of reads, in place where that is said, one after the other.
fn reads(
    rt: &impl Abort,
    records: &mut Records<Trickle>,
    in_place: bool,
    answers: &[Result<bool, RecordFault>],
) {
    for answer in answers {
        holds(rt, "an answer", read_next(records, in_place) == *answer);
    }
}

/// The records of a text whose first record, on line 1, has been read.
fn behind_the_first<'t>(rt: &impl Abort, alloc: Global, text: &'t [u8]) -> Records<Trickle<'t>> {
    let mut records = Records::new(alloc, whole(text)).expect(rt, "memory");
    reads(rt, &mut records, false, &[Ok(true)]);
    holds(rt, "its line", records.line() == 1);
    records
}

/// The record on line 3 is the last, and has so many bytes.
fn is_read(rt: &impl Abort, alloc: Global, text: &[u8], size: usize) {
    let mut records = behind_the_first(rt, alloc, text);
    reads(rt, &mut records, false, &[Ok(true)]);
    holds(rt, "its line", records.line() == 3);
    holds(rt, "its length", records.columns().as_slice().len() == size);
    reads(rt, &mut records, false, &[Ok(false)]);
}

/// The record on line 3 is too long, and that stays so.
fn is_refused(rt: &impl Abort, alloc: Global, text: &[u8], in_place: bool) {
    let mut records = behind_the_first(rt, alloc, text);
    reads(rt, &mut records, in_place, &[TOO_LONG]);
    reads(rt, &mut records, false, &[TOO_LONG]);
}

const TOO_LONG: Result<bool, RecordFault> = Err(RecordFault::TooLong(3));

#[test]
fn records_of_4096_bytes_are_read(rt: HostRuntime) {
    for (quoted, count) in [(false, 4096), (true, 4094)] {
        let text = long_text(&rt, rt.alloc(), quoted, count);
        is_read(&rt, rt.alloc(), &text, count);
    }
}

#[test]
fn longer_records_are_refused(rt: HostRuntime) {
    for (quoted, count) in [(false, 4097), (true, 4095), (false, 200_000)] {
        let text = long_text(&rt, rt.alloc(), quoted, count);
        is_refused(&rt, rt.alloc(), &text, false);
    }
}

/// A text whose third line has so many commas.
fn comma_text(rt: &impl Abort, alloc: Global, count: usize) -> Vec<u8> {
    let mut text = Vec::new(alloc);
    text.extend_from_slice(b"a\r\n\n").expect(rt, "memory");
    for _ in 0..count {
        text.push(b',').expect(rt, "memory");
    }
    text.push(b'\n').expect(rt, "memory");
    text
}

/// The record on line 3 has so many bytes, and is left in place.
fn is_left(rt: &impl Abort, alloc: Global, text: &[u8], size: usize) {
    let mut records = behind_the_first(rt, alloc, text);
    reads(rt, &mut records, true, &[Ok(true)]);
    holds(rt, "its line", records.line() == 3);
    let length = records.bare().expect(rt, "not in place").len();
    holds(rt, "its length", length == size);
    reads(rt, &mut records, true, &[Ok(false)]);
}

#[test]
fn lines_of_4096_bytes_are_left_in_place(rt: HostRuntime) {
    let text = long_text(&rt, rt.alloc(), false, 4096);
    is_left(&rt, rt.alloc(), &text, 4096);
    let longer = long_text(&rt, rt.alloc(), false, 4097);
    is_refused(&rt, rt.alloc(), &longer, true);
}

#[test]
fn commas_count_as_bytes(rt: HostRuntime) {
    let text = comma_text(&rt, rt.alloc(), 4096);
    is_read(&rt, rt.alloc(), &text, 0);
    let longer = comma_text(&rt, rt.alloc(), 4097);
    is_refused(&rt, rt.alloc(), &longer, false);
}

/// Listed in reads of so many bytes, the last of these texts has a record too long, and the other has not.
fn is_long(rt: &impl Abort, alloc: Global, text: &[u8], longer: &[u8], step: usize) {
    let mut records = String::new(alloc);
    let reader = reader_of(text, step.max(1), 0, 0);
    holds(
        rt,
        "no fault",
        list(rt, &mut records, alloc, reader, false) == None,
    );
    // line 1 is `1:|a`; line 3 is `3:` and a bar before each of its 4,097 fields; each ends in a line feed
    holds(rt, "its length", records.len() == 5 + 2 + 4097 + 1);
    let reader = reader_of(longer, step.max(1), 0, 0);
    let refused = list(rt, &mut records, alloc, reader, false);
    holds(rt, "too long", refused == Some(RecordFault::TooLong(3)));
}

#[test]
fn a_record_may_be_long_over_many_reads(rt: HostRuntime) {
    let text = comma_text(&rt, rt.alloc(), 4096);
    let longer = comma_text(&rt, rt.alloc(), 4097);
    for step in &[1, 2, 1000, 4096, 4097] {
        is_long(&rt, rt.alloc(), &text, &longer, *step);
    }
}

fn fails(rt: &impl Abort, alloc: Global, reader: Trickle) {
    let mut text = String::new(alloc);
    holds(
        rt,
        "a failed read",
        list(rt, &mut text, alloc, reader, false) == Some(RecordFault::Read),
    );
}

#[test]
fn a_failed_read_is_a_fault(rt: HostRuntime) {
    // three bytes are read one by one, then what is left, and then the end
    for number in 1..6 {
        fails(&rt, rt.alloc(), reader_of(b"a,b\nc\n", 4, 0, number));
    }
    // an interruption that never ends
    fails(&rt, rt.alloc(), reader_of(b"a", 1, 1, 0));
}
