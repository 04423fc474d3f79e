mod beats;
mod flight;
mod memory;

use crate::tests::holds;
use arrayvec::ArrayVec;
use check_cells::Cells;
use std::process::Abort;
use tl_types::MAX_BYTES;

/// Bytes, some of them unknown or unset.
type Given = ArrayVec<Option<u8>, MAX_BYTES>;

/// Bytes from words of two hexadecimal digits, or `xx`.
fn bytes_of(rt: &impl Abort, text: &str) -> Given {
    let mut bytes = Given::new();
    for word in text.split_whitespace() {
        let byte = if word == "xx" {
            None
        } else {
            Some(u8::from_str_radix(word, 16).ok().expect(rt, "two digits"))
        };
        bytes.try_push(byte).ok().expect(rt, "too many bytes");
    }
    bytes
}

/// These bytes are known or unknown.
fn expect_cells(rt: &impl Abort, row: &str, cells: &Cells, bytes: &[Option<u8>]) {
    assert!(rt; cells.len() == bytes.len());
    for place in 0..bytes.len() {
        holds(rt, row, cells.get(place) == bytes[place]);
    }
}

/// These are the bytes of a reply.
fn expect_text(rt: &impl Abort, row: &str, cells: &Cells, text: &str) {
    expect_cells(rt, row, cells, &bytes_of(rt, text));
}
