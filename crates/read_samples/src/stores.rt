// Stores made for the boundaries: each function reads one store.

use crate::{delta, row};
use std::io;

// The deltas of document 01's store S.
pub fn deltas(rt: &impl Print) -> io::Result<()> {
    let s =
        b"\x00\x01\x00\x00\x00\x0c\x00\x01\x00\x00\x00\x1c\x00\x01\x00\x02\x00\x00\x40\x00\x40\x00\xc0\x00\xc0\x00\x00\x00\x00\x03\x00\x01\x00\x02\x00\x00\x00\x01\x00\x64\x00\xff\x38\x05\x00\x0a\x00";
    delta(rt, s, 0, 0, 0, 0, 100)?;
    delta(rt, s, 0, 0, 1, 0, 0)?;
    delta(rt, s, 0, 1, 0, 0, -200)?;
    delta(rt, s, 0, 1, 1, 0, 5)?;
    delta(rt, s, 0, 2, 0, 0, 10)?;
    delta(rt, s, 0, 2, 1, 0, 0)
}

// P3, and what else is past a count of S; a subtable past its array.
pub fn past(rt: &impl Print) -> io::Result<()> {
    let s =
        b"\x00\x01\x00\x00\x00\x0c\x00\x01\x00\x00\x00\x1c\x00\x01\x00\x02\x00\x00\x40\x00\x40\x00\xc0\x00\xc0\x00\x00\x00\x00\x03\x00\x01\x00\x02\x00\x00\x00\x01\x00\x64\x00\xff\x38\x05\x00\x0a\x00";
    delta(rt, s, 0, 3, 0, 0, 0)?;
    delta(rt, s, 0, 0, 2, 0, 0)?;
    delta(rt, s, 0, 65536, 0, 0, 0)?;
    delta(rt, s, 0, 4294967295, 0, 0, 0)?;
    delta(rt, s, 0, 0, 4294967295, 0, 0)?;
    delta(rt, s, 1, 0, 0, 5, 0)?;
    delta(rt, s, 4294967295, 0, 0, 5, 0)
}

// The rows of S.
pub fn rows(rt: &impl Print) -> io::Result<()> {
    let s =
        b"\x00\x01\x00\x00\x00\x0c\x00\x01\x00\x00\x00\x1c\x00\x01\x00\x02\x00\x00\x40\x00\x40\x00\xc0\x00\xc0\x00\x00\x00\x00\x03\x00\x01\x00\x02\x00\x00\x00\x01\x00\x64\x00\xff\x38\x05\x00\x0a\x00";
    row(rt, s, 0, 0, 0, b"\x00\x64\x00")?;
    row(rt, s, 0, 1, 0, b"\xff\x38\x05")?;
    row(rt, s, 0, 2, 0, b"\x00\x0a\x00")?;
    row(rt, s, 0, 3, 0, b"")?;
    row(rt, s, 0, 65536, 0, b"")?;
    row(rt, s, 0, 4294967295, 0, b"")?;
    row(rt, s, 1, 0, 5, b"")?;
    row(rt, s, 4294967295, 0, 5, b"")
}

// A long subtable with the extreme numbers; the region list lies past the end, and no reader looks at it.
pub fn long(rt: &impl Print) -> io::Result<()> {
    let s =
        b"\x00\x01\xff\xff\xff\xff\x00\x01\x00\x00\x00\x0c\x00\x03\x80\x01\x00\x02\x00\x00\x00\x01\x80\x00\x00\x00\x80\x00\x7f\xff\xff\xff\x7f\xff\xff\xff\xff\xff\xff\xff";
    delta(rt, s, 0, 0, 0, 0, -2147483648)?;
    delta(rt, s, 0, 0, 1, 0, -32768)?;
    delta(rt, s, 0, 1, 0, 0, 2147483647)?;
    delta(rt, s, 0, 1, 1, 0, 32767)?;
    delta(rt, s, 0, 2, 0, 0, -1)?;
    delta(rt, s, 0, 2, 1, 0, -1)?;
    row(rt, s, 0, 0, 0, b"\x80\x00\x00\x00\x80\x00")?;
    row(rt, s, 0, 2, 0, b"\xff\xff\xff\xff\xff\xff")?;
    row(rt, s, 0, 3, 0, b"")
}

// Rows of length 0.
pub fn no_columns(rt: &impl Print) -> io::Result<()> {
    let s = b"\x00\x01\x00\x00\x00\x00\x00\x01\x00\x00\x00\x0c\x00\x02\x00\x00\x00\x00";
    delta(rt, s, 0, 0, 0, 0, 0)?;
    row(rt, s, 0, 0, 0, b"")?;
    row(rt, s, 0, 1, 0, b"")?;
    row(rt, s, 0, 2, 0, b"")
}

// An absent subtable, one that is cut short, one with more words than columns, a whole one.
pub fn mixed(rt: &impl Print) -> io::Result<()> {
    let s =
        b"\x00\x01\x00\x00\x00\x00\x00\x04\x00\x00\x00\x00\x00\x00\x00\x2a\x00\x00\x00\x18\x00\x00\x00\x1e\x00\x01\x00\x02\x00\x01\x00\x01\x00\x01\x00\x01\x00\x00\xff\x81";
    delta(rt, s, 0, 0, 0, 5, 0)?;
    delta(rt, s, 1, 0, 0, 6, 0)?;
    delta(rt, s, 2, 0, 0, 6, 0)?;
    delta(rt, s, 3, 0, 0, 0, -127)?;
    delta(rt, s, 4, 0, 0, 5, 0)?;
    row(rt, s, 0, 0, 5, b"")?;
    row(rt, s, 1, 0, 6, b"")?;
    row(rt, s, 2, 0, 6, b"")?;
    row(rt, s, 3, 0, 0, b"\xff\x81")?;
    row(rt, s, 4, 0, 5, b"")
}
