// Maps made for the boundaries.

use crate::entry;
use std::io;

// Nothing is cut off a 4-byte entry; a glyph at or past the count reads the last one.
pub fn outers(rt: &impl Print) -> io::Result<()> {
    entry(rt, b"\x00\x30\x00\x01\xff\xff\xff\xff", 0, 0, 2147483647, 1)?;
    entry(
        rt,
        b"\x00\x30\x00\x01\x01\x02\x03\x04",
        4294967295,
        0,
        8454530,
        0,
    )?;
    entry(rt, b"\x00\x00\x00\x03\x01\x02\x03", 0, 0, 0, 1)?;
    entry(rt, b"\x00\x00\x00\x03\x01\x02\x03", 2, 0, 1, 1)?;
    entry(rt, b"\x00\x00\x00\x03\x01\x02\x03", 3, 0, 1, 1)?;
    entry(rt, b"\x00\x00\x00\x03\x01\x02\x03", 4294967295, 0, 1, 1)
}

// The top two bits of the entry format are ignored; 1 to 4 bytes an entry, up to 16 inner bits; a count of 4 bytes.
pub fn formats(rt: &impl Print) -> io::Result<()> {
    entry(rt, b"\x00\x1f\x00\x01\xff\xfe", 7, 0, 0, 65534)?;
    entry(rt, b"\x00\xc7\x00\x01\xab", 0, 0, 0, 171)?;
    entry(rt, b"\x00\xd3\x00\x02\xab\xcd\xef\x01", 1, 0, 3824, 1)?;
    entry(rt, b"\x00\x2b\x00\x01\xab\xcd\xef", 0, 0, 2748, 3567)?;
    entry(
        rt,
        b"\x01\x37\x00\x00\x00\x02\x80\x00\x00\x01\x80\x00\x00\x01",
        1,
        0,
        8388608,
        1,
    )?;
    entry(
        rt,
        b"\x01\x37\x00\x00\x00\x02\x80\x00\x00\x01\x80\x00\x00\x01",
        4294967295,
        0,
        8388608,
        1,
    )
}

// Not wholly inside, a count that no table holds among them; a count of 0.
pub fn inside(rt: &impl Print) -> io::Result<()> {
    entry(rt, b"\x01\x3f\xff\xff\xff\xff\x00\x00", 0, 12, 0, 0)?;
    entry(rt, b"\x01\x00\x00\x00\x00\x01\x0f", 0, 0, 7, 1)?;
    entry(rt, b"\x01\x00\x00\x00", 0, 12, 0, 0)?;
    entry(rt, b"\x01\x00\x00\x00\x00\x00\xff", 0, 12, 0, 0)?;
    entry(rt, b"\x00\x00", 0, 12, 0, 0)?;
    entry(rt, b"\x00", 0, 12, 0, 0)
}

// A format above 1; more inner bits than entry bits, or just not; a count of 0; an entry cut short, or just not.
pub fn refused(rt: &impl Print) -> io::Result<()> {
    entry(rt, b"", 0, 12, 0, 0)?;
    entry(rt, b"\x02\x00\x00\x01\x01", 0, 12, 0, 0)?;
    entry(rt, b"\x00\x08\x00\x01\x01", 0, 12, 0, 0)?;
    entry(rt, b"\x00\x07\x00\x01\xff", 0, 0, 0, 255)?;
    entry(rt, b"\x00\x00\x00\x00", 0, 12, 0, 0)?;
    entry(rt, b"\x00\x10\x00\x02\x01", 0, 12, 0, 0)?;
    entry(rt, b"\x00\x00\x00\x02\x01\x02", 1, 0, 1, 0)
}
