// Reads deltas, rows and map entries, compares them with what document 01 says, and tells what differs.
#![tactic(auto)]

mod calls;
mod maps;
mod refusals;
mod stores;

use rules::{Pair, Refusal};
use std::io;

// Tells a call that differs, by its numbers.
fn differs(rt: &impl Print, what: &str, a: u32, b: u32, c: u32) -> io::Result<()> {
    println!(rt; "{what} {a} {b} {c} differs")
}

// Whether an answer has that number, and a value that is right.
fn answers<T: Drop, F: FnOnce(T) -> bool>(answer: Result<T, Refusal>, number: u32, right: F) -> bool
    requires { F.IsAlwaysCallable right }
{
    match answer {
        Ok(value) => number == 0 && right(value),
        Err(r) => number == u32::from(r),
    }
}

// The delta reader shall give that number and that value.
fn delta(
    rt: &impl Print,
    store: &[u8],
    outer: u32,
    inner: u32,
    column: u32,
    number: u32,
    value: i32,
) -> io::Result<()> {
    let answer = readers::read_delta(store, outer, inner, column);
    if answers(answer, number, |delta| delta == value) {
        return Ok(());
    }
    differs(rt, "delta", outer, inner, column)
}

// The row reader, that number and that part: it hands the number back beside the part.
fn row(
    rt: &impl Print,
    store: &[u8],
    outer: u32,
    inner: u32,
    number: u32,
    part: &[u8],
) -> io::Result<()> {
    let mut given = 0;
    let found = readers::read_row(store, outer, inner, &mut given);
    if found == part && given == number {
        return Ok(());
    }
    differs(rt, "row", outer, inner, number)
}

// The map reader, that number and that pair.
fn entry(
    rt: &impl Print,
    map: &[u8],
    glyph: u32,
    number: u32,
    outer: u32,
    inner: u32,
) -> io::Result<()> {
    let answer = readers::read_entry(map, glyph);
    if answers(answer, number, |pair| pair == Pair { outer, inner }) {
        return Ok(());
    }
    differs(rt, "entry", glyph, outer, inner)
}

fn main(rt: HostRuntime) -> io::Result<()> {
    stores::deltas(&rt)?;
    stores::past(&rt)?;
    stores::rows(&rt)?;
    stores::long(&rt)?;
    stores::no_columns(&rt)?;
    stores::mixed(&rt)?;
    maps::outers(&rt)?;
    maps::formats(&rt)?;
    maps::inside(&rt)?;
    maps::refused(&rt)?;
    refusals::deltas(&rt)?;
    refusals::rows(&rt)?;
    calls::deltas(&rt)?;
    calls::rows(&rt)?;
    calls::entries(&rt)?;
    println!(rt; "108 calls read")
}
