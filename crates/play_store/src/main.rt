// Plays recorded cuts of a store: each call's number and length, its output, also behind the length, and its work area are
// compared with the record's.
#![tactic(auto)]

ghost use Rattle.std.specs.Prelude.{◌≡◌, length};

use played::{Broken, OUT_MARK, WORK_MARK, answers, head, holds, left, numbers, read_part};
use std::io;
use std::io::Read;

// The numbers at the head of a record: the call's flag and lengths, and what is wanted.
#[derive(Clone, Copy)]
struct Head {
    keep: bool,
    area: usize,
    room: usize,
    bytes: usize,
    pairs: usize,
    number: u32,
    length: usize,
    want: usize,
}

fn head_of(raw: &[u8]) -> Head
    requires { length raw.now ≡ 32 }
{
    let [keep, area, room, bytes, pairs, number, length, want] = head::<8>(raw);
    Head {
        keep: keep == 1,
        area: area as usize,
        room: room as usize,
        bytes: bytes as usize,
        pairs: pairs as usize,
        number,
        length: length as usize,
        want: want as usize,
    }
}

// Reads n numbers, where there is room; they need not all be there.
fn read_pairs<'a>(
    input: &mut impl Read,
    pairs: &'a mut [u32],
    raw: &mut [u8],
    n: usize,
) -> Result<&'a [u32], Broken> {
    let pairs = pairs.get_mut(..n).ok_or(Broken)?;
    let raw = raw.get_mut(..4 * n).ok_or(Broken)?;
    let _ = input.read_exact(raw);
    numbers(raw, pairs);
    Ok(pairs)
}

// Makes the call, and compares.
fn call(h: Head, s: &[u8], pairs: &[u32], work: &mut [u32], out: &mut [u8], want: &[u8]) -> bool {
    work.fill(WORK_MARK);
    out.fill(OUT_MARK);
    let answer = store::cut_store(s, pairs, h.keep, work, out);
    answers(answer, h.number, h.length) && holds(out, want) && left(work, h.number)
}

// Reads the rest of a record, and plays it.
fn play_record(
    input: &mut impl Read,
    head: &[u8],
    bytes: &mut [u8],
    raw: &mut [u8],
    pairs: &mut [u32],
    want: &mut [u8],
    work: &mut [u32],
    out: &mut [u8],
) -> Result<bool, Broken>
    requires { length head.now ≡ 32 }
{
    let h = head_of(head);
    let bytes = read_part(input, bytes, h.bytes)?;
    let pairs = read_pairs(input, pairs, raw, h.pairs)?;
    let want = read_part(input, want, h.want)?;
    let work = work.get_mut(..h.area).ok_or(Broken)?;
    let out = out.get_mut(..h.room).ok_or(Broken)?;
    Ok(call(h, bytes, pairs, work, out, want))
}

// The most records that are played.
const MOST: u32 = 10000;

// Plays the records, and tells how many there are and how many differ.
fn play_all(input: &mut impl Read) -> (u32, u32) {
    let mut head = [0u8; 32];
    let mut bytes = [0u8; 2048];
    let mut raw = [0u8; 32800];
    let mut pairs = [0u32; 8200];
    let mut want = [0u8; 33000];
    let mut work = [WORK_MARK; 16500];
    let mut out = [OUT_MARK; 33000];
    let mut differ = 0;
    for calls in 0..MOST {
        if input.read_exact(&mut head).is_err() {
            return (calls, differ);
        }
        let same = play_record(
            input, &head, &mut bytes, &mut raw, &mut pairs, &mut want, &mut work, &mut out,
        );
        if !matches!(same, Ok(true)) {
            differ += 1;
        }
    }
    (MOST, differ)
}

fn main(rt: HostRuntime) -> io::Result<()> {
    let (calls, differ) = play_all(&mut rt.reader());
    println!(rt; "{calls} calls, {differ} differ")
}
