// Plays document 01's examples and the fixed list of answers, data/calls, and prints how many calls there are and how many differ.
#![tactic(auto)]

mod call;
mod examples;

use anyhow::{Context, Result};
use call::{Asked, Cut};
use played::{Broken, head, numbers, read_part};
use std::io::Read;
use std::{fs, io};

// The numbers of a record, as data/README.md names them.
#[derive(Clone, Copy)]
struct Record {
    asked: Asked,
    length: usize,
    listed: usize,
    area: usize,
    room: usize,
    answered: usize,
}

// Plays a record whose numbers have been read, and tells whether it is answered as it should be.
fn play(file: &mut impl Read, r: Record) -> Result<bool, Broken> {
    let mut bytes = [0u8; 20000];
    let mut raw = [0u8; 20000];
    let mut answer = [0u8; 20000];
    let mut list = [0u32; 5000];
    let mut work = [0u32; 16384];
    let mut out = [0u8; 20000];
    let list = list.get_mut(..r.listed).ok_or(Broken)?;
    let work = work.get_mut(..r.area).ok_or(Broken)?;
    let out = out.get_mut(..r.room).ok_or(Broken)?;
    // The last part's limit comes before the first is read: a list that is broken is not waited for.
    let answer = answer.get_mut(..r.answered).ok_or(Broken)?;
    let bytes = read_part(file, &mut bytes, r.length)?;
    let raw = read_part(file, &mut raw, 4 * r.listed)?;
    let answer = read_part(file, answer, r.answered)?;
    numbers(raw, list);
    Ok(call::same(r.asked, bytes, list, work, out, answer))
}

// Reads the numbers of the next record and plays it.
fn play_next(file: &mut impl Read) -> Result<bool, Broken> {
    let mut raw = [0u8; 28];
    file.read_exact(&mut raw).map_err(|_| Broken)?;
    let [kind, length, listed, area, room, number, answered] = head::<7>(&raw);
    let asked = Asked {
        cut: Cut::from(kind),
        number,
    };
    play(
        file,
        Record {
            asked,
            length: length as usize,
            listed: listed as usize,
            area: area as usize,
            room: room as usize,
            answered: answered as usize,
        },
    )
}

// Plays the records, and tells how many differ; a broken list counts as a difference of each that is left.
fn play_all(file: &mut impl Read, count: u32) -> u32 {
    let mut differ = 0;
    for left in (0..count).rev() {
        match play_next(file) {
            Ok(same) => differ += u32::from(!same),
            Err(Broken) => return differ + left + 1,
        }
    }
    differ
}

fn told(rt: &impl Print, count: u32, what: &str, differ: u32) -> io::Result<()> {
    println!(rt; "{count} {what}, {differ} differ")
}

fn main(rt: HostRuntime) -> Result<()> {
    let mut file = fs::open(&rt, "calls").context("calls")?;
    let mut raw = [0u8; 4];
    file.read_exact(&mut raw).context("calls")?;
    let [count] = head::<1>(&raw);
    told(&rt, count, "calls", play_all(&mut file, count))?;
    told(&rt, examples::COUNT, "examples", examples::play())?;
    Ok(())
}
