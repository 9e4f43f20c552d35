// Document 01's numbers for the answers of the calls below: what the crate `binlariat_c` exports to C, which tells a
// number and fills in the places that it is lent. Nothing is decided here.
#![tactic(auto)]

ghost use Rattle.std.specs.Prelude.{◌≡◌, MatchResult};
ghost use Rattle.lists.specs.Pick.{differ};
ghost use Rattle.rules.specs.Numbers.{number_of};
ghost use Rattle.rules.specs.StoreCut.{cut_store};
ghost use Rattle.rules.specs.TableCut.{cut_hvar, cut_vvar};
ghost use Rattle.rules.specs.Readers.{delta_of, number_of_delta, value_of_delta, entry_of, number_of_entry, outer_of_entry, inner_of_entry};
ghost use Rattle.binlariat.specs.Exported.{Exported, RowGiven};

use readers::store::Store;
use rules::{Pair, Refusal};

// An answer as a number, with its value beside it; beside a refusal, `none`.
fn told<T: Drop>(answer: Result<T, Refusal>, none: T) -> (u32, T)
    ensures { MatchResult answer (λ value. result ≡ (0, value)) (λ r. result ≡ (number_of r, none)) }
{
    match answer {
        Ok(value) => (0, value),
        Err(r) => (u32::from(r), none),
    }
}

pub fn binlariat_cut_store(
    store: &[u8],
    pairs: &[u32],
    keep_empty: u32,
    work: &mut [u32],
    out: &mut [u8],
    written: &mut usize,
) -> u32
    ensures { Exported (cut_store store.now pairs.now (differ keep_empty 0)) work.old out.old result written.new work.new out.new }
{
    let answer = store::cut_store(store, pairs, keep_empty != 0, work, out);
    let (number, length) = told(answer, 0);
    *written = length;
    number
}

pub fn binlariat_cut_hvar(
    table: &[u8],
    glyphs: &[u32],
    work: &mut [u32],
    out: &mut [u8],
    written: &mut usize,
) -> u32
    ensures { Exported (cut_hvar table.now glyphs.now) work.old out.old result written.new work.new out.new }
{
    let (number, length) = told(tables::cut_hvar(table, glyphs, work, out), 0);
    *written = length;
    number
}

pub fn binlariat_cut_vvar(
    table: &[u8],
    glyphs: &[u32],
    work: &mut [u32],
    out: &mut [u8],
    written: &mut usize,
) -> u32
    ensures { Exported (cut_vvar table.now glyphs.now) work.old out.old result written.new work.new out.new }
{
    let (number, length) = told(tables::cut_vvar(table, glyphs, work, out), 0);
    *written = length;
    number
}

pub fn binlariat_read_delta(
    store: &[u8],
    outer: u32,
    inner: u32,
    column: u32,
    delta: &mut i32,
) -> u32
    ensures value { result ≡ number_of_delta (delta_of store.now outer inner column) }
    ensures delta_after { delta.new ≡ value_of_delta (delta_of store.now outer inner column) }
{
    let (number, value) = told(readers::read_delta(store, outer, inner, column), 0);
    *delta = value;
    number
}

// Where a row lies in its store, and its length; an empty one stands at 0.
fn row_part(store: &[u8], outer: u32, inner: u32) -> Result<(usize, usize), Refusal>
    ensures { MatchResult result (λ p. RowGiven store.now outer inner 0 p.0 p.1) (λ r. RowGiven store.now outer inner (number_of r) 0 0) }
{
    let shape = Store::open(store)?.subtable(outer as usize)?.shape;
    let item = inner as usize;
    if shape.items <= item || shape.row == 0 {
        return Ok((0, 0));
    }
    Ok((shape.rows + item * shape.row, shape.row))
}

// The row as a place and a length, as a C caller can't be handed a part.
pub fn binlariat_read_row(
    store: &[u8],
    outer: u32,
    inner: u32,
    start: &mut usize,
    len: &mut usize,
) -> u32
    ensures { RowGiven store.now outer inner result start.new len.new }
{
    let (number, part) = told(row_part(store, outer, inner), (0, 0));
    *start = part.0;
    *len = part.1;
    number
}

pub fn binlariat_read_entry(map: &[u8], glyph: u32, outer: &mut u32, inner: &mut u32) -> u32
    ensures value { result ≡ number_of_entry (entry_of map.now glyph) }
    ensures outer_after { outer.new ≡ outer_of_entry (entry_of map.now glyph) }
    ensures inner_after { inner.new ≡ inner_of_entry (entry_of map.now glyph) }
{
    let none = Pair { outer: 0, inner: 0 };
    let (number, pair) = told(readers::read_entry(map, glyph), none);
    *outer = pair.outer;
    *inner = pair.inner;
    number
}
