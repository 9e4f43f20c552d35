// Reading stores, maps and tables: each object is opened with its refusal, and then read. Here are the three public readers.
#![tactic(auto)]

ghost use Rattle.std.specs.Prelude.{◌≡◌, ◌≤◌, MatchResult};
ghost use Rattle.rules.specs.Open.{bad_header};
ghost use Rattle.rules.specs.Readers.{delta_of, a_row, no_row, row_of, entry_of};

pub mod map;
pub mod store;
pub mod subtable;

use map::Map;
use rules::{Delta, Entry, Refusal};
use store::Store;

// 11, of a table with so many maps
pub fn bad_header(t: &[u8], maps: usize) -> bool
    requires { maps ≤ 4 }
    ensures { result ≡ bad_header maps t.now }
{
    if t.len() < 8 + 4 * maps {
        return true;
    }
    cells::number_at::<2>(t, 0) != 1
}

pub fn read_delta(store: &[u8], outer: u32, inner: u32, column: u32) -> Delta
    ensures { result ≡ delta_of store.now outer inner column }
{
    let subtable = Store::open(store)?.subtable(outer as usize)?;
    Ok(subtable.delta(inner as usize, column as usize))
}

pub fn try_read_row<'a>(store: &'a [u8], outer: u32, inner: u32) -> Result<&'a [u8], Refusal>
    ensures { MatchResult result (λ part. row_of store.now outer inner ≡ a_row part.now) (λ r. row_of store.now outer inner ≡ no_row r) }
{
    let subtable = Store::open(store)?.subtable(outer as usize)?;
    Ok(subtable.row(inner as usize))
}

// The row as a part of the store, empty beside a refusal's number: the form that document 01 names.
pub fn read_row<'a>(store: &'a [u8], outer: u32, inner: u32, number: &mut u32) -> &'a [u8]
    ensures number_after { number.new ≡ (row_of store.now outer inner).number }
    ensures result_value { result.now ≡ (row_of store.now outer inner).part }
{
    match try_read_row(store, outer, inner) {
        Ok(row) => {
            *number = 0;
            row
        }
        Err(r) => {
            *number = u32::from(r);
            &store[..0]
        }
    }
}

pub fn read_entry(map: &[u8], glyph: u32) -> Entry
    ensures { result ≡ entry_of map.now glyph }
{
    let pair = Map::open(map, 0)?.pair(glyph as usize);
    Ok(pair)
}
