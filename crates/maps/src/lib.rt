// The maps of a cut table: each one's plan, and its bytes written into a lent part of the output.
#![tactic(auto)]

ghost use Rattle.std.specs.Prelude.{◌≡◌, true, ◌+◌, ◌*◌, ◌-◌, ◌^◌, ◌≤◌, ◌<◌, ltb, eqb, length, get_or, take, MatchOption};
ghost use Rattle.lists.specs.Pick.{both};
ghost use Rattle.lists.specs.Search.{member};
ghost use Rattle.cells.specs.Be.{Wrote};
ghost use Rattle.opentype.specs.Map.{outer_bits};
ghost use Rattle.rules.specs.Lists.{new_id, old_id};
ghost use Rattle.rules.specs.Maps.{count_of, bits_for, new_entry, map_bytes};
ghost use Rattle.sources.specs.Pairs.{pair_in};
ghost use Rattle.maps.specs.Plans.{kept_in, largest_of, head_of, entries_of, Kept, Ready, EntriesFit, Bounds, Planned, MapPlanned, length_of};

pub mod limit;
pub mod plan;

use numbering::KeptPairs;
use plan::MapPlan;
use sources::named::{Source, Sources};

// The pair of a listed glyph as one number.
fn pair_number(source: &Source<'_>, entry: u32) -> usize
    ensures { result ≡ pair_in source.now (old_id entry) }
{
    let pair = source.pair((entry % 65536) as usize);
    (pair.outer as usize) * 65536 + pair.inner as usize
}

// Where the run of equal pairs starts that ends the list.
fn last_run(source: &Source<'_>, glyphs: &[u32]) -> usize
    requires { 0 < length glyphs.now }
    ensures upper_bound { result < length glyphs.now }
    ensures glyphs_value { count_of (pair_in source.now) glyphs.now ≡ new_id (get_or glyphs.now result 0) + 1 }
{
    let end = glyphs.len() - 1;
    let last = pair_number(source, glyphs[end]);
    for i in (0..end).rev() {
        if pair_number(source, glyphs[i]) != last {
            return i + 1;
        }
    }
    0
}

fn count_of(source: &Source<'_>, glyphs: &[u32]) -> usize
    requires { 0 < length glyphs.now }
    ensures { result ≡ count_of (pair_in source.now) glyphs.now }
{
    let first = glyphs[last_run(source, glyphs)];
    (first / 65536) as usize + 1
}

// The bits of the largest new inner of the listed glyphs. None has more bits than the limit, so one that has as many ends the search.
fn new_inner_bits(kept: &KeptPairs<'_>, source: &Source<'_>, glyphs: &[u32], limit: u32) -> u32
    requires kept { Kept kept.now.count kept.now.work.now (pair_in source.now) glyphs.now }
    requires bounds { Bounds kept.now.count kept.now.work.now limit }
    ensures { result ≡ bits_for (largest_of (kept_in kept.now.count kept.now.work.now) (pair_in source.now) glyphs.now) }
{
    let full = bits::inner_bits(limit);
    let mut most = 0;
    for entry in glyphs.iter().rev() {
        let old = source.pair((*entry % 65536) as usize);
        let new = kept.renumbered(old);
        most = u32::max(most, new.inner);
        if bits::inner_bits(most) == full {
            return full;
        }
    }
    bits::inner_bits(most)
}

// The source map's entry bits less its inner bits; 6 for an absent advance map.
fn outer_bits(source: &Source<'_>) -> usize
    ensures value { MatchOption source.now.map (result ≡ 6) (λ map. result ≡ outer_bits map.bytes.now map.shape.at) }
    ensures upper_bound { result ≤ 31 }
{
    match &source.map {
        Some(map) => 8 * map.shape.size - map.shape.bits,
        None => 6,
    }
}

// Another absent map is not written; empty list: no map written.
pub fn plan_map(
    kept: &KeptPairs<'_>,
    sources: &Sources<'_>,
    m: usize,
    glyphs: &[u32],
    limit: u32,
) -> Option<MapPlan>
    requires m_bound { m < sources.now.maps }
    requires ready { Ready kept.now.count kept.now.work.now sources.now.table.now glyphs.now m }
    requires bounds { Bounds kept.now.count kept.now.work.now limit }
    ensures { MapPlanned sources.now.table.now (kept_in kept.now.count kept.now.work.now) glyphs.now m result }
{
    let source = sources.source(m);
    if glyphs.is_empty() || !source.counts(m) {
        return None;
    }
    let bits = new_inner_bits(kept, &source, glyphs, limit) as usize;
    let size = (outer_bits(&source) + bits).div_ceil(8);
    let count = count_of(&source, glyphs);
    Some(MapPlan { count, bits, size })
}

pub fn map_length(plan: Option<MapPlan>) -> usize
    ensures { (result ≡ length_of plan) × (result ≤ 393214) }
{
    match plan {
        Some(p) => 4 + p.count * p.size,
        None => 0,
    }
}

// The entry of a listed glyph.
fn entry_of(kept: &KeptPairs<'_>, source: &Source<'_>, entry: u32, bits: usize) -> u32
    requires kept_value { member (pair_in source.now (old_id entry)) (take kept.now.count kept.now.work.now) ≡ true }
    requires bits_bound { (bits < 32) × (new_entry bits (kept_in kept.now.count kept.now.work.now) (pair_in source.now (old_id entry)) < 2 ^ 32) }
    ensures { result ≡ new_entry bits (kept_in kept.now.count kept.now.work.now) (pair_in source.now (old_id entry)) }
{
    let old = source.pair((entry % 65536) as usize);
    let new = kept.renumbered(old);
    new.outer * (1u32 << bits) + new.inner
}

// The k-th of the list has the new id.
fn is_listed(glyphs: &[u32], k: usize, id: usize) -> bool
    ensures { result ≡ both (ltb k (length glyphs.now)) (eqb (new_id (get_or glyphs.now k 0)) id) }
{
    k < glyphs.len() && (glyphs[k] / 65536) as usize == id
}

// The entries of a map, behind its 4 bytes. New ids not in the list get 0.
fn put_entries(
    out: &mut [u8],
    kept: &KeptPairs<'_>,
    source: &Source<'_>,
    glyphs: &[u32],
    p: MapPlan,
)
    requires entries_fit { EntriesFit kept.now.count kept.now.work.now (pair_in source.now) glyphs.now p.bits }
    requires narrow { p.size ≤ 4 }
    requires out_len { length out.old ≡ 4 + p.count * p.size }
    ensures { Wrote out.old 4 (entries_of (kept_in kept.now.count kept.now.work.now) (pair_in source.now) glyphs.now p) out.new }
{
    let mut at = 4;
    let mut k = 0;
    for id in 0..p.count {
        let mut entry = 0;
        if is_listed(glyphs, k, id) {
            entry = entry_of(kept, source, glyphs[k], p.bits);
            k += 1;
        }
        cells::put_entry(out, at, p.size, entry);
        at += p.size;
    }
}

// Format 0, entry format, count.
fn put_head(out: &mut [u8], p: MapPlan)
    requires { 4 ≤ length out.old }
    ensures { Wrote out.old 0 (head_of p) out.new }
{
    cells::put_number::<1>(out, 0, 0);
    cells::put_number::<1>(out, 1, ((p.size - 1) * 16 + (p.bits - 1)) as u32);
    cells::put_number::<2>(out, 2, p.count as u32);
}

// A map, into its part of the output.
pub fn put_map(
    out: &mut [u8],
    kept: &KeptPairs<'_>,
    sources: &Sources<'_>,
    m: usize,
    glyphs: &[u32],
    p: MapPlan,
)
    requires m_bound { m < sources.now.maps }
    requires ready { Ready kept.now.count kept.now.work.now sources.now.table.now glyphs.now m }
    requires planned { Planned sources.now.table.now (kept_in kept.now.count kept.now.work.now) glyphs.now m p }
    requires narrow { p.size ≤ 4 }
    requires out_len { length out.old ≡ 4 + p.count * p.size }
    ensures { out.new ≡ map_bytes sources.now.table.now (kept_in kept.now.count kept.now.work.now) glyphs.now m }
{
    put_head(out, p);
    put_entries(out, kept, &sources.source(m), glyphs, p);
}
