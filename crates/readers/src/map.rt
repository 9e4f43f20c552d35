// A map: opened, and its pairs read.
ghost use Rattle.std.specs.Prelude.{◌≡◌, true, false, ◌+◌, ◌-◌, ◌≤◌, ◌<◌, ◌^◌, min, length, eqb, MatchResult};
ghost use Rattle.lists.specs.Pick.{pick};
ghost use Rattle.cells.specs.Be.{be};
ghost use Rattle.opentype.specs.Map.{outer_of, inner_of};
ghost use Rattle.rules.specs.Open.{bad_map};
ghost use Rattle.readers.specs.Opened.{OpenedMap};

use rules::{Pair, Refusal};

// A map's fields, each read once: its place, the place of the entries and their count, an entry's bytes, and the bits
// of its inner number.
#[derive(Clone, Copy)]
pub struct MapShape {
    pub at: usize,
    pub entries: usize,
    pub count: usize,
    pub size: usize,
    pub bits: usize,
}

// A map that row 12 lets through, in the bytes of what holds it.
#[derive(Clone, Copy)]
pub struct Map<'a> {
    pub bytes: &'a [u8],
    pub shape: MapShape,
    pub ghost opened: { OpenedMap bytes.now shape },
}

// The bytes before the entries.
fn head_length(format: u32) -> usize
    ensures value { result ≡ pick (eqb format 0) 4 6 }
    ensures upper_bound { result ≤ 6 }
{
    if format == 0 { 4 } else { 6 }
}

fn entry_count(s: &[u8], at: usize, format: u32) -> u32
    requires { at + pick (eqb format 0) 4 6 ≤ length s.now }
    ensures { result ≡ pick (eqb format 0) (be 2 s.now (at + 2)) (be 4 s.now (at + 2)) }
{
    if format == 0 {
        cells::number_at::<2>(s, at + 2)
    } else {
        cells::number_at::<4>(s, at + 2)
    }
}

// 12
pub fn bad_map(s: &[u8], at: usize) -> bool
    requires { at < 2 ^ 32 }
    ensures { result ≡ bad_map s.now at }
{
    if s.len() < at + 2 {
        return true;
    }
    let format = cells::number_at::<1>(s, at);
    if format > 1 {
        return true;
    }
    let packed = cells::number_at::<1>(s, at + 1) as usize;
    let size = packed / 16 % 4 + 1;
    if 8 * size < packed % 16 + 1 {
        return true;
    }
    let entries = at + head_length(format);
    if s.len() < entries {
        return true;
    }
    let count = entry_count(s, at, format) as usize;
    if count == 0 {
        return true;
    }
    s.len() < entries + count * size
}

// A glyph at or past the count reads the last entry.
fn entry_index(count: usize, glyph: usize) -> usize
    requires { 1 ≤ count }
    ensures { result ≡ min glyph (count - 1) }
{
    glyph.min(count - 1)
}

impl<'a> Map<'a> {
    ghost use Rattle.rules.specs.declared.Refusal.{Refusal};

    // The map at a place where 12 lets it through.
    pub fn opened(bytes: &'a [u8], at: usize) -> Self
        requires { bad_map bytes.now at ≡ false }
        ensures { (result.bytes.now ≡ bytes.now) × (result.shape.at ≡ at) }
    {
        let format = cells::number_at::<1>(bytes, at);
        let packed = cells::number_at::<1>(bytes, at + 1) as usize;
        let shape = MapShape {
            at,
            entries: at + head_length(format),
            count: entry_count(bytes, at, format) as usize,
            size: packed / 16 % 4 + 1,
            bits: packed % 16 + 1,
        };
        Map { bytes, shape }
    }

    // 12
    pub fn open(bytes: &'a [u8], at: usize) -> Result<Self, Refusal>
        requires { at < 2 ^ 32 }
        ensures { MatchResult result
            (λ m. (m.bytes.now ≡ bytes.now) × (m.shape.at ≡ at) × (bad_map bytes.now at ≡ false))
            (λ r. (r ≡ Refusal.BadMap) × (bad_map bytes.now at ≡ true)) }
    {
        if bad_map(bytes, at) {
            return Err(Refusal::BadMap);
        }
        Ok(Map::opened(bytes, at))
    }

    pub fn pair(&self, glyph: usize) -> Pair
        ensures outer_value { result.outer ≡ outer_of self.now.bytes.now self.now.shape.at glyph }
        ensures inner_value { result.inner ≡ inner_of self.now.bytes.now self.now.shape.at glyph }
    {
        let shape = self.shape;
        let at = shape.entries + entry_index(shape.count, glyph) * shape.size;
        let entry = cells::entry_at(self.bytes, at, shape.size);
        Pair {
            outer: entry >> shape.bits,
            inner: entry % (1u32 << shape.bits),
        }
    }
}
