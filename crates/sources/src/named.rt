// The maps of a table, and the pairs that they give the listed glyphs: refusals 12 and 13.
ghost use Rattle.std.specs.Prelude.{◌≡◌, true, false, ℕ, get_or, ◌+◌, ◌*◌, ◌≤◌, ◌<◌, eqb, length, is_some, MatchResult};
ghost use Rattle.lists.specs.Pick.{pick, both};
ghost use Rattle.opentype.specs.Table.{map_at};
ghost use Rattle.rules.specs.Open.{bad_map};
ghost use Rattle.rules.specs.Numbering.{present, named_pairs, bad_outer};
ghost use Rattle.rules.specs.Numbering.{counts as counts_in};
ghost use Rattle.rules.specs.TableCut.{bad_maps};

use readers::map::{Map, bad_map};
use rules::{Pair, Refusal};

// A table of so many maps, none of which is bad.
#[derive(Clone, Copy)]
pub struct Sources<'a> {
    pub table: &'a [u8],
    pub maps: usize,
    pub ghost room: { 8 + 4 * maps ≤ length table.now },
    pub ghost sound: { bad_maps maps table.now ≡ false },
    pub ghost octets: { (i : ℕ) → get_or table.now i 0 < 256 },
}

// One of its maps, where it is present.
#[derive(Clone, Copy)]
pub struct Source<'a> {
    pub map: Option<Map<'a>>,
}

// A present map that can't be used.
fn bad_source(t: &[u8], m: usize) -> bool
    requires { 8 + 4 * (m + 1) ≤ length t.now }
    ensures { result ≡ both (present t.now m) (bad_map t.now (map_at t.now m)) }
{
    let at = cells::number_at::<4>(t, 8 + 4 * m) as usize;
    at != 0 && bad_map(t, at)
}

fn bad_maps(t: &[u8], maps: usize) -> bool
    requires { 8 + 4 * maps ≤ length t.now }
    ensures { result ≡ bad_maps maps t.now }
{
    (0..maps).any(|m| bad_source(t, m))
}

impl Source<'_> {
    ghost use Rattle.sources.specs.Pairs.{pair_in, pairs_in, Paired};

    // An absent map's pair is the glyph's own number, in outer 0.
    pub fn pair(&self, glyph: usize) -> Pair
        requires { glyph < 65536 }
        ensures { Paired (pair_in self.now glyph) result }
    {
        match &self.map {
            Some(map) => map.pair(glyph),
            None => Pair {
                outer: 0,
                inner: glyph as u32,
            },
        }
    }

    // The advance map gives pairs always, another one if it is present.
    pub fn counts(&self, m: usize) -> bool
        ensures { result ≡ pick (eqb m 0) true (is_some self.now.map) }
    {
        m == 0 || self.map.is_some()
    }

    // A listed glyph's pair names an outer at or past the count.
    fn outer_past(&self, glyphs: &[u32], count: u32) -> bool
        ensures { result ≡ bad_outer count (pairs_in self.now glyphs.now) }
    {
        glyphs
            .iter()
            .any(|e| self.pair((*e % 65536) as usize).outer >= count)
    }
}

impl<'a> Sources<'a> {
    ghost use Rattle.rules.specs.declared.Refusal.{Refusal};
    ghost use Rattle.sources.specs.Pairs.{pairs_at, IsSource};

    // 12
    pub fn open(table: &'a [u8], maps: usize) -> Result<Self, Refusal>
        requires { 8 + 4 * maps ≤ length table.now }
        ensures { MatchResult result
            (λ s. (s.table.now ≡ table.now) × (s.maps ≡ maps))
            (λ r. (r ≡ Refusal.BadMap) × (bad_maps maps table.now ≡ true)) }
    {
        if bad_maps(table, maps) {
            return Err(Refusal::BadMap);
        }
        Ok(Sources { table, maps })
    }

    // The map m.
    pub fn source(&self, m: usize) -> Source<'a>
        requires { m < self.now.maps }
        ensures { IsSource self.now.table.now m result }
    {
        let at = cells::number_at::<4>(self.table, 8 + 4 * m) as usize;
        if at == 0 {
            return Source { map: None };
        }
        Source {
            map: Some(Map::opened(self.table, at)),
        }
    }

    fn past_in(&self, m: usize, glyphs: &[u32], count: u32) -> bool
        requires { m < self.now.maps }
        ensures { result ≡ both (counts_in self.now.table.now m) (bad_outer count (pairs_at self.now.table.now (map_at self.now.table.now m) glyphs.now)) }
    {
        let source = self.source(m);
        source.counts(m) && source.outer_past(glyphs, count)
    }

    // 13
    pub fn bad_outers(&self, glyphs: &[u32], count: u32) -> bool
        ensures { result ≡ bad_outer count (named_pairs self.now.maps self.now.table.now glyphs.now) }
    {
        (0..self.maps).any(|m| self.past_in(m, glyphs, count))
    }
}
