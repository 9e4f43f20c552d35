// A store and its region list, opened. What the tests let through lies inside the bytes: the laws are in laws/specs/Inside.antt.
ghost use Rattle.std.specs.Prelude.{◌≡◌, ◌≤◌, ◌<◌, ◌^◌, true, false, MatchResult};
ghost use Rattle.opentype.specs.Store.{regions_at, axis_count, region_count};
ghost use Rattle.rules.specs.Open.{bad_store, bad_regions};

use rules::Refusal;

// The bytes of a store that row 3 lets through.
#[derive(Clone, Copy)]
pub struct Store<'a> {
    pub bytes: &'a [u8],
    pub ghost sound: { bad_store bytes.now ≡ false },
}

// The region list of a store that row 4 lets through too: its place, and the counts.
#[derive(Clone, Copy)]
pub struct Regions<'a> {
    pub store: Store<'a>,
    pub at: usize,
    pub axes: usize,
    pub count: usize,
    pub ghost sound: { bad_regions store.bytes.now ≡ false },
    pub ghost place: { at ≡ regions_at store.bytes.now },
    pub ghost axis_count: { axes ≡ axis_count store.bytes.now },
    pub ghost axes_bound: { axes ≤ 65535 },
    pub ghost region_count: { count ≡ region_count store.bytes.now },
}

// 3
fn bad_store(s: &[u8]) -> bool
    ensures { result ≡ bad_store s.now }
{
    if s.len() < 8 {
        return true;
    }
    if cells::number_at::<2>(s, 0) != 1 {
        return true;
    }
    let count = cells::number_at::<2>(s, 6);
    if count > 256 {
        return true;
    }
    s.len() < 8 + 4 * (count as usize)
}

impl<'a> Store<'a> {
    ghost use Rattle.rules.specs.declared.Refusal.{Refusal};
    ghost use Rattle.opentype.specs.Store.{subtable_count};
    ghost use Rattle.readers.specs.Opening.{RegionsOpening};

    // 3
    pub fn open(bytes: &'a [u8]) -> Result<Self, Refusal>
        ensures { MatchResult result (λ s. s.bytes.now ≡ bytes.now) (λ r. (r ≡ Refusal.BadStore) × (bad_store bytes.now ≡ true)) }
    {
        if bad_store(bytes) {
            return Err(Refusal::BadStore);
        }
        Ok(Store { bytes })
    }

    // How many subtables its array names.
    pub fn count(&self) -> usize
        ensures value { result ≡ subtable_count self.now.bytes.now }
        ensures upper_bound { result ≤ 256 }
    {
        cells::number_at::<2>(self.bytes, 6) as usize
    }

    // Where the region list starts; 0 where there is none.
    pub fn regions_at(&self) -> usize
        ensures value { result ≡ regions_at self.now.bytes.now }
        ensures upper_bound { result < 2 ^ 32 }
    {
        cells::number_at::<4>(self.bytes, 2) as usize
    }

    // 4
    pub fn bad_regions(&self) -> bool
        ensures { result ≡ bad_regions self.now.bytes.now }
    {
        let s = self.bytes;
        let at = self.regions_at();
        if s.len() < at + 4 {
            return true;
        }
        let count = cells::number_at::<2>(s, at + 2);
        if count > 4096 {
            return true;
        }
        let record = 6 * (cells::number_at::<2>(s, at) as usize);
        s.len() < at + 4 + (count as usize) * record
    }

    // The region list, where its offset isn't 0.
    pub fn regions(&self) -> Result<Option<Regions<'a>>, Refusal>
        ensures { RegionsOpening self.now.bytes.now result }
    {
        let bytes = self.bytes;
        let at = self.regions_at();
        if at == 0 {
            return Ok(None);
        }
        if self.bad_regions() {
            return Err(Refusal::BadRegions);
        }
        Ok(Some(Regions {
            store: *self,
            at,
            axes: cells::number_at::<2>(bytes, at) as usize,
            count: cells::number_at::<2>(bytes, at + 2) as usize,
        }))
    }
}
