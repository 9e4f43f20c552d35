// The first pass over a store: every check is asked, and every size worked out, before a byte is written.
#![tactic(auto)]

ghost use Rattle.std.specs.Prelude.{◌≡◌, false, ◌+◌, ◌^◌, ◌≤◌, ◌<◌, length, take};
ghost use Rattle.opentype.specs.Store.{region_count};
ghost use Rattle.rules.specs.Lists.{outers_fall};
ghost use Rattle.rows.specs.Area.{part, items};
ghost use Rattle.measure.specs.Measured.{NoneUsed, with_subtable, Step, Fits, Measuring};

use pairs::Climbing;
use readers::store::Regions;
use readers::subtable::Subtable;
use rows::{Columns, mark_regions, plan_columns};
use rules::{Refusal, WorkArea};

// What is found of the subtables measured so far: how many, their bytes, whether some kept delta is not 0, rows 8 and 9.
#[derive(Default, Drop)]
pub struct Measure {
    pub count: usize,
    pub length: usize,
    pub live: bool,
    pub index: bool,
    pub middle: bool,
}

// The subtable with the columns p joins those measured so far.
fn with_subtable(m: Measure, p: Columns, bad: bool, length: usize) -> Measure
    requires { (m.count < 256) × (m.length ≤ 2 ^ 31) × (length ≤ 2 ^ 31) }
    ensures { result ≡ with_subtable m p.counts bad length }
{
    let p = p.counts;
    Measure {
        count: m.count + 1,
        length: m.length + length,
        live: m.live || 0 < p.wide + p.narrow,
        index: m.index || bad,
        middle: m.middle || p.middle,
    }
}

// Measures the subtable t for the pairs from..to: its length is noted, and its used regions are marked.
fn measure_run(
    work: &mut WorkArea,
    t: &Subtable<'_>,
    m: Measure,
    from: usize,
    to: usize,
    regions: usize,
) -> Measure
    requires from_le_to { (from ≤ to) × (to ≤ 8192) }
    requires regions_value { (regions ≡ region_count t.now.bytes.now) × (regions ≤ 4096) }
    requires fits { Fits m from × (m.count < 256) }
    ensures step { Step t.now.bytes.now t.now.shape.at (items (part work.old from to)) work.old work.new m result }
    ensures fits_after { Fits result to }
{
    let p = plan_columns(work, t, from, to);
    let bad = mark_regions(work, t, p, regions);
    let length = p.subtable_length(to - from);
    work[8832 + m.count] = length as u32;
    with_subtable(m, p, bad, length)
}

pub fn clear_used(work: &mut WorkArea)
    ensures none_used { NoneUsed work.new }
    ensures work_unchanged { take 8704 work.new ≡ take 8704 work.old }
{
    work[8704..8832].fill(0);
}

// 5 and 6 for each used subtable in turn; the sizes, and what 7, 8 and 9 ask.
pub fn measure_runs(
    work: &mut WorkArea,
    regions: &Regions<'_>,
    n: usize,
) -> Result<Measure, Refusal>
    requires n_bound { n ≤ 8192 }
    requires none_used { NoneUsed work.old × (outers_fall (take n work.old) ≡ false) }
    ensures measuring { Measuring regions.now.store.bytes.now (take n work.old) work.new result }
    ensures work_unchanged { take 8704 work.new ≡ take 8704 work.old }
{
    let mut m = Measure::default();
    let mut at = 0;
    // A turn goes on where its run ends, and is lent the whole area, pairs and all: so no iterator can hold the runs meanwhile.
    while at < n {
        let pairs = Climbing { pairs: &work[..n] };
        let end = pairs.end_of_run(at);
        let t = regions.store.subtable((work[at] / 65536) as usize)?;
        m = measure_run(work, &t, m, at, end, regions.count);
        at = end;
    }
    Ok(m)
}
