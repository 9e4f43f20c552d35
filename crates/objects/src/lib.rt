// The objects of a planned store, each written into its part of the output.
#![tactic(auto)]

ghost use Rattle.std.specs.Prelude.{◌≡◌, ◌++◌, ◌+◌, ◌*◌, ◌^◌, ◌≤◌, ◌<◌, length, get_or, take, drop};
ghost use Rattle.lists.specs.Pick.{pick};
ghost use Rattle.lists.specs.Gather.{flat, rank};
ghost use Rattle.cells.specs.Be.{be_bytes};
ghost use Rattle.bits.specs.Bits.{has};
ghost use Rattle.opentype.specs.Store.{subtable_at, region_count, record_length, region_record};
ghost use Rattle.rules.specs.Lists.{runs, outer};
ghost use Rattle.rules.specs.Regions.{used_regions, region_list_bytes};
ghost use Rattle.rules.specs.Rewrite.{subtable_bytes};
ghost use Rattle.laws.specs.Lengths.{sum, size_at, sizes};
ghost use Rattle.rows.specs.Area.{part, items, used_in, used_of};
ghost use Rattle.plan.specs.Layout.{Passed};
ghost use Rattle.objects.specs.Offsets.{offsets_by};
ghost use Rattle.objects.specs.Runs.{run_in, RunReady};

use cells::put_number;
use copies::copy;
use pairs::Climbing;
use plan::{Layout, list_length};
use readers::store::{Regions, Store};
use rows::plan_columns;
use rules::WorkArea;
use subtables::put_subtable;

// The 8 bytes of a header: format 1, the place of the region list, how many subtables.
pub fn put_header(out: &mut [u8], list: usize, count: usize)
    requires out_len { length out.old ≡ 8 }
    requires list_bound { (list < 2 ^ 32) × (count < 2 ^ 32) }
    ensures { out.new ≡ be_bytes 2 1 ++ be_bytes 4 list ++ be_bytes 2 count }
{
    put_number::<2>(out, 0, 1);
    put_number::<4>(out, 2, list as u32);
    put_number::<2>(out, 6, count as u32);
}

// The offsets of the subtables, by the lengths in the work area.
pub fn put_offsets(out: &mut [u8], work: &WorkArea, count: usize, first: usize)
    requires out_len { (count ≤ 256) × (length out.old ≡ 4 * count) }
    requires work_bound { first + sum (take count (drop 8832 work.now)) < 2 ^ 32 }
    ensures { out.new ≡ offsets_by first (take count (drop 8832 work.now)) }
{
    let mut next = first;
    for (k, &length) in work[8832..8832 + count].iter().enumerate() {
        put_number::<4>(out, 4 * k, next as u32);
        next += length as usize;
    }
}

// How many bytes region r has in the written list.
fn used_length(work: &WorkArea, r: usize, size: usize) -> usize
    requires { r < 4096 }
    ensures { result ≡ pick (has (used_in work.now) r) size 0 }
{
    if bits::contains(&work[8704..8832], r) {
        size
    } else {
        0
    }
}

// The records of the used regions, in ascending order.
fn put_records(out: &mut [u8], work: &WorkArea, regions: &Regions<'_>)
    requires { length out.old ≡ rank (has (used_in work.now)) (region_count regions.now.store.bytes.now) * record_length regions.now.store.bytes.now }
    ensures { out.new ≡ flat (λ r. region_record regions.now.store.bytes.now r) (used_of regions.now.store.bytes.now work.now) }
{
    let s = regions.store.bytes;
    let size = 6 * regions.axes;
    let mut from = regions.at + 4;
    let mut next = 0;
    for r in 0..regions.count {
        let length = used_length(work, r, size);
        let end = next + length;
        let stop = from + length;
        copy(&mut out[next..end], &s[from..stop]);
        next = end;
        from += size;
    }
}

// The written region list: axes, how many regions, their records.
pub fn put_region_list(out: &mut [u8], work: &WorkArea, l: &Layout<'_>)
    requires used_value { (l.now.used ≡ rank (has (used_in work.now)) (region_count l.now.regions.store.bytes.now)) × (l.now.used ≤ 4096) }
    requires out_len { length out.old ≡ 4 + l.now.used * (6 * l.now.regions.axes) }
    ensures { out.new ≡ region_list_bytes l.now.regions.store.bytes.now (used_of l.now.regions.store.bytes.now work.now) }
{
    let axes = l.regions.axes;
    let end = list_length(l.used, axes);
    put_number::<2>(out, 0, axes as u32);
    put_number::<2>(out, 2, l.used as u32);
    put_records(&mut out[4..end], work, &l.regions);
}

// The subtable of the pairs from..to, into its part of the output. Its columns are planned anew.
fn put_run(out: &mut [u8], work: &mut WorkArea, s: &Store<'_>, from: usize, to: usize)
    requires from_lt_to { (from < to) × (to ≤ 8192) }
    requires run_ready { RunReady s.now.bytes.now (run_in work.old from to) work.old }
    requires out_len { length out.old ≡ size_at s.now.bytes.now (subtable_at s.now.bytes.now (outer (get_or work.old from 0))) (items (part work.old from to)) }
    ensures out_after { out.new ≡ subtable_bytes s.now.bytes.now (used_of s.now.bytes.now work.old) (run_in work.old from to) }
    ensures work_len { length work.new ≡ 16384 }
    ensures work_unchanged { take 12288 work.new ≡ take 12288 work.old }
{
    let t = s.subtable_again((work[from] / 65536) as usize);
    let p = plan_columns(work, &t, from, to);
    put_subtable(out, work, &t, p, from, to);
}

// The subtables of the first n pairs, each into its part, whose length the work area holds.
pub fn put_subtables(out: &mut [u8], work: &mut WorkArea, s: &Store<'_>, n: usize)
    requires passed { Passed s.now.bytes.now (take n work.old) work.old }
    requires runs_bound { length (runs (take n work.old)) ≤ 256 }
    requires work_value { take (length (runs (take n work.old))) (drop 8832 work.old) ≡ sizes s.now.bytes.now (runs (take n work.old)) }
    requires out_len { length out.old ≡ sum (sizes s.now.bytes.now (runs (take n work.old))) }
    ensures { out.new ≡ flat (λ run. subtable_bytes s.now.bytes.now (used_regions s.now.bytes.now (runs (take n work.old))) run)
        (runs (take n work.old)) }
{
    let mut next = 0;
    let mut at = 0;
    let mut k = 0;
    // A turn goes on where its run ends, and is lent the whole area, pairs and all: so no iterator can hold the runs meanwhile.
    while at < n {
        let pairs = Climbing { pairs: &work[..n] };
        let end = pairs.end_of_run(at);
        let stop = next + work[8832 + k] as usize;
        put_run(&mut out[next..stop], work, s, at, end);
        next = stop;
        at = end;
        k += 1;
    }
}
