// The cut of HVAR and VVAR: one body over the number of maps.
#![tactic(auto)]

ghost use Rattle.std.specs.Prelude.{◌≡◌, ◌≤◌, ◌<◌, length, take};
ghost use Rattle.opentype.specs.Table.{store_at, store_of};
ghost use Rattle.rules.specs.Numbering.{kept_pairs};
ghost use Rattle.rules.specs.TableCut.{cut_kept, cut_table, cut_hvar, cut_vvar};
ghost use Rattle.rules.specs.Promise.{Promise};
ghost use Rattle.laws.specs.Fitted.{Fitted};
ghost use Rattle.frame.specs.Plans.{Collected};
ghost use Rattle.tables.specs.Cut.{Passed, store_kept, length_kept, StoreKept, with_planned};

use collect::collect;
use frame::header::{cut_null, put_header};
use frame::plans::{plan_maps, put_maps};
use numbering::{KeptPairs, index};
use plan::{Layout, plan_store};
use readers::bad_header;
use readers::store::Store;
use rules::{Answer, Refusal, WORK_LENGTH, WorkArea};
use sources::glyphs::bad_glyphs;
use sources::named::Sources;
use store::{put_null, put_store};

fn store_length(layout: &Option<Layout<'_>>) -> usize
    ensures { result ≡ length_kept layout.now }
{
    match layout {
        Some(l) => l.length,
        None => 8,
    }
}

// Writes the store that was planned; its columns stand where the index of the pairs stood.
fn put_planned(out: &mut [u8], work: &mut WorkArea, n: usize, layout: &Option<Layout<'_>>)
    requires kept { StoreKept (take n work.old) work.old layout.now }
    requires out_len { length out.old ≡ length_kept layout.now }
    ensures { out.new ≡ store_kept (take n work.old) layout.now }
{
    match layout {
        Some(l) => put_store(out, work, n, l),
        None => put_null(out),
    }
}

// The store is planned: the maps are planned, and 14 and 10 asked, before a byte is written.
fn cut_planned(
    work: &mut WorkArea,
    n: usize,
    sources: &Sources<'_>,
    glyphs: &[u32],
    layout: &Option<Layout<'_>>,
    out: &mut [u8],
) -> Answer
    requires collected { Collected sources.now.maps sources.now.table.now glyphs.now n work.old }
    requires kept { StoreKept (kept_pairs sources.now.maps sources.now.table.now glyphs.now) work.old layout.now }
    ensures { Fitted (with_planned sources.now.maps sources.now.table.now glyphs.now layout.now)
        out.old result out.new }
{
    index(work, n);
    let kept = KeptPairs {
        work: &*work,
        count: n,
    };
    let p = plan_maps(&kept, sources, glyphs);
    if p.wide {
        return Err(Refusal::WideEntry);
    }
    let head = 8 + 4 * sources.maps;
    let middle = head + store_length(layout);
    let end = middle + p.length;
    if out.len() < end {
        return Err(Refusal::ShortOutput);
    }
    let plans = &p.plans[..sources.maps];
    put_header(&mut out[..head], sources, plans, middle);
    put_maps(&mut out[middle..end], &kept, sources, glyphs, plans);
    put_planned(&mut out[head..middle], work, n, layout);
    Ok(end)
}

// The kept pairs stand in the work area: the store's own checks with keep-empty on, 14, 10.
fn cut_kept(
    work: &mut WorkArea,
    n: usize,
    sources: &Sources<'_>,
    store: &Store<'_>,
    glyphs: &[u32],
    out: &mut [u8],
) -> Answer
    requires store_value { store.now.bytes.now ≡ store_of sources.now.table.now }
    requires collected { Collected sources.now.maps sources.now.table.now glyphs.now n work.old }
    ensures { Fitted (cut_kept sources.now.maps sources.now.table.now glyphs.now (kept_pairs sources.now.maps sources.now.table.now glyphs.now))
        out.old result out.new }
{
    let layout = plan_store(work, store, n, true)?;
    cut_planned(work, n, sources, glyphs, &layout, out)
}

// The store starts at a place: 3, 15, 12, 13, and the rest.
fn cut_at(
    work: &mut WorkArea,
    t: &[u8],
    at: usize,
    glyphs: &[u32],
    maps: usize,
    out: &mut [u8],
) -> Answer
    requires { Passed maps t.now glyphs.now × (at ≡ store_at t.now) }
    ensures { Fitted (cut_table maps t.now glyphs.now) out.old result out.new }
{
    let Some(bytes) = t.get(at..) else {
        return Err(Refusal::BadStore);
    };
    let store = Store::open(bytes)?;
    let count = store.count();
    if count == 0 {
        return Err(Refusal::EmptyStore);
    }
    let sources = Sources::open(t, maps)?;
    if sources.bad_outers(glyphs, count as u32) {
        return Err(Refusal::BadOuter);
    }
    let n = collect(work, &sources, glyphs, count);
    cut_kept(work, n, &sources, &store, glyphs, out)
}

// 2, 11, a null store, and the rest.
fn cut_in(work: &mut WorkArea, t: &[u8], glyphs: &[u32], maps: usize, out: &mut [u8]) -> Answer
    requires { (0 < maps) × (maps ≤ 4) }
    ensures { Fitted (cut_table maps t.now glyphs.now) out.old result out.new }
{
    if bad_glyphs(glyphs) {
        return Err(Refusal::BadList);
    }
    if bad_header(t, maps) {
        return Err(Refusal::BadHeader);
    }
    let at = cells::number_at::<4>(t, 4) as usize;
    if at == 0 {
        return cut_null(t, maps, out);
    }
    cut_at(work, t, at, glyphs, maps, out)
}

// 1; whatever the work leaves in the work area is cleared.
fn cut_table(t: &[u8], glyphs: &[u32], maps: usize, work: &mut [u32], out: &mut [u8]) -> Answer
    requires { (0 < maps) × (maps ≤ 4) }
    ensures { Promise (cut_table maps t.now glyphs.now)
        work.old out.old result work.new out.new }
{
    let Some(area) = work.first_chunk_mut::<WORK_LENGTH>() else {
        return Err(Refusal::WorkArea);
    };
    let answer = cut_in(area, t, glyphs, maps, out);
    area.fill(0);
    answer
}

// Two calls over one body: callers and the C interface name both.
pub fn cut_hvar(table: &[u8], glyphs: &[u32], work: &mut [u32], out: &mut [u8]) -> Answer
    ensures { Promise (cut_hvar table.now glyphs.now)
        work.old out.old result work.new out.new }
{
    cut_table(table, glyphs, 3, work, out)
}

pub fn cut_vvar(table: &[u8], glyphs: &[u32], work: &mut [u32], out: &mut [u8]) -> Answer
    ensures { Promise (cut_vvar table.now glyphs.now)
        work.old out.old result work.new out.new }
{
    cut_table(table, glyphs, 4, work, out)
}
