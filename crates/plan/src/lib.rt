// A store is planned: every check is asked, and every size known, before a byte is written.
#![tactic(auto)]

ghost use Rattle.std.specs.Prelude.{◌≡◌, false, not, ◌+◌, ◌*◌, ◌≤◌, take};
ghost use Rattle.lists.specs.Pick.{both};
ghost use Rattle.lists.specs.Gather.{rank};
ghost use Rattle.bits.specs.Bits.{has};
ghost use Rattle.rules.specs.Lists.{outers_fall, runs};
ghost use Rattle.rules.specs.StoreCut.{checked_cut};
ghost use Rattle.rows.specs.Area.{used_in};
ghost use Rattle.measure.specs.Measured.{Whole};
ghost use Rattle.plan.specs.Layout.{cut_runs, LaidAs, StorePlanned};

use measure::{Measure, clear_used, measure_runs};
use readers::store::{Regions, Store};
use rules::{Refusal, WorkArea};

// What is decided for a store before it is written: its region list, how many subtables, how many regions are used,
// and the length in bytes.
#[derive(Clone, Copy)]
pub struct Layout<'a> {
    pub regions: Regions<'a>,
    pub count: usize,
    pub used: usize,
    pub length: usize,
}

fn count_used(work: &WorkArea, regions: usize) -> usize
    requires { regions ≤ 4096 }
    ensures { (result ≡ rank (has (used_in work.now)) regions) × (result ≤ regions) }
{
    bits::rank_below(&work[8704..8832], regions)
}

// The bytes of a region list.
pub fn list_length(used: usize, axes: usize) -> usize
    requires { (used ≤ 4096) × (axes ≤ 65535) }
    ensures { (result ≡ 4 + used * (6 * axes)) × (result ≤ 1610588164) }
{
    4 + used * (6 * axes)
}

// 7
fn nothing_kept(keep: bool, live: bool) -> bool
    ensures { result ≡ both (not keep) (not live) }
{
    !keep && !live
}

// 7, 8 and 9, once every used subtable is measured.
fn lay_out<'a>(
    work: &WorkArea,
    regions: &Regions<'a>,
    n: usize,
    m: Measure,
    keep: bool,
) -> Result<Layout<'a>, Refusal>
    requires n_bound { n ≤ 8192 }
    requires work_value { outers_fall (take n work.now) ≡ false }
    requires whole { Whole regions.now.store.bytes.now (runs (take n work.now)) work.now m }
    ensures { LaidAs (checked_cut regions.now.store.bytes.now (runs (take n work.now)) keep)
        regions.now.store.bytes.now (take n work.now) work.now result }
{
    if nothing_kept(keep, m.live) {
        return Err(Refusal::NothingKept);
    }
    if m.index {
        return Err(Refusal::BadRegionIndex);
    }
    if m.middle {
        return Err(Refusal::MiddleWidth);
    }
    let used = count_used(work, regions.count);
    let length = 8 + 4 * m.count + list_length(used, regions.axes) + m.length;
    Ok(Layout {
        regions: *regions,
        count: m.count,
        used,
        length,
    })
}

// 5 to 9, of a store whose region list is there.
fn plan_runs<'a>(
    work: &mut WorkArea,
    regions: &Regions<'a>,
    n: usize,
    keep: bool,
) -> Result<Layout<'a>, Refusal>
    requires n_bound { n ≤ 8192 }
    requires work_value { outers_fall (take n work.old) ≡ false }
    ensures laid_as { LaidAs (cut_runs regions.now.store.bytes.now (runs (take n work.old)) keep)
        regions.now.store.bytes.now (take n work.old) work.new result }
    ensures work_unchanged { take 8704 work.new ≡ take 8704 work.old }
{
    clear_used(work);
    let m = measure_runs(work, regions, n)?;
    lay_out(work, regions, n, m, keep)
}

// What follows 3: the checks, and the sizes, for the first n pairs of the work area. It is lent whole, with n beside it: its parts stand at fixed places, and hold
// one thing after the other. A null store has no layout.
pub fn plan_store<'a>(
    work: &mut WorkArea,
    s: &Store<'a>,
    n: usize,
    keep: bool,
) -> Result<Option<Layout<'a>>, Refusal>
    requires n_bound { n ≤ 8192 }
    requires work_value { outers_fall (take n work.old) ≡ false }
    ensures store_planned { StorePlanned s.now.bytes.now (take n work.old) keep work.new result }
    ensures work_unchanged { take 8704 work.new ≡ take 8704 work.old }
{
    let Some(regions) = s.regions()? else {
        if keep {
            return Ok(None);
        }
        return Err(Refusal::NothingKept);
    };
    let layout = plan_runs(work, &regions, n, keep)?;
    Ok(Some(layout))
}
