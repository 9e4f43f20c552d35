// The maps of a table: their plans, their offsets in the header, and their bytes one after the other.
ghost use Rattle.std.specs.Prelude.{◌≡◌, false, ◌+◌, ◌*◌, ◌≤◌, ◌<◌, ◌^◌, ltb, length, take};
ghost use Rattle.maps.specs.Plans.{size_of};
ghost use Rattle.lists.specs.Gather.{gather};
ghost use Rattle.frame.specs.Plans.{Collected, place_of, offset_at, MapsPlanned, part_at};

use maps::limit::inner_limit;
use maps::plan::MapPlan;
use maps::{map_length, plan_map, put_map};
use numbering::KeptPairs;
use sources::named::Sources;

// The plans of at most four maps; whether one needs more than 4 bytes an entry; the bytes of all.
#[derive(Drop)]
pub struct Plans {
    pub plans: [Option<MapPlan>; 4],
    pub wide: bool,
    pub length: usize,
}

// 14, of one map
fn is_wide(plan: Option<MapPlan>) -> bool
    ensures { result ≡ ltb 4 (size_of plan) }
{
    match plan {
        Some(p) => p.size > 4,
        None => false,
    }
}

pub fn plan_maps(kept: &KeptPairs<'_>, sources: &Sources<'_>, glyphs: &[u32]) -> Plans
    requires { Collected sources.now.maps sources.now.table.now glyphs.now kept.now.count kept.now.work.now }
    ensures { MapsPlanned sources.now.maps sources.now.table.now glyphs.now (take sources.now.maps result.plans) result.wide result.length sources.now.maps }
{
    let limit = inner_limit(kept);
    let mut plans = [None; 4];
    let mut wide = false;
    let mut length = 0;
    for m in 0..sources.maps {
        let plan = plan_map(kept, sources, m, glyphs, limit);
        wide |= is_wide(plan);
        length += map_length(plan);
        plans[m] = plan;
    }
    Plans {
        plans,
        wide,
        length,
    }
}

fn offset_of(plan: Option<MapPlan>, at: usize) -> u32
    requires { at < 2 ^ 32 }
    ensures { result ≡ place_of plan at }
{
    if plan.is_some() { at as u32 } else { 0 }
}

// The offsets of the maps, which lie one after the other, the first at a place.
pub(crate) fn put_offsets(out: &mut [u8], plans: &[Option<MapPlan>], first: usize)
    requires { (length plans.now ≤ 4) × (length out.old ≡ 4 * length plans.now) × (first < 2 ^ 31 + 24) }
    ensures { out.new ≡ gather (λ m. offset_at plans.now first m) (length plans.now) }
{
    let mut at = first;
    for (m, &plan) in plans.iter().enumerate() {
        cells::put_number::<4>(out, 4 * m, offset_of(plan, at));
        at += map_length(plan);
    }
}

pub fn put_maps(
    out: &mut [u8],
    kept: &KeptPairs<'_>,
    sources: &Sources<'_>,
    glyphs: &[u32],
    plans: &[Option<MapPlan>],
)
    requires collected { Collected sources.now.maps sources.now.table.now glyphs.now kept.now.count kept.now.work.now }
    requires planned { MapsPlanned sources.now.maps sources.now.table.now glyphs.now plans.now false (length out.old) sources.now.maps }
    ensures { out.new ≡ gather (λ m. part_at sources.now.maps sources.now.table.now glyphs.now m) sources.now.maps }
{
    let mut at = 0;
    for (m, &plan) in plans.iter().enumerate() {
        let end = at + map_length(plan);
        // A map that is not written has no bytes.
        if let Some(p) = plan {
            put_map(&mut out[at..end], kept, sources, m, glyphs, p);
        }
        at = end;
    }
}
