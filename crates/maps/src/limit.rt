// A limit of the new inners, from the kept pairs and the starts of their runs in the work area.
ghost use Rattle.std.specs.Prelude.{◌≡◌, ◌+◌, ◌<◌, ◌≤◌, get_or};
ghost use Rattle.rules.specs.Lists.{outer};
ghost use Rattle.maps.specs.Plans.{Bounds};

use numbering::KeptPairs;

// Where the run of the k-th pair starts.
fn run_start(kept: &KeptPairs<'_>, k: usize) -> usize
    requires { k < kept.now.count }
    ensures { (result ≡ get_or kept.now.work.now (8192 + outer (get_or kept.now.work.now k 0)) 0) × (result ≤ k) }
{
    let work = kept.work;
    let o = (work[k] / 65536) as usize;
    work[8192 + o] as usize
}

// The largest place of a pair in its run: the last pair of a run has it, so only these are looked at, from the last run to the first.
pub fn inner_limit(kept: &KeptPairs<'_>) -> u32
    ensures { Bounds kept.now.count kept.now.work.now result }
{
    let mut limit = 0;
    let mut end = kept.count;
    // A turn steps over a whole run.
    while end > 0 {
        let start = run_start(kept, end - 1);
        limit = u32::max(limit, (end - 1 - start) as u32);
        end = start;
    }
    limit
}
