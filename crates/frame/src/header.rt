// The header of a table: the version copied, the store's offset, the maps' offsets.
ghost use Rattle.std.specs.Prelude.{◌≡◌, ◌++◌, ◌+◌, ◌*◌, ◌≤◌, ◌<◌, ◌^◌, length, take};
ghost use Rattle.lists.specs.Gather.{gather};
ghost use Rattle.cells.specs.Be.{be_bytes, Wrote};
ghost use Rattle.opentype.specs.Table.{header_length};
ghost use Rattle.rules.specs.TableCut.{null_table};
ghost use Rattle.laws.specs.Fitted.{Fitted};
ghost use Rattle.rules.specs.Numbers.{written};
ghost use Rattle.frame.specs.Plans.{offset_at};

use crate::plans::put_offsets;
use maps::plan::MapPlan;
use rules::{Answer, Refusal};
use sources::named::Sources;

fn put_version(out: &mut [u8], t: &[u8])
    requires { (4 ≤ length out.old) × (4 ≤ length t.now) }
    ensures { Wrote out.old 0 (take 4 t.now) out.new }
{
    out[..4].copy_from_slice(&t[..4]);
}

// The maps start at `first`, behind the store.
pub fn put_header(out: &mut [u8], sources: &Sources<'_>, plans: &[Option<MapPlan>], first: usize)
    requires maps_bound { (sources.now.maps ≤ 4) × (length out.old ≡ 8 + 4 * sources.now.maps) × (first < 2 ^ 31 + 24) }
    requires as_many { length plans.now ≡ sources.now.maps }
    ensures { out.new ≡ take 4 sources.now.table.now ++ be_bytes 4 (header_length sources.now.maps) ++ gather (λ m. offset_at plans.now first m) sources.now.maps }
{
    let head = 8 + 4 * sources.maps;
    put_version(out, sources.table);
    cells::put_number::<4>(out, 4, head as u32);
    put_offsets(&mut out[8..head], plans, first);
}

// A null store gives version and zeros.
pub fn cut_null(t: &[u8], maps: usize, out: &mut [u8]) -> Answer
    requires { (maps ≤ 4) × (4 ≤ length t.now) }
    ensures { Fitted (written (null_table maps t.now)) out.old result out.new }
{
    let head = 8 + 4 * maps;
    if out.len() < head {
        return Err(Refusal::ShortOutput);
    }
    put_version(out, t);
    out[4..head].fill(0);
    Ok(head)
}
