// The C interface: each call of the crate `binlariat`, by the same name and with the same clauses.
#![tactic(auto)]

ghost use Rattle.std.specs.Prelude.{◌≡◌};
ghost use Rattle.lists.specs.Pick.{differ};
ghost use Rattle.rules.specs.StoreCut.{cut_store};
ghost use Rattle.rules.specs.TableCut.{cut_hvar, cut_vvar};
ghost use Rattle.rules.specs.Readers.{delta_of, number_of_delta, value_of_delta, entry_of, number_of_entry, outer_of_entry, inner_of_entry};
ghost use Rattle.binlariat.specs.Exported.{Exported, RowGiven};

#[unsafe(no_mangle)]
pub extern "C" fn binlariat_cut_store(
    store: &[u8],
    pairs: &[u32],
    keep_empty: u32,
    work: &mut [u32],
    out: &mut [u8],
    written: &mut usize,
) -> u32
    ensures { Exported (cut_store store.now pairs.now (differ keep_empty 0)) work.old out.old result written.new work.new out.new }
{
    binlariat::binlariat_cut_store(store, pairs, keep_empty, work, out, written)
}

#[unsafe(no_mangle)]
pub extern "C" fn binlariat_cut_hvar(
    table: &[u8],
    glyphs: &[u32],
    work: &mut [u32],
    out: &mut [u8],
    written: &mut usize,
) -> u32
    ensures { Exported (cut_hvar table.now glyphs.now) work.old out.old result written.new work.new out.new }
{
    binlariat::binlariat_cut_hvar(table, glyphs, work, out, written)
}

#[unsafe(no_mangle)]
pub extern "C" fn binlariat_cut_vvar(
    table: &[u8],
    glyphs: &[u32],
    work: &mut [u32],
    out: &mut [u8],
    written: &mut usize,
) -> u32
    ensures { Exported (cut_vvar table.now glyphs.now) work.old out.old result written.new work.new out.new }
{
    binlariat::binlariat_cut_vvar(table, glyphs, work, out, written)
}

#[unsafe(no_mangle)]
pub extern "C" fn binlariat_read_delta(
    store: &[u8],
    outer: u32,
    inner: u32,
    column: u32,
    delta: &mut i32,
) -> u32
    ensures value { result ≡ number_of_delta (delta_of store.now outer inner column) }
    ensures delta_after { delta.new ≡ value_of_delta (delta_of store.now outer inner column) }
{
    binlariat::binlariat_read_delta(store, outer, inner, column, delta)
}

// The row as a place and a length, as a C caller can't be handed a part.
#[unsafe(no_mangle)]
pub extern "C" fn binlariat_read_row(
    store: &[u8],
    outer: u32,
    inner: u32,
    start: &mut usize,
    len: &mut usize,
) -> u32
    ensures { RowGiven store.now outer inner result start.new len.new }
{
    binlariat::binlariat_read_row(store, outer, inner, start, len)
}

#[unsafe(no_mangle)]
pub extern "C" fn binlariat_read_entry(
    map: &[u8],
    glyph: u32,
    outer: &mut u32,
    inner: &mut u32,
) -> u32
    ensures value { result ≡ number_of_entry (entry_of map.now glyph) }
    ensures outer_after { outer.new ≡ outer_of_entry (entry_of map.now glyph) }
    ensures inner_after { inner.new ≡ inner_of_entry (entry_of map.now glyph) }
{
    binlariat::binlariat_read_entry(map, glyph, outer, inner)
}
