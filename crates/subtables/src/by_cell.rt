// Rows written cell by cell.
ghost use Rattle.std.specs.Prelude.{ℕ, ◌-◌, ◌+◌, ◌*◌, ◌≤◌, ◌<◌, ◌≡◌, length};
ghost use Rattle.lists.specs.Gather.{flat};
ghost use Rattle.cells.specs.Be.{be_bytes};
ghost use Rattle.cells.specs.Sign.{signed_at, signed_bytes, Size as CellSize};
ghost use Rattle.opentype.specs.Subtable.{word_size, rest_size, cell_size, delta};
ghost use Rattle.rows.specs.Area.{items};
ghost use Rattle.rows.specs.Length.{row_of};
ghost use Rattle.subtables.specs.Kept.{Fitting};

use crate::Kept;
use readers::subtable::Subtable;
use rows::column_at;

// The number in the last bytes before a place: the low bytes of each signed cell that ends there.
fn low_before(s: &[u8], end: usize, size: usize) -> u32
    requires { CellSize size × (size ≤ end) × (end ≤ length s.now) }
    ensures { (w : ℕ) → CellSize w → size ≤ w → w ≤ end → be_bytes size result ≡ signed_bytes size (signed_at w s.now (end - w)) }
{
    cells::entry_at(s, end - size, size)
}

// The low bytes of a delta, as a number: the last ones of its cell, which has at least so many.
fn low_of(t: &Subtable<'_>, item: usize, column: usize, size: usize) -> u32
    requires { (column < t.now.shape.columns) × CellSize size × (size ≤ cell_size t.now.shape.long t.now.shape.words column) }
    ensures { be_bytes size result ≡ signed_bytes size (delta t.now.bytes.now t.now.shape.at item column) }
{
    let shape = t.shape;
    if shape.items <= item {
        return 0;
    }
    low_before(
        t.bytes,
        shape.rows + item * shape.row + shape.cell_at(column + 1),
        size,
    )
}

impl<'a> Kept<'a> {
    ghost use Rattle.subtables.specs.Rows.{new_cells, new_row};

    // Writes the deltas of an item in `count` kept columns, from the first-th on, in cells of one size.
    fn put_cells(&self, out: &mut [u8], item: usize, first: usize, count: usize, size: usize)
        requires cells { (first + count ≤ 4096) × CellSize size }
        requires fitting { Fitting self.now.subtable.shape self.now.work.now self.now.columns.counts.wide first count size }
        requires out_len { length out.old ≡ count * size }
        ensures { out.new ≡ new_cells self.now item first count size }
    {
        // A copy, as the compiler can't see that no write to the output changes the lent one.
        let kept = *self;
        let wide = kept.columns.counts.wide;
        for k in 0..count {
            let column = column_at(kept.work, wide, first + k);
            cells::put_entry(
                out,
                k * size,
                size,
                low_of(&kept.subtable, item, column, size),
            );
        }
    }

    // Writes the row of an item in cells of the two sizes: wide columns first.
    fn put_groups(&self, out: &mut [u8], item: usize, word: usize, rest: usize)
        requires sizes { (word ≡ word_size self.now.columns.counts.long) × (rest ≡ rest_size self.now.columns.counts.long) }
        requires out_len { length out.old ≡ row_of self.now.columns.counts }
        ensures { out.new ≡ new_row self.now item }
    {
        let p = self.columns.counts;
        let (words, rests) = out.split_at_mut(p.wide * word);
        self.put_cells(words, item, 0, p.wide, word);
        self.put_cells(rests, item, p.wide, p.narrow, rest);
    }

    // Writes the row of an item. The sizes stand here as numbers, so that the loops over cells are compiled for each of them.
    pub fn put_row(&self, out: &mut [u8], item: usize)
        requires { length out.old ≡ row_of self.now.columns.counts }
        ensures { out.new ≡ new_row self.now item }
    {
        if self.columns.counts.long {
            self.put_groups(out, item, 4, 2);
        } else {
            self.put_groups(out, item, 2, 1);
        }
    }

    // Writes the rows of the pairs' items.
    pub fn put_new_rows(&self, out: &mut [u8], pairs: &[u32])
        requires { length out.old ≡ length pairs.now * row_of self.now.columns.counts }
        ensures { out.new ≡ flat (λ i. new_row self.now i) (items pairs.now) }
    {
        let row = self.columns.row_length();
        let mut at = 0;
        for pair in pairs {
            let item = (*pair % 65536) as usize;
            let end = at + row;
            self.put_row(&mut out[at..end], item);
            at = end;
        }
    }
}
