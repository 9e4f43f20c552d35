// Rows kept whole: copied from the source.
ghost use Rattle.std.specs.Prelude.{◌<◌, ◌*◌, ◌≤◌, ◌≡◌, true, length, take, IfSome};
ghost use Rattle.lists.specs.Gather.{flat};
ghost use Rattle.opentype.specs.Subtable.{row};
ghost use Rattle.rows.specs.Area.{items};
ghost use Rattle.rows.specs.Length.{row_of};
ghost use Rattle.subtables.specs.Kept.{Own, KeptWhole};

use crate::Kept;
use copies::copy_ahead;
use readers::subtable::{Shape, Subtable};
use rows::{Columns, column_at};
use rules::WorkArea;

// Every column is kept where it stands, in a cell of its old size: each written row is one of the source.
#[derive(Clone, Copy)]
pub struct Whole<'a> {
    pub kept: Kept<'a>,
    pub ghost whole: { KeptWhole kept.subtable.shape kept.work.now kept.columns.counts },
}

// Whether the first columns are kept where they stand.
fn is_own(work: &WorkArea, wide: usize, columns: usize) -> bool
    requires { columns ≤ 4096 }
    ensures { result ≡ true → Own work.now wide columns }
{
    (0..columns).all(|j| column_at(work, wide, j) == j)
}

// The source from the row of an item on.
fn source_from<'a>(t: &Subtable<'a>, item: usize) -> &'a [u8]
    requires { item < t.now.shape.items }
    ensures value { take t.now.shape.row result.now ≡ row t.now.bytes.now t.now.shape.at item }
    ensures row_in_bounds { t.now.shape.row ≤ length result.now }
{
    &t.bytes[t.shape.rows + item * t.shape.row..]
}

pub fn is_whole(work: &WorkArea, t: Shape, p: Columns) -> bool
    requires { t.columns ≤ 4096 }
    ensures { result ≡ true → KeptWhole t work.now p.counts }
{
    let p = p.counts;
    p.long == t.long
        && p.wide == t.words
        && p.wide + p.narrow == t.columns
        && is_own(work, p.wide, t.columns)
}

impl<'a> Kept<'a> {
    pub fn whole(&self) -> Option<Whole<'a>>
        ensures { IfSome result (λ w. w.kept ≡ self.now) }
    {
        if is_whole(self.work, self.subtable.shape, self.columns) {
            Some(Whole { kept: *self })
        } else {
            None
        }
    }
}

impl<'a> Whole<'a> {
    ghost use Rattle.subtables.specs.Rows.{new_row};

    // Writes the row of an item to the front of the output. What lies behind it there is not promised: the rows to come are written over it.
    fn put_row(&self, out: &mut [u8], item: usize)
        requires { self.now.kept.subtable.shape.row ≤ length out.old }
        ensures { take self.now.kept.subtable.shape.row out.new ≡ new_row self.now.kept item }
    {
        let t = &self.kept.subtable;
        if item < t.shape.items {
            copy_ahead(out, source_from(t, item), t.shape.row);
        } else {
            self.kept.put_row(&mut out[..t.shape.row], item);
        }
    }

    // Writes the rows of the pairs' items. A turn is lent all that is left of the output, as it may write past its row: so the loop isn't that of the rows by cell.
    pub fn put_rows(&self, out: &mut [u8], pairs: &[u32])
        requires { length out.old ≡ length pairs.now * row_of self.now.kept.columns.counts }
        ensures { out.new ≡ flat (λ i. new_row self.now.kept i) (items pairs.now) }
    {
        let row = self.kept.subtable.shape.row;
        let mut at = 0;
        for pair in pairs {
            let item = (*pair % 65536) as usize;
            self.put_row(&mut out[at..], item);
            at += row;
        }
    }
}
