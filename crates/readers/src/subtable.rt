// A subtable: opened, and its cells read.
ghost use Rattle.std.specs.Prelude.{◌≡◌, false, ◌≤◌, ◌<◌, ◌^◌, [], leb};
ghost use Rattle.lists.specs.Pick.{pick};
ghost use Rattle.rules.specs.Open.{absent_subtable, bad_subtable};
ghost use Rattle.opentype.specs.Store.{subtable_at};
ghost use Rattle.opentype.specs.Subtable.{region_index, length_of_row, cell_at, cell_size, row, delta};
ghost use Rattle.readers.specs.Opened.{Opened};

use crate::store::Store;
use rules::Refusal;

// A subtable's fields, each read once: its place in the store, the counts, a row's length, and the place of the rows.
#[derive(Clone, Copy)]
pub struct Shape {
    pub at: usize,
    pub items: usize,
    pub words: usize,
    pub columns: usize,
    pub long: bool,
    pub row: usize,
    pub rows: usize,
}

// A subtable that row 6 lets through, in the bytes of its store.
#[derive(Clone, Copy)]
pub struct Subtable<'a> {
    pub bytes: &'a [u8],
    pub shape: Shape,
    pub ghost opened: { Opened bytes.now shape },
}

fn row_length(long: bool, words: usize, columns: usize) -> usize
    requires { (words ≤ columns) × (columns ≤ 4096) }
    ensures { result ≡ length_of_row long words columns }
{
    if long {
        words * 4 + (columns - words) * 2
    } else {
        words * 2 + (columns - words)
    }
}

impl Shape {
    // Where a column stands in a row.
    pub fn cell_at(self, column: usize) -> usize
        requires { column ≤ 4096 }
        ensures { result ≡ cell_at self.long self.words column }
    {
        if column < self.words {
            if self.long { column * 4 } else { column * 2 }
        } else {
            row_length(self.long, self.words, column)
        }
    }

    pub fn cell_size(self, column: usize) -> usize
        ensures { result ≡ cell_size self.long self.words column }
    {
        if column < self.words {
            if self.long { 4 } else { 2 }
        } else {
            if self.long { 2 } else { 1 }
        }
    }
}

// 6
fn bad_subtable(s: &[u8], at: usize) -> bool
    requires { at < 2 ^ 32 }
    ensures { result ≡ bad_subtable s.now at }
{
    if s.len() < at + 6 {
        return true;
    }
    let field = cells::number_at::<2>(s, at + 2) as usize;
    let words = field % 32768;
    let columns = cells::number_at::<2>(s, at + 4) as usize;
    if columns < words {
        return true;
    }
    if columns > 4096 {
        return true;
    }
    let items = cells::number_at::<2>(s, at) as usize;
    let row = row_length(32768 <= field, words, columns);
    s.len() < at + 6 + 2 * columns + items * row
}

impl<'a> Store<'a> {
    ghost use Rattle.readers.specs.Opening.{Whole, Opening};

    // 5, then 6
    pub fn subtable(&self, outer: usize) -> Result<Subtable<'a>, Refusal>
        ensures { Opening self.now.bytes.now outer result }
    {
        let bytes = self.bytes;
        if self.count() <= outer {
            return Err(Refusal::AbsentSubtable);
        }
        let at = cells::number_at::<4>(bytes, 8 + 4 * outer) as usize;
        if at == 0 {
            return Err(Refusal::AbsentSubtable);
        }
        if bad_subtable(bytes, at) {
            return Err(Refusal::BadSubtable);
        }
        Ok(Subtable::opened(bytes, at))
    }

    // The subtable of an outer that 5 and 6 let through before.
    pub fn subtable_again(&self, outer: usize) -> Subtable<'a>
        requires there { absent_subtable self.now.bytes.now outer ≡ false }
        requires good { bad_subtable self.now.bytes.now (subtable_at self.now.bytes.now outer) ≡ false }
        ensures { (result.bytes.now ≡ self.now.bytes.now) × Whole self.now.bytes.now (subtable_at self.now.bytes.now outer) result.shape }
    {
        Subtable::opened(
            self.bytes,
            cells::number_at::<4>(self.bytes, 8 + 4 * outer) as usize,
        )
    }
}

impl<'a> Subtable<'a> {
    ghost use Rattle.readers.specs.Opening.{Whole};

    // The subtable at a place where 6 lets it through.
    pub fn opened(bytes: &'a [u8], at: usize) -> Self
        requires { bad_subtable bytes.now at ≡ false }
        ensures { (result.bytes.now ≡ bytes.now) × Whole bytes.now at result.shape }
    {
        let field = cells::number_at::<2>(bytes, at + 2) as usize;
        let words = field % 32768;
        let columns = cells::number_at::<2>(bytes, at + 4) as usize;
        let long = 32768 <= field;
        let items = cells::number_at::<2>(bytes, at) as usize;
        let row = row_length(long, words, columns);
        let rows = at + 6 + 2 * columns;
        let shape = Shape {
            at,
            items,
            words,
            columns,
            long,
            row,
            rows,
        };
        Subtable { bytes, shape }
    }

    pub fn region_index(&self, column: usize) -> u32
        requires { column < self.now.shape.columns }
        ensures value { result ≡ region_index self.now.bytes.now self.now.shape.at column }
        ensures upper_bound { result < 65536 }
    {
        cells::number_at::<2>(self.bytes, self.shape.at + 6 + 2 * column)
    }

    // The row of an item; an absent one has none.
    pub fn row(&self, item: usize) -> &'a [u8]
        ensures { result.now ≡ pick (leb self.now.shape.items item) [] (row self.now.bytes.now self.now.shape.at item) }
    {
        if self.shape.items <= item {
            return &self.bytes[..0];
        }
        let at = self.shape.rows + item * self.shape.row;
        let end = at + self.shape.row;
        &self.bytes[at..end]
    }

    pub fn delta(&self, item: usize, column: usize) -> i32
        ensures { result ≡ delta self.now.bytes.now self.now.shape.at item column }
    {
        let shape = self.shape;
        if shape.items <= item {
            return 0;
        }
        if shape.columns <= column {
            return 0;
        }
        let at = shape.rows + item * shape.row + shape.cell_at(column);
        cells::cell(self.bytes, at, shape.cell_size(column))
    }
}
