// The tally of a column: how large its kept deltas are.
ghost use Rattle.std.specs.Prelude.{◌≡◌, map, max, eqb};
ghost use Rattle.lists.specs.Pick.{pick};
ghost use Rattle.cells.specs.Sign.{Size as CellSize};
ghost use Rattle.rules.specs.Lists.{inner};
ghost use Rattle.rules.specs.Columns.{kept_deltas};
ghost use Rattle.laws.specs.Sizes.{size, column_size};
ghost use Rattle.columns.specs.Tally.{number_of_size, Decides};

use readers::subtable::Subtable;

// How large a delta is, or the largest of a column: 0; in -128..127; in -32768..32767; in -65536..65535; outside.
#[derive(Clone, Copy, PartialEq, Eq, PartialOrd, Ord)]
pub enum Size {
    Zero,
    Byte,
    Short,
    Middle,
    Far,
}

// What is known of a column after some of its deltas.
#[derive(Drop)]
pub struct Column {
    pub size: Size,
}

// Most deltas are small, so that test comes first.
pub fn size_of(delta: i32) -> Size
    ensures { number_of_size result ≡ size delta }
{
    let mag = cells::mag(delta);
    if mag <= 127 {
        if delta == 0 { Size::Zero } else { Size::Byte }
    } else if mag <= 32767 {
        Size::Short
    } else if mag <= 65535 {
        Size::Middle
    } else {
        Size::Far
    }
}

impl Column {
    pub fn take(mut self, delta: i32) -> Column
        ensures { number_of_size result.size ≡ max (number_of_size self.size) (size delta) }
    {
        self.size = self.size.max(size_of(delta));
        self
    }
}

// The size at which a column's tally may end, by the bytes of its cells: a cell holds no delta of a larger size; and where long is
// kept, a column of cells of 2 bytes is narrow for any delta but 0.
fn enough(long: bool, cell: usize) -> Size
    requires { CellSize cell }
    ensures { number_of_size result ≡ pick long (pick (eqb cell 2) 1 cell) cell }
{
    match cell {
        1 => Size::Byte,
        2 => if long { Size::Byte } else { Size::Short },
        _ => Size::Far,
    }
}

// The kept deltas of a column, tallied one after the other until the column is decided.
pub fn column_size(t: &Subtable<'_>, pairs: &[u32], column: usize, long: bool) -> Size
    ensures { Decides long (number_of_size result) (column_size (kept_deltas t.now.bytes.now t.now.shape.at (map (λ p. inner p) pairs.now) column)) }
{
    let cell = t.shape.cell_size(column);
    let end = enough(long, cell);
    let mut tally = Column { size: Size::Zero };
    for pair in pairs {
        let item = (*pair % 65536) as usize;
        tally = tally.take(t.delta(item, column));
        if tally.size >= end {
            break;
        }
    }
    tally.size
}
