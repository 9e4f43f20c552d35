// One call of the library, and whether it is answered as the list says.
use played::{OUT_MARK, WORK_MARK, answers, holds, left};
use rules::Answer;

// Which cut is asked for.
#[derive(Clone, Copy)]
pub enum Cut {
    Store,
    StoreKeepingEmpty,
    Hvar,
    Vvar,
}

// The kind of a record, as data/README.md names it; any other number is a plain cut of a store.
impl From<u32> for Cut {
    fn from(kind: u32) -> Cut {
        match kind {
            1 => Cut::StoreKeepingEmpty,
            2 => Cut::Hvar,
            3 => Cut::Vvar,
            _ => Cut::Store,
        }
    }
}

// What is asked for: the cut, and the number that it is to give.
#[derive(Clone, Copy)]
pub struct Asked {
    pub cut: Cut,
    pub number: u32,
}

fn call(cut: Cut, bytes: &[u8], list: &[u32], work: &mut [u32], out: &mut [u8]) -> Answer {
    match cut {
        Cut::Store => store::cut_store(bytes, list, false, work, out),
        Cut::StoreKeepingEmpty => store::cut_store(bytes, list, true, work, out),
        Cut::Hvar => tables::cut_hvar(bytes, list, work, out),
        Cut::Vvar => tables::cut_vvar(bytes, list, work, out),
    }
}

// Whether the call gives the number, the length and every byte of lent memory that it should.
pub fn same(
    asked: Asked,
    bytes: &[u8],
    list: &[u32],
    work: &mut [u32],
    out: &mut [u8],
    answer: &[u8],
) -> bool {
    work.fill(WORK_MARK);
    out.fill(OUT_MARK);
    let given = call(asked.cut, bytes, list, work, out);
    answers(given, asked.number, answer.len()) && holds(out, answer) && left(work, asked.number)
}
