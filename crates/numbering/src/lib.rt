// New numbers, from the kept pairs and the tables of their runs in the work area.
// A pair's place in the list is guessed by an index: slots for ascending pairs, a segment of them for each outer, and one for the pairs of
// outer 0 that stand behind those that come first. A guess is checked in the list, so nothing is said of what the index holds.
//    9,088   by segment, outers first, the slot where it starts
//    9,345   the shift: a slot is for 2^shift inners
//   12,288   by slot, modulo 4,096, the place of the first pair in it
#![tactic(auto)]

ghost use Rattle.std.specs.Prelude.{◌≡◌, false, ◌+◌, ◌*◌, ◌≤◌, ◌<◌, IfSome, length, take};
ghost use Rattle.lists.specs.Search.{place};
ghost use Rattle.rules.specs.Lists.{outer, twice};
ghost use Rattle.numbering.specs.Numbered.{Among, Numbered, Numbered-prop, Renumbered};

use rules::{Pair, WorkArea};

// The kept pairs of a table: the first `count` numbers of the work area, with the starts and the new numbers of their runs behind them.
#[derive(Clone, Copy)]
pub struct KeptPairs<'a> {
    pub work: &'a WorkArea,
    pub count: usize,
    pub ghost numbered: { Numbered work.now count } by { Numbered-prop work.now count },
}

// The segment that a pair would begin behind the last one: in the same outer, that is the second of outer 0, which stands behind those of all outers.
fn segment_at(last: u32, pair: u32) -> usize
    requires { outer pair < 256 }
    ensures { result ≤ 256 }
{
    if last / 65536 == pair / 65536 {
        256
    } else {
        (pair / 65536) as usize
    }
}

// A pair's slot in its segment.
fn spot_of(pair: u32, shift: u32) -> usize
    requires { shift < 16 }
    ensures { result < 65536 }
{
    ((pair % 65536) >> shift) as usize
}

// Where a pair's segment starts. If the pair begins one, that is behind the last pair's slot, and is noted.
fn segment_start(work: &mut WorkArea, start: usize, slot: usize, last: u32, pair: u32) -> usize
    requires { (start ≤ slot) × (slot ≤ 536870912) × (outer pair < 256) }
    ensures upper_bound { result ≤ slot + 1 }
    ensures work_unchanged { take 9088 work.new ≡ take 9088 work.old }
{
    let segment = segment_at(last, pair);
    if segment == 256 && last < pair {
        return start;
    }
    let next = slot + 1;
    work[9088 + segment] = next as u32;
    next
}

// Notes that the pair at k stands in a slot, if it is the first there: if the last one stands in another.
fn note_place(work: &mut WorkArea, last: usize, slot: usize, k: usize)
    requires { k < 8192 }
    ensures { take 9088 work.new ≡ take 9088 work.old }
{
    if slot != last {
        work[12288 + slot % 4096] = k as u32;
    }
}

// Makes the index of the n kept pairs, a slot for 2^shift inners; gives the last slot. They start at 1.
fn index_by(work: &mut WorkArea, n: usize, shift: u32) -> usize
    requires numbered { Numbered work.old n }
    requires shift_bound { shift < 16 }
    ensures upper_bound { result ≤ 536870912 }
    ensures work_unchanged { take 9088 work.new ≡ take 9088 work.old }
{
    work[9345] = shift;
    // No pair has this one's outer, so the first begins a segment.
    let mut last = u32::MAX;
    let mut start = 0;
    let mut slot = 0;
    for k in 0..n {
        let pair = work[k];
        start = segment_start(work, start, slot, last, pair);
        let next = start + spot_of(pair, shift);
        note_place(work, slot, next, k);
        slot = next;
        last = pair;
    }
    slot
}

// A shift with which so many slots find room, but for one more a segment.
fn shift_for(slots: usize) -> u32
    requires { (0 < slots) × (slots ≤ 536870912) }
    ensures { result < 15 }
{
    bits::inner_bits(((slots - 1) / 4096) as u32) % 15
}

// Makes the index. Past 4,096 slots would stand on others: then a slot is for several inners.
pub fn index(work: &mut WorkArea, n: usize)
    requires { Numbered work.old n }
    ensures { take 9088 work.new ≡ take 9088 work.old }
{
    let slots = index_by(work, n, 0);
    if 4096 < slots {
        let shift = shift_for(slots);
        if 4096 < index_by(work, n, shift) {
            index_by(work, n, shift + 1);
        }
    }
}

// The check of a guess: the place of a number that stands at h or less than 32 behind it, with lesser ones between.
// No number stands twice, so where it is found is its place.
fn place_near(list: &[u32], h: usize, x: u32) -> Option<usize>
    requires list_value { twice list.now ≡ false }
    requires h_bound { h ≤ 4294967295 }
    ensures { IfSome result (λ i. i ≡ place x list.now) }
{
    for i in h..list.len().min(h + 32) {
        if list[i] == x {
            return Some(i);
        }
        if x < list[i] {
            return None;
        }
    }
    None
}

// The place of a number; the length where it doesn't stand.
fn place_among(list: &[u32], x: u32) -> usize
    ensures value { result ≡ place x list.now }
    ensures upper_bound { result ≤ length list.now }
{
    list.iter().position(|y| x == *y).unwrap_or(list.len())
}

impl KeptPairs<'_> {
    // Where a pair stands by the index, if it stands in the segment: there, or a little behind where a slot is for several inners.
    fn guess(&self, segment: usize, inner: u32) -> usize
        requires { (segment ≤ 256) × (inner < 65536) }
        ensures { result ≤ 4294967295 }
    {
        let work = self.work;
        let spot = spot_of(inner, work[9345] % 16);
        let slot = (work[9088 + segment] as usize + spot) % 4096;
        work[12288 + slot] as usize
    }

    // The place of a kept pair in the list: by the first of the two guesses that holds, or else what a walk through its run finds.
    fn place_of(&self, p: Pair) -> usize
        requires { Among (take self.now.count self.now.work.now) p }
        ensures { result ≡ place (p.outer * 65536 + p.inner) (take self.now.count self.now.work.now) }
    {
        let work = self.work;
        let kept = &work[..self.count];
        let outer = p.outer as usize;
        let inner = p.inner;
        let pair = p.outer * 65536 + p.inner;
        if let Some(first) = place_near(kept, self.guess(outer, inner), pair) {
            return first;
        }
        if let Some(second) = place_near(kept, self.guess(256, inner), pair) {
            return second;
        }
        let from = work[8192 + outer] as usize;
        from + place_among(&kept[from..], pair)
    }

    // A kept pair's new outer and new inner: the number of its outer's run, and its place in it.
    pub fn renumbered(&self, p: Pair) -> Pair
        requires { Among (take self.now.count self.now.work.now) p }
        ensures { Renumbered (take self.now.count self.now.work.now) (p.outer * 65536 + p.inner) result }
    {
        let outer = p.outer as usize;
        let at = self.place_of(p);
        Pair {
            outer: self.work[8448 + outer],
            inner: (at - self.work[8192 + outer] as usize) as u32,
        }
    }
}
