// Lists of kept pairs: whether one keeps document 01's rules, and where the pairs of one outer end.
#![tactic(auto)]

ghost use Rattle.std.specs.Prelude.{◌≡◌, true, false, ◌++◌, ◌≤◌, ◌<◌, length, get_or, take, drop};
ghost use Rattle.lists.proofs.Ascending.{Rises};
ghost use Rattle.rules.specs.Lists.{outer, outers_fall, twice, bad_pairs};
ghost use Rattle.pairs.specs.Pairs.{Inners, Held, OneOuter, RunEnd};

use rules::WorkArea;

// Pairs whose outers don't fall.
#[derive(Clone, Copy)]
pub struct Climbing<'a> {
    pub pairs: &'a [u32],
    pub ghost climb: { outers_fall pairs.now ≡ false },
}

fn outers_fall(pairs: &[u32]) -> bool
    ensures { result ≡ outers_fall pairs.now }
{
    !pairs.is_sorted_by_key(|pair| *pair / 65536)
}

impl Climbing<'_> {
    // The set holds the inners of the outer that pair i has: it is cleared where that outer is a new one.
    fn turn_to(&self, set: &mut [u32], i: usize)
        requires i_in_bounds { i < length self.now.pairs.now }
        requires held { Held set.old self.now.pairs.now i }
        ensures { Inners set.new (outer (get_or self.now.pairs.now i 0)) (take i self.now.pairs.now) }
    {
        if i == 0 || self.pairs[i] / 65536 != self.pairs[i - 1] / 65536 {
            set.fill(0);
        }
    }

    // Whether a pair stands twice, in one pass: the inners of one outer at a time, as bits.
    fn stands_twice(&self, set: &mut [u32]) -> bool
        requires { length set.old ≡ 2048 }
        ensures { result ≡ twice self.now.pairs.now }
    {
        for (i, pair) in self.pairs.iter().enumerate() {
            self.turn_to(set, i);
            let inner = (*pair % 65536) as usize;
            if bits::contains(set, inner) {
                return true;
            }
            bits::put(set, inner);
        }
        false
    }

    // A place behind `from` up to which all pairs have its outer, 8 pairs at a time: as outers don't fall, the last of 8 speaks for the others.
    fn leap(&self, from: usize) -> usize
        requires { from < length self.now.pairs.now }
        ensures { OneOuter self.now.pairs.now from result × (result ≤ length self.now.pairs.now) }
    {
        let outer = self.pairs[from] / 65536;
        let (eights, _) = self.pairs[from + 1..].as_chunks::<8>();
        for (k, eight) in eights.iter().enumerate() {
            if eight[7] / 65536 != outer {
                return from + 1 + 8 * k;
            }
        }
        from + 1 + 8 * eights.len()
    }

    // The place of the first pair behind `from` that has another outer; their count where none has.
    pub fn end_of_run(&self, from: usize) -> usize
        requires { from < length self.now.pairs.now }
        ensures { RunEnd self.now.pairs.now (length self.now.pairs.now) from result }
    {
        let outer = self.pairs[from] / 65536;
        let start = self.leap(from);
        for k in start..self.pairs.len() {
            if self.pairs[k] / 65536 != outer {
                return k;
            }
        }
        self.pairs.len()
    }
}

// Whether each pair is above the one before it. No exit at the first that isn't: without one, the compiler compares several pairs at once.
fn rises(pairs: &[u32]) -> bool
    ensures { result ≡ true → Rises 0 pairs.now }
{
    let mut rises = true;
    for i in 1..pairs.len() {
        rises &= pairs[i - 1] < pairs[i];
    }
    rises
}

// 2. Pairs that rise need no set: no outer falls, and none stands twice.
pub fn bad_pairs(work: &mut WorkArea, pairs: &[u32]) -> bool
    ensures { result ≡ bad_pairs pairs.now }
{
    if pairs.len() > 8192 {
        return true;
    }
    if rises(pairs) {
        return false;
    }
    if outers_fall(pairs) {
        return true;
    }
    let pairs = Climbing { pairs };
    pairs.stands_twice(&mut work[9088..11136])
}

pub fn copy_pairs(work: &mut [u32], pairs: &[u32])
    requires { length pairs.now ≤ length work.old }
    ensures { work.new ≡ pairs.now ++ drop (length pairs.now) work.old }
{
    copies::copy(&mut work[..pairs.len()], pairs);
}
