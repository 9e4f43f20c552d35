// What one part holds, copied to another: one element after the other, or bytes in blocks.
#![tactic(auto)]

ghost use Rattle.std.specs.Prelude.{◌+◌, ◌≤◌, ◌≡◌, true, length, take};

// Copies a part into one of its length, one element after the other. The library's copy, where the length isn't known, is a call of the C
// library's `memmove`: the archive for C would need that, and it is dear for a few bytes.
pub fn copy<T: Copy>(out: &mut [T], s: &[T])
    requires { length out.old ≡ length s.now }
    ensures { out.new ≡ s.now }
{
    for (i, x) in s.iter().enumerate() {
        out[i] = *x;
    }
}

// By way of a block of its own: the compiler then moves all 32 bytes at once, as it need not ask whether the two parts overlap.
fn copy_block(out: &mut [u8], s: &[u8])
    requires { (length out.old ≡ 32) × (length s.now ≡ 32) }
    ensures { out.new ≡ s.now }
{
    let mut block = [0; 32];
    block.copy_from_slice(s);
    out.copy_from_slice(&block);
}

// Whether a part of a bytes and one of b have room for n, and for what the last block may reach past them.
fn has_blocks(a: usize, b: usize, n: usize) -> bool
    requires { (n ≤ a) × (n ≤ b) }
    ensures { result ≡ true → (n + 31 ≤ a) × (n + 31 ≤ b) }
{
    31 <= a - n && 31 <= b - n
}

// Copies n bytes, in blocks if there is room: the last one may reach past them, so what the output holds there is not promised.
// A block holds most rows whole, so the loop mostly ends after one turn, which a processor foretells best.
pub fn copy_ahead(out: &mut [u8], s: &[u8], n: usize)
    requires { (n ≤ length out.old) × (n ≤ length s.now) }
    ensures { take n out.new ≡ take n s.now }
{
    if !has_blocks(out.len(), s.len(), n) {
        copy(&mut out[..n], &s[..n]);
        return;
    }
    let blocks = n.div_ceil(32);
    for k in 0..blocks {
        let (at, end) = (32 * k, 32 * k + 32);
        copy_block(&mut out[at..end], &s[at..end]);
    }
}
