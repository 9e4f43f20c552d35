// Numbers in bytes: big-endian cells, unsigned and signed, read and written.
#![tactic(auto)]

ghost use Rattle.std.specs.Prelude.{◌≡◌, ◌+◌, ◌≤◌, ◌<◌, ◌^◌, length};
ghost use Rattle.std.specs.Int.Signed.{mag as magnitude};
ghost use Rattle.cells.specs.Be.{be_bytes, Cell, Wrote};
ghost use Rattle.cells.specs.Sign.{sign, signed_at, Size};

// The number in the N bytes from `at` on: one function over the width, as an entry has 3 bytes too, for which the library has no type.
pub fn number_at<const N: usize>(s: &[u8], at: usize) -> u32
    requires few { N ≤ 4 }
    requires in_bounds { at + N ≤ length s.now }
    ensures { Cell N s.now at result }
{
    let mut n = 0;
    for b in &s[at..at + N] {
        n = n * 256 + u32::from(*b);
    }
    n
}

// A map's entry has 1 to 4 bytes.
pub fn entry_at(s: &[u8], at: usize, size: usize) -> u32
    requires le_size { (1 ≤ size) × (size ≤ 4) }
    requires size_in_bounds { at + size ≤ length s.now }
    ensures { Cell size s.now at result }
{
    match size {
        1 => number_at::<1>(s, at),
        2 => number_at::<2>(s, at),
        3 => number_at::<3>(s, at),
        _ => number_at::<4>(s, at),
    }
}

// Writes the low N bytes of any number.
pub fn put_number<const N: usize>(out: &mut [u8], at: usize, v: u32)
    requires { at + N ≤ length out.old }
    ensures { Wrote out.old at (be_bytes N v) out.new }
{
    let mut left = v;
    for i in (0..N).rev() {
        out[at + i] = (left % 256) as u8;
        left /= 256;
    }
}

pub fn put_entry(out: &mut [u8], at: usize, size: usize, v: u32)
    requires le_size { (1 ≤ size) × (size ≤ 4) }
    requires size_in_bounds { at + size ≤ length out.old }
    ensures { Wrote out.old at (be_bytes size v) out.new }
{
    match size {
        1 => put_number::<1>(out, at, v),
        2 => put_number::<2>(out, at, v),
        3 => put_number::<3>(out, at, v),
        _ => put_number::<4>(out, at, v),
    }
}

// The number `u` of a cell of any width, as two's complement with the sign at `half`. `!` crosses the sign without leaving 32 bits,
// at the least number too.
pub fn signed(u: u32, half: u32) -> i32
    requires { (half ≤ 2 ^ 31) × (u < half + half) }
    ensures { result ≡ sign half u }
{
    if u < half {
        u as i32
    } else {
        !((half - 1 - (u - half)) as i32)
    }
}

pub fn cell(s: &[u8], at: usize, size: usize) -> i32
    requires size { Size size }
    requires size_in_bounds { at + size ≤ length s.now }
    ensures { result ≡ signed_at size s.now at }
{
    if size == 1 {
        signed(number_at::<1>(s, at), 128)
    } else if size == 2 {
        signed(number_at::<2>(s, at), 32768)
    } else {
        signed(number_at::<4>(s, at), 2147483648)
    }
}

// How far a number lies from zero, on either side: n both for n and for -(n + 1). So -(j + 1)..=j is mag(x) <= j.
pub fn mag(x: i32) -> u32
    ensures { result ≡ magnitude x }
{
    if x < 0 { !x as u32 } else { x as u32 }
}
