// What the programs that play recorded calls share: a record's parts, and lent memory, marked before a call and looked at after it.
#![tactic(auto)]

ghost use Rattle.std.specs.Prelude.{◌≡◌, ◌*◌, ◌<◌, ℕ, length, take, get_or, true, IfOk};
ghost use Rattle.cells.specs.Be.{be};

use cells::number_at;
use rules::{Answer, WORK_LENGTH};
use std::io::Read;

pub const OUT_MARK: u8 = 165;

pub const WORK_MARK: u32 = 7;

// A record ends too early, or a part of it is longer than any should be.
#[derive(Clone, Copy)]
pub struct Broken;

// Reads a part of a record.
pub fn read_part<'a>(file: &mut impl Read, buf: &'a mut [u8], n: usize) -> Result<&'a [u8], Broken>
    ensures { IfOk result (λ part. length part.now ≡ n) }
{
    let part = buf.get_mut(..n).ok_or(Broken)?;
    file.read_exact(part).map_err(|_| Broken)?;
    Ok(part)
}

// The numbers of a list.
pub fn numbers(raw: &[u8], list: &mut [u32])
    requires { length raw.now ≡ 4 * length list.old }
    ensures { (i : ℕ) → i < length list.new → get_or list.new i 0 ≡ be 4 raw.now (4 * i) }
{
    for (i, number) in list.iter_mut().enumerate() {
        *number = number_at::<4>(raw, 4 * i);
    }
}

// The numbers at the head of a record.
pub fn head<const N: usize>(raw: &[u8]) -> [u32; N]
    requires { length raw.now ≡ 4 * N }
    ensures { (i : ℕ) → i < N → get_or result i 0 ≡ be 4 raw.now (4 * i) }
{
    let mut head = [0; N];
    numbers(raw, &mut head);
    head
}

// Whether a call gives the refusal's number, or none and the length.
pub fn answers(answer: Answer, number: u32, length: usize) -> bool {
    match answer {
        Ok(n) => number == 0 && n == length,
        Err(r) => u32::from(r) == number && length == 0,
    }
}

// Whether the output starts with the answer and is marked past it.
pub fn holds(out: &[u8], answer: &[u8]) -> bool
    ensures { result ≡ true → take (length answer.now) out.now ≡ answer.now }
{
    out.strip_prefix(answer)
        .is_some_and(|rest| rest.iter().all(|b| *b == OUT_MARK))
}

// Whether the work area is as a call leaves it: marked past the numbers that it clears, of which a refusal 1 clears none.
pub fn left(work: &[u32], number: u32) -> bool {
    let cleared = if number == 1 { 0 } else { WORK_LENGTH };
    work.iter()
        .enumerate()
        .all(|(i, w)| *w == if i < cleared { 0 } else { WORK_MARK })
}
