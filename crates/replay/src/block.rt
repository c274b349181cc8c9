// The block of samples or bytes that the next call takes, as patterns. A line that joins it answers how many are in it then, and one that is
// wrong, or finds no room, none.
ghost use Rattle.std.specs.Prelude.{◌≡◌, ◌<◌, ◌≤◌, length, IfSome};

use crate::fields::{digit, number_at, numbers_of};

// A line of patterns.
pub fn several(block: &mut [u64], from: usize, line: &[u8]) -> Option<usize>
    requires { from ≤ length block.old }
    ensures { (IfSome result (λ n. n ≤ length block.old)) × (length block.new ≡ length block.old) }
{
    let mut n = from;
    let mut at = 1;
    while at < line.len() {
        let f = number_at(line, at, true)?;
        if f.next <= at || block.len() <= n {
            return None;
        }
        block[n] = f.value;
        n += 1;
        at = f.next;
    }
    Some(n)
}

// A line with a pattern and a count: the same so many times.
pub fn equal(block: &mut [u64], from: usize, line: &[u8]) -> Option<usize>
    requires { from ≤ length block.old }
    ensures { (IfSome result (λ n. n ≤ length block.old)) × (length block.new ≡ length block.old) }
{
    let [pattern, count] = numbers_of::<2>(line, true)?;
    if ((block.len() - from) as u64) < count {
        return None;
    }
    let end = from + count as usize;
    block[from..end].fill(pattern);
    Some(end)
}

// The f32 pattern itself, or with its sign turned where the bit is 0.
fn signed(size: u64, bit: u64) -> u64
    requires { size < 2147483648 }
{
    if bit == 0 { size + 0x8000_0000 } else { size }
}

// Four samples of one size, with their signs in a digit's bits, highest first.
fn four(block: &mut [u64], n: usize, size: u64, d: u64) -> Option<usize>
    requires { (n ≤ length block.old) × (size < 2147483648) }
    ensures { (IfSome result (λ n. n ≤ length block.old)) × (length block.new ≡ length block.old) }
{
    if block.len() - n < 4 {
        return None;
    }
    block[n] = signed(size, d / 8 % 2);
    block[n + 1] = signed(size, d / 4 % 2);
    block[n + 2] = signed(size, d / 2 % 2);
    block[n + 3] = signed(size, d % 2);
    Some(n + 4)
}

// Samples of one size with the signs in these digits.
fn all_signs(block: &mut [u64], from: usize, size: u64, digits: &[u8]) -> Option<usize>
    requires { (from ≤ length block.old) × (size < 2147483648) }
    ensures { (IfSome result (λ n. n ≤ length block.old)) × (length block.new ≡ length block.old) }
{
    let mut n = from;
    for &c in digits {
        let d = digit(c);
        if 16 <= d {
            return None;
        }
        n = four(block, n, size, d)?;
    }
    Some(n)
}

// A line with an f32 pattern without sign, and digits that say the signs.
pub fn signs(block: &mut [u64], from: usize, line: &[u8]) -> Option<usize>
    requires { from ≤ length block.old }
    ensures { (IfSome result (λ n. n ≤ length block.old)) × (length block.new ≡ length block.old) }
{
    let size = number_at(line, 1, true)?;
    let at = size.next;
    if line.len() <= at || line[at] != b' ' || 0x8000_0000 <= size.value {
        return None;
    }
    all_signs(block, from, size.value, &line[at + 1..])
}

// Each pattern's byte, which its low 8 bits are, as far as there is room.
pub fn bytes_of(patterns: &[u64], out: &mut [u8])
    ensures { length out.new ≡ length out.old }
{
    for i in 0..patterns.len().min(out.len()) {
        out[i] = (patterns[i] % 256) as u8;
    }
}
