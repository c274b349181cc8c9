// Floats from their patterns, and patterns of floats.
ghost use Rattle.std.specs.Prelude.{◌≡◌, ◌<◌, length};

use crate::print;

// The f32 with this pattern, of which the low 32 bits count.
pub fn single(pattern: u64) -> f32 {
    let bits = pattern % 0x1_0000_0000;
    if 0x7F80_0000 < bits % 0x8000_0000 {
        return 0.0 / 0.0;
    }
    f32::from_bits(bits as u32)
}

// The f64 with this pattern.
fn double(pattern: u64) -> f64 {
    if 0x7FF0_0000_0000_0000 < pattern % 0x8000_0000_0000_0000 {
        return 0.0 / 0.0;
    }
    f64::from_bits(pattern)
}

// Each pattern's f32, as far as there is room.
pub fn singles(patterns: &[u64], out: &mut [f32])
    ensures { length out.new ≡ length out.old }
{
    for i in 0..patterns.len().min(out.len()) {
        out[i] = single(patterns[i]);
    }
}

// Each pattern's f64, as far as there is room.
pub fn doubles(patterns: &[u64], out: &mut [f64])
    ensures { length out.new ≡ length out.old }
{
    for i in 0..patterns.len().min(out.len()) {
        out[i] = double(patterns[i]);
    }
}

// A line with the pattern; a NaN has none of its own.
fn print_pattern(x: f64) {
    if x != x {
        io::write_all(1, b"nan\n");
        return;
    }
    io::print_hex(1, f64::to_bits(x), 16);
    io::write_all(1, b"\n");
}

// The first n, a line for each.
pub fn print_patterns(list: &[f64], n: usize) {
    for &x in &list[..n.min(list.len())] {
        print_pattern(x);
    }
}

// The pattern of an f32; of every NaN that of the quiet one.
fn pattern_of(x: f32) -> u32 {
    if x != x {
        return 0x7FC0_0000;
    }
    f32::to_bits(x)
}

// Each pattern, on a line of its own.
pub fn print_singles(list: &[f32]) {
    for &x in list {
        print::pattern(pattern_of(x) as u64);
        print::end_line();
    }
}

// The sum with one more pattern.
fn longer_sum(sum: u64, pattern: u32) -> u64
    requires { sum < 4294967296 }
    ensures { result < 4294967296 }
{
    (sum * 31 + pattern as u64) % 0x1_0000_0000
}

// A sum that tells the order too: from 0, 31 times the sum so far plus the next pattern, modulo 4,294,967,296.
pub fn sum_of_patterns(list: &[f32]) -> u64 {
    let mut sum = 0;
    for &x in list {
        sum = longer_sum(sum, pattern_of(x));
    }
    sum
}
