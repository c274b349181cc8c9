// Samples as bytes, low byte first: floats of 32 bits, or PCM of 16; and the table's, which are whole numbers.
ghost use Rattle.std.specs.Prelude.{◌≡◌, ◌+◌, ◌*◌, ◌<◌, ◌≤◌, length, take, to_bits};
ghost use Rattle.std.specs.Float.{binary32};
ghost use Rattle.send_app.specs.Header.{width_of};
ghost use Rattle.send_app.specs.Bytes.{nearest16, pcm16_of, sixteen_of, with_half, placed, block_bytes, table_bytes};

use crate::header::put_word;
use crate::words::Kind;
use numeric::convert::widen;

// A sample's bits. No sample of the sender's is a NaN; one would be written as the plain one.
fn pattern_of(x: f32) -> u32
    ensures { result ≡ to_bits binary32 x }
{
    if x != x {
        return 0x7FC0_0000;
    }
    f32::to_bits(x)
}

// The whole number nearest to 32,767 y, for a y from 0 to 1: twice that is a number that an f64 holds.
fn nearest_16(y: f64) -> u16
    ensures { (result ≡ nearest16 y) × (result < 32768) }
{
    let twice = y * 65534.0;
    if twice > -1.0 {
        if twice < 65534.0 {
            return ((std::num::truncating_f64_to_u64(twice) + 1) / 2) as u16;
        }
        return 32767;
    }
    0
}

// The same with a sign, in two's complement.
#[tactic(auto, unfolding(crate::specs::Bytes::pcm16_of))]
fn pcm_16(x: f32) -> u16
    ensures { result ≡ pcm16_of x }
{
    let y = widen(x);
    if y < 0.0 {
        return nearest_16(-y).wrapping_neg();
    }
    nearest_16(y)
}

// Two bytes, from `at` on, low byte first.
fn put_half(bytes: &mut [u8], at: usize, n: u16)
    requires { at + 2 ≤ length bytes.old }
    ensures { bytes.new ≡ with_half bytes.old at n }
{
    let [b0, b1] = n.to_le_bytes();
    bytes[at] = b0;
    bytes[at + 1] = b1;
}

// A sample's bytes, from `at` on.
fn put_sample(kind: Kind, bytes: &mut [u8], at: usize, x: f32)
    requires { at + width_of kind ≤ length bytes.old }
    ensures { bytes.new ≡ placed kind bytes.old at x }
{
    match kind {
        Kind::Float => put_word(bytes, at, pattern_of(x)),
        Kind::Pcm16 => put_half(bytes, at, pcm_16(x)),
    }
}

// Where the i-th sample begins.
pub fn offset(kind: Kind, i: usize) -> usize
    requires { i ≤ 1024 }
    ensures { result ≡ width_of kind * i }
{
    match kind {
        Kind::Float => 4 * i,
        Kind::Pcm16 => 2 * i,
    }
}

// The bytes of a block's samples, at the front.
pub fn pack(kind: Kind, samples: &[f32], bytes: &mut [u8; 4096])
    requires { (length samples.now ≤ 1024) × (length bytes.old ≡ 4096) }
    ensures bytes_after { take (width_of kind * length samples.now) bytes.new ≡ block_bytes kind samples.now }
    ensures bytes_len { length bytes.new ≡ 4096 }
{
    for i in 0..samples.len() {
        put_sample(kind, bytes, offset(kind, i), samples[i]);
    }
}

// The sixteen bits of a whole number, in two's complement.
#[tactic(auto, unfolding(crate::specs::Bytes::sixteen_of))]
fn sixteen_bits(x: i32) -> u16
    ensures { result ≡ sixteen_of x }
{
    (x.cast_unsigned() % 65536) as u16
}

// The bytes of a block of the table's samples, at the front.
pub fn pack_table(samples: &[i32], bytes: &mut [u8; 4096])
    requires { (length samples.now ≤ 1024) × (length bytes.old ≡ 4096) }
    ensures bytes_after { take (2 * length samples.now) bytes.new ≡ table_bytes samples.now }
    ensures bytes_len { length bytes.new ≡ 4096 }
{
    for i in 0..samples.len() {
        let x = samples[i];
        put_half(bytes, 2 * i, sixteen_bits(x));
    }
}
