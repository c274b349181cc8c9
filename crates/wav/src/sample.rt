// Samples from their bits.
ghost use Rattle.std.specs.Prelude.{◌≡◌, ◌+◌, ◌<◌, ◌≤◌};
ghost use Rattle.wav.specs.Sample.{Power, part_of, pcm_of, pcm8_of, mu_of, a_of, float_of, float64_of, sample_in, bytes_in};

use numeric::convert::narrow;

// How samples are written.
#[derive(Clone, Copy)]
pub enum Encoding {
    MuLaw,
    ALaw,
    Pcm8,
    Pcm16,
    Pcm24,
    Pcm32,
    Float32,
    Float64,
}

// n / d, which an f64 holds exactly, as the nearest f32.
fn part(n: u64, d: u64) -> f32
    requires { (n ≤ 0x1_0000_0000) × Power d }
    ensures { result ≡ part_of n d }
{
    narrow((n as f64) / (d as f64))
}

// Two's complement, in parts of half the range.
fn pcm(n: u64, half: u64) -> f32
    requires { (n < half + half) × (half ≤ 0x8000_0000) × Power half }
    ensures { result ≡ pcm_of half n }
{
    if n < half {
        return part(n, half);
    }
    -part(half + half - n, half)
}

// Eight bits have no sign, and 128 is zero.
fn pcm_8(n: u64) -> f32
    requires { n < 256 }
    ensures { result ≡ pcm8_of n }
{
    pcm((n + 128) % 256, 128)
}

// The magnitudes of µ-law, bits inverted: segment by segment.
const MU: [u64; 128] = [
    0, 8, 16, 24, 32, 40, 48, 56, 64, 72, 80, 88, 96, 104, 112, 120, 132, 148, 164, 180, 196, 212,
    228, 244, 260, 276, 292, 308, 324, 340, 356, 372, 396, 428, 460, 492, 524, 556, 588, 620, 652,
    684, 716, 748, 780, 812, 844, 876, 924, 988, 1052, 1116, 1180, 1244, 1308, 1372, 1436, 1500,
    1564, 1628, 1692, 1756, 1820, 1884, 1980, 2108, 2236, 2364, 2492, 2620, 2748, 2876, 3004, 3132,
    3260, 3388, 3516, 3644, 3772, 3900, 4092, 4348, 4604, 4860, 5116, 5372, 5628, 5884, 6140, 6396,
    6652, 6908, 7164, 7420, 7676, 7932, 8316, 8828, 9340, 9852, 10364, 10876, 11388, 11900, 12412,
    12924, 13436, 13948, 14460, 14972, 15484, 15996, 16764, 17788, 18812, 19836, 20860, 21884,
    22908, 23932, 24956, 25980, 27004, 28028, 29052, 30076, 31100, 32124,
];

fn mu_law(n: u64) -> f32
    requires { n < 256 }
    ensures { result ≡ mu_of n }
{
    let m = (255 - n) as usize;
    if m < 128 {
        return part(MU[m], 32768);
    }
    -part(MU[m - 128], 32768)
}

// The magnitudes of A-law by the bits as they stand, every second inverted.
const A: [u64; 128] = [
    5504, 5248, 6016, 5760, 4480, 4224, 4992, 4736, 7552, 7296, 8064, 7808, 6528, 6272, 7040, 6784,
    2752, 2624, 3008, 2880, 2240, 2112, 2496, 2368, 3776, 3648, 4032, 3904, 3264, 3136, 3520, 3392,
    22016, 20992, 24064, 23040, 17920, 16896, 19968, 18944, 30208, 29184, 32256, 31232, 26112,
    25088, 28160, 27136, 11008, 10496, 12032, 11520, 8960, 8448, 9984, 9472, 15104, 14592, 16128,
    15616, 13056, 12544, 14080, 13568, 344, 328, 376, 360, 280, 264, 312, 296, 472, 456, 504, 488,
    408, 392, 440, 424, 88, 72, 120, 104, 24, 8, 56, 40, 216, 200, 248, 232, 152, 136, 184, 168,
    1376, 1312, 1504, 1440, 1120, 1056, 1248, 1184, 1888, 1824, 2016, 1952, 1632, 1568, 1760, 1696,
    688, 656, 752, 720, 560, 528, 624, 592, 944, 912, 1008, 976, 816, 784, 880, 848,
];

fn a_law(n: u64) -> f32
    requires { n < 256 }
    ensures { result ≡ a_of n }
{
    let m = n as usize;
    if m < 128 {
        return -part(A[m], 32768);
    }
    part(A[m - 128], 32768)
}

// The f32 with these bits.
fn float_32(bits: u32) -> f32
    ensures { result ≡ float_of bits }
{
    if 0x7F80_0000 < bits % 0x8000_0000 {
        return 0.0 / 0.0;
    }
    f32::from_bits(bits)
}

// The f32 nearest to the f64 with these bits.
fn float_64(bits: u64) -> f32
    ensures { result ≡ float64_of bits }
{
    if 0x7FF0_0000_0000_0000 < bits % 0x8000_0000_0000_0000 {
        return 0.0 / 0.0;
    }
    narrow(f64::from_bits(bits))
}

// The sample whose bytes are the upper ones of these eight.
pub fn sample(encoding: Encoding, word: u64) -> f32
    ensures { result ≡ sample_in encoding word }
{
    match encoding {
        Encoding::MuLaw => mu_law(word / 0x100_0000_0000_0000),
        Encoding::ALaw => a_law(word / 0x100_0000_0000_0000),
        Encoding::Pcm8 => pcm_8(word / 0x100_0000_0000_0000),
        Encoding::Pcm16 => pcm(word / 0x1_0000_0000_0000, 32768),
        Encoding::Pcm24 => pcm(word / 0x100_0000_0000, 0x80_0000),
        Encoding::Pcm32 => pcm(word / 0x1_0000_0000, 0x8000_0000),
        Encoding::Float32 => float_32((word / 0x1_0000_0000) as u32),
        Encoding::Float64 => float_64(word),
    }
}

// The bytes of a sample.
pub fn bytes_in(encoding: Encoding) -> u32
    ensures { result ≡ bytes_in encoding }
{
    match encoding {
        Encoding::MuLaw | Encoding::ALaw | Encoding::Pcm8 => 1,
        Encoding::Pcm16 => 2,
        Encoding::Pcm24 => 3,
        Encoding::Pcm32 | Encoding::Float32 => 4,
        Encoding::Float64 => 8,
    }
}
