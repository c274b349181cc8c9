// Between f32 and f64, and whether a sample is within ±1.
ghost use Rattle.std.specs.Prelude.{◌≡◌, ◌^◌, ◌<◌, ◌≤◌, true, ◌&&◌};
ghost use Rattle.std.specs.Float.Ieee.Nearest.{closest};
ghost use Rattle.numeric.specs.Convert.{narrowed, in_range};
ghost use Rattle.numeric.specs.Patterns.{digits, narrow_bits, plain};
ghost use Rattle.numeric.specs.Sines.{EachOf};

// The same number; a NaN gives a NaN.
pub fn widen(x: f32) -> f64
    ensures { result ≡ x }
{
    std::num::f32_to_f64_with_nan(x)
}

// d / u to the nearest whole number, at a tie to the even one.
fn nearest_even(d: u64, u: u64) -> u64
    requires u_nonzero { 0 < u }
    requires u_bound { u ≤ 2 ^ 54 }
    requires d_bound { d < 2 ^ 63 }
    ensures { result ≡ closest d u }
{
    let q = d / u;
    let r = d % u;
    let t = r * 2;
    if t < u {
        q
    } else if u < t {
        q + 1
    } else {
        q + q % 2
    }
}

// The same for u = 2 ^ 29, without a branch: what is cut off a sample is as good as random.
fn nearest_even_29(d: u64) -> u64
    requires { d < 2 ^ 63 }
    ensures { result ≡ closest d 0x2000_0000 }
{
    (d + 0xFFF_FFFF + d / 0x2000_0000 % 2) / 0x2000_0000
}

// The digits that an f32 keeps of an f64's bits, whose sign is off: see specs/Patterns.antt.
fn kept_digits(b: u64) -> u64
    requires { b < 2 ^ 63 }
    ensures { result ≡ digits b }
{
    if 0x3810_0000_0000_0000 <= b {
        nearest_even_29(b - 0x3800_0000_0000_0000)
    } else if 0x3680_0000_0000_0000 <= b {
        nearest_even(
            b % 0x10_0000_0000_0000 + 0x10_0000_0000_0000,
            1u64 << (926 - b / 0x10_0000_0000_0000),
        )
    } else {
        0
    }
}

// An f32's bits for an f64's, the signs off.
#[tactic(auto, unfolding(crate::specs::Patterns::narrow_bits))]
fn narrow_bits(b: u64) -> u64
    requires { b < 2 ^ 63 }
    ensures { result ≡ narrow_bits b }
{
    kept_digits(b).min(0x7F80_0000)
}

// The nearest f32, at a tie the even one. No branch on the sign, which in a tone changes too often to be foreseen.
pub fn narrow(x: f64) -> f32
    ensures { result ≡ narrowed x }
{
    if x != x {
        return 0.0 / 0.0;
    }
    let b = f64::to_bits(x);
    let sign = b / 0x8000_0000_0000_0000;
    let kept = narrow_bits(b % 0x8000_0000_0000_0000);
    f32::from_bits((sign * 0x8000_0000 + kept) as u32)
}

// ---- four f32s

#[derive(Clone, Copy)]
pub struct FourNarrowed {
    pub first: f32,
    pub second: f32,
    pub third: f32,
    pub fourth: f32,
}

// Whether x is from 2 ^ -126 on and below 2 ^ 127, with either sign.
fn is_plain(x: f64) -> bool
    ensures { result ≡ plain x }
{
    if x != x {
        return false;
    }
    let b = f64::to_bits(x) % 0x8000_0000_0000_0000;
    0x3810_0000_0000_0000 <= b && b < 0x47E0_0000_0000_0000
}

// `narrow` of such a number: its bits are rounded to those of an f32, taken as an f64, and the cast is exact.
fn narrow_plain(x: f64) -> f32
    requires { plain x ≡ true }
    ensures { result ≡ narrowed x }
{
    let b = f64::to_bits(x);
    let r = (b + 0xFFF_FFFF + b / 0x2000_0000 % 2) / 0x2000_0000 * 0x2000_0000;
    f64::from_bits(r) as f32
}

// Whether all four are such numbers.
fn all_plain(x: f64, y: f64, z: f64, w: f64) -> bool
    ensures { result ≡ (plain x && (plain y && (plain z && plain w))) }
{
    is_plain(x) && is_plain(y) && is_plain(z) && is_plain(w)
}

// The nearest f32 of each. Samples of a tone are plain but for a few, and with no branch between them four are cast together.
pub fn narrow_four(x: f64, y: f64, z: f64, w: f64) -> FourNarrowed
    ensures { EachOf narrowed x y z w result.first result.second result.third result.fourth }
{
    if all_plain(x, y, z, w) {
        return FourNarrowed {
            first: narrow_plain(x),
            second: narrow_plain(y),
            third: narrow_plain(z),
            fourth: narrow_plain(w),
        };
    }
    FourNarrowed {
        first: narrow(x),
        second: narrow(y),
        third: narrow(z),
        fourth: narrow(w),
    }
}

// ---- samples

// Whether a sample is finite and within ±1.
pub fn in_range(x: f32) -> bool
    ensures { result ≡ in_range x }
{
    x >= -1.0 && x <= 1.0
}

// The same of an f64.
pub fn wide_in_range(sample: f64) -> bool
    ensures { result ≡ in_range sample }
{
    sample >= -1.0 && sample <= 1.0
}
