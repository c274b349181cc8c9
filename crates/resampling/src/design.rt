// The low-pass filter's taps at a rate.
ghost use Rattle.std.specs.Prelude.{◌≡◌, map, ◌≤◌, ◌<◌, length, take};
ghost use Rattle.numeric.specs.F64.{◌⊘◌};
ghost use Rattle.numeric.specs.Counts.{tap_count};
ghost use Rattle.refusal.specs.Refusals.{highest_rate};
ghost use Rattle.resampling.specs.Design.{most_taps, cutoff_of, sinc, blackman, raw_tap, raw_taps, total, lowpass};

use numeric::arrays::filled;
use numeric::compare::absolute;
use numeric::counts::nearest;
use numeric::sine::{PI, TAU, cosine, sine};

// The most taps: those at the highest rate.
pub const MAX_TAPS: usize = 373;

const CUTOFF_HZ: f64 = 3600.0;

fn cutoff_of(fs: f64) -> f64
    ensures { result ≡ cutoff_of fs }
{
    if fs * 0.49 < CUTOFF_HZ {
        fs * 0.49
    } else {
        CUTOFF_HZ
    }
}

fn sinc_at(cutoff: f64, t: f64) -> f64
    ensures { result ≡ sinc cutoff t }
{
    if absolute(t) < 1e-12 {
        2.0 * cutoff
    } else {
        sine(TAU * cutoff * t) / (PI * t)
    }
}

fn blackman_at(x: f64) -> f64
    ensures { result ≡ blackman x }
{
    0.42 - 0.5 * cosine(TAU * x) + 0.08 * cosine(2.0 * TAU * x)
}

pub fn tap_count(fs: u32) -> usize
    requires { fs ≤ highest_rate }
    ensures { (result ≡ tap_count fs) × (0 < result) × (result ≤ most_taps) }
{
    nearest(62 * (fs as u64), 8000) as usize + 1
}

fn raw_tap(fs: u32, n: usize, i: usize) -> f64
    requires { (n ≡ tap_count fs) × (i < n) × (n ≤ most_taps) }
    ensures { result ≡ raw_tap fs i }
{
    let rate = fs as f64;
    let span_s = 62.0 / 8000.0;
    let k = i as f64;
    let m = (n - 1) as f64;
    let t = k / rate - span_s / 2.0;
    let s = sinc_at(cutoff_of(rate), t);
    s * blackman_at(k / m)
}

fn raw_taps(fs: u32, n: usize) -> [f64; MAX_TAPS]
    requires { (n ≡ tap_count fs) × (n ≤ most_taps) }
    ensures { take n result ≡ raw_taps fs }
{
    let mut taps = filled(0.0);
    for i in 0..n {
        taps[i] = raw_tap(fs, n, i);
    }
    taps
}

fn sum_of(taps: &[f64; MAX_TAPS], n: usize) -> f64
    requires { (n ≤ most_taps) × (length taps.now ≡ most_taps) }
    ensures { result ≡ total (take n taps.now) }
{
    let mut sum = 0.0;
    for i in 0..n {
        sum = sum + taps[i];
    }
    sum
}

fn normalise(mut taps: [f64; MAX_TAPS], n: usize, sum: f64) -> [f64; MAX_TAPS]
    requires { n ≤ most_taps }
    ensures { take n result ≡ map (λ x. x ⊘ sum) (take n taps) }
{
    for i in 0..n {
        taps[i] = taps[i] / sum;
    }
    taps
}

pub fn design_lowpass(fs: u32, n: usize) -> [f64; MAX_TAPS]
    requires { (n ≡ tap_count fs) × (n ≤ most_taps) }
    ensures { take n result ≡ lowpass fs }
{
    let raw = raw_taps(fs, n);
    let sum = sum_of(&raw, n);
    normalise(raw, n, sum)
}
