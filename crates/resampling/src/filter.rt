// The filter: sums over a ring of the newest samples.
ghost use Rattle.std.specs.Prelude.{◌≡◌, ◌<◌, take};
ghost use Rattle.resampling.specs.Filter.{filtered, newest};
ghost use Rattle.resampling.specs.FilterRep.{ring_back, ring_next, walk, Placed, Filtered, AllFiltered, TwoFiltered};

use crate::design::MAX_TAPS;

pub fn ring_back(n: usize, idx: usize) -> usize
    requires { idx < n }
    ensures { (result ≡ ring_back n idx) × (result < n) }
{
    if idx == 0 { n - 1 } else { idx - 1 }
}

pub fn ring_next(n: usize, pos: usize) -> usize
    requires { pos < n }
    ensures { (result ≡ ring_next n pos) × (result < n) }
{
    let next = pos + 1;
    if next >= n { 0 } else { next }
}

// `Placed` is asked of each function from here on: the history alone is lent to be written, and its place goes by value with what moves, so that
// no struct could hold all that it speaks of without being taken apart at each sample.

// The filter's output over a ring of n whose newest sample is at pos.
fn fir_sum(taps: &[f64; MAX_TAPS], hist: &[f64; MAX_TAPS], n: usize, pos: usize) -> f64
    requires { Placed n pos taps.now hist.now }
    ensures { result ≡ filtered (take n taps.now) (walk n n pos hist.now) }
{
    let mut acc = 0.0;
    let mut idx = pos;
    for i in 0..n {
        acc = acc + taps[i] * hist[idx];
        idx = ring_back(n, idx);
    }
    acc
}

// The filter's output for a sample, and for the one after it.
#[derive(Clone, Copy)]
pub struct Two {
    pub first: f64,
    pub second: f64,
}

// The filter's output over a ring of n whose newest sample is at pos, and over the same with one sample more, `later`. The two sums stand
// in one loop, each in its own order, since an addition of one need not wait for the other.
pub fn fir_sums(
    taps: &[f64; MAX_TAPS],
    hist: &[f64; MAX_TAPS],
    n: usize,
    pos: usize,
    later: f64,
) -> Two
    requires { Placed n pos taps.now hist.now }
    ensures first_value { result.first ≡ filtered (take n taps.now) (walk n n pos hist.now) }
    ensures second_value { result.second ≡ filtered (take n taps.now) (newest later (walk n n pos hist.now)) }
{
    let mut first = 0.0;
    let mut second = 0.0 + taps[0] * later;
    let mut idx = pos;
    for i in 0..n - 1 {
        let x = hist[idx];
        first = first + taps[i] * x;
        second = second + taps[i + 1] * x;
        idx = ring_back(n, idx);
    }
    first = first + taps[n - 1] * hist[idx];
    Two { first, second }
}

// One sample through the filter: it goes to pos, and the next will go to the place after.
pub fn fir_push(
    taps: &[f64; MAX_TAPS],
    hist: &mut [f64; MAX_TAPS],
    n: usize,
    pos: usize,
    x: f64,
) -> f64
    requires { Placed n pos taps.now hist.old }
    ensures { Filtered n pos taps.now x hist.old hist.new result }
{
    hist[pos] = x;
    fir_sum(taps, hist, n, pos)
}

// Two samples through the filter: x goes to pos, and `later` to the place after.
fn fir_push_two(
    taps: &[f64; MAX_TAPS],
    hist: &mut [f64; MAX_TAPS],
    n: usize,
    pos: usize,
    x: f64,
    later: f64,
) -> Two
    requires { Placed n pos taps.now hist.old }
    ensures { TwoFiltered n pos taps.now x later hist.old hist.new result }
{
    hist[pos] = x;
    let y = fir_sums(taps, hist, n, pos, later);
    let next = ring_next(n, pos);
    hist[next] = later;
    y
}

// Every sample through the filter, two at a time, and each output where its sample was. Answers the place of the next sample.
pub fn filter_all(
    taps: &[f64; MAX_TAPS],
    hist: &mut [f64; MAX_TAPS],
    n: usize,
    pos: usize,
    samples: &mut [f64],
) -> usize
    requires { Placed n pos taps.now hist.old }
    ensures { AllFiltered n pos result taps.now samples.old hist.old hist.new samples.new }
{
    let mut place = pos;
    // As in `feed_pairs`.
    let mut i = 0;
    while i + 1 < samples.len() {
        let y = fir_push_two(taps, hist, n, place, samples[i], samples[i + 1]);
        samples[i] = y.first;
        samples[i + 1] = y.second;
        place = ring_next(n, ring_next(n, place));
        i += 2;
    }
    if i < samples.len() {
        samples[i] = fir_push(taps, hist, n, place, samples[i]);
        return ring_next(n, place);
    }
    place
}
