// One sample in, one sample out. The filter's history is a ring here; the definitions read it as a list.
ghost use Rattle.std.specs.Prelude.{◌≡◌, List, ℕ, ◌≤◌, ◌<◌, length, take, Float};
ghost use Rattle.resampling.specs.Design.{most_taps};
ghost use Rattle.resampling.specs.Filter.{filtered, newest};
ghost use Rattle.resampling.specs.FilterRep.{history_of, Placed};
ghost use Rattle.resampling.specs.Flow.{windowed};
ghost use Rattle.resampling.specs.FlowRep.{flow_of, OnePushed, OneEmitted};

use crate::design::MAX_TAPS;
use crate::filter::{fir_push, fir_sums, ring_next};
use crate::hermite::hermite;

// What a resampler changes from sample to sample, but for the filter's history.
#[derive(Clone, Copy)]
pub struct Moving {
    pub fir_pos: usize,
    pub herm_hist: [f64; 4],
    pub frac_pos: f64,
    pub n_pushed: f64,
}

// As it is before the first sample.
pub const UNMOVED: Moving = Moving {
    fir_pos: 0,
    herm_hist: [0.0; 4],
    frac_pos: 0.0,
    n_pushed: 0.0,
};

// A sample into the window, where the next one for the filter goes to the place `next`.
pub fn slide(m: Moving, next: usize, y: f64) -> Moving
    ensures by_index { (n : ℕ) → (ring : List Float) → flow_of n ring result ≡ windowed (flow_of n ring m) (history_of n next ring) y }
    ensures fir_pos_value { result.fir_pos ≡ next }
{
    let w = m.herm_hist;
    Moving {
        fir_pos: next,
        herm_hist: [w[1], w[2], w[3], y],
        n_pushed: m.n_pushed + 1.0,
        ..m
    }
}

// One input sample where the rate goes down: through the filter, and into the window.
pub fn push_one(
    taps: &[f64; MAX_TAPS],
    hist: &mut [f64; MAX_TAPS],
    n: usize,
    m: Moving,
    x: f64,
) -> Moving
    requires { Placed n m.fir_pos taps.now hist.old }
    ensures one_pushed { OnePushed n taps.now x m hist.old result hist.new }
    ensures placed { Placed n result.fir_pos taps.now hist.new }
{
    let pos = m.fir_pos;
    let y = fir_push(taps, hist, n, pos, x);
    slide(m, ring_next(n, pos), y)
}

// What moved, and the filter's output for the sample after.
#[derive(Clone, Copy)]
pub struct Pushed {
    pub moving: Moving,
    pub ahead: f64,
}

// One input sample where the rate goes down, with the filter's output for the one after it, `later`.
pub fn push_ahead(
    taps: &[f64; MAX_TAPS],
    hist: &mut [f64; MAX_TAPS],
    n: usize,
    m: Moving,
    x: f64,
    later: f64,
) -> Pushed
    requires { Placed n m.fir_pos taps.now hist.old }
    ensures one_pushed { OnePushed n taps.now x m hist.old result.moving hist.new }
    ensures placed { Placed n result.moving.fir_pos taps.now hist.new }
    ensures ahead_value { result.ahead ≡ filtered (take n taps.now) (newest later (history_of n result.moving.fir_pos hist.new)) }
{
    let pos = m.fir_pos;
    hist[pos] = x;
    let y = fir_sums(taps, hist, n, pos, later);
    let next = ring_next(n, pos);
    let moving = slide(m, next, y.first);
    Pushed {
        moving,
        ahead: y.second,
    }
}

// One input sample where the rate goes down, whose filter output y is known.
pub fn push_known(hist: &mut [f64; MAX_TAPS], n: usize, m: Moving, x: f64, y: f64) -> Moving
    requires { (m.fir_pos < n) × (n ≤ most_taps) × (length hist.old ≡ most_taps) }
    ensures result_after { flow_of n hist.new result ≡ windowed (flow_of n hist.old m) (newest x (history_of n m.fir_pos hist.old)) y }
    ensures fir_pos_bound { (result.fir_pos < n) × (length hist.new ≡ most_taps) }
{
    let pos = m.fir_pos;
    hist[pos] = x;
    slide(m, ring_next(n, pos), y)
}

// An output sample, and what moved.
#[derive(Clone, Copy)]
pub struct Emitted {
    pub y: f64,
    pub moving: Moving,
}

// One output sample: between the window's middle samples. Where the rate goes up, it passes the filter later.
pub fn emit(step: f64, m: Moving) -> Emitted
    ensures one_emitted { OneEmitted step m result }
    ensures fir_pos_value { result.moving.fir_pos ≡ m.fir_pos }
{
    let k_base = m.n_pushed - 3.0;
    let y = hermite(m.herm_hist, m.frac_pos - k_base);
    let moving = Moving {
        frac_pos: m.frac_pos + step,
        ..m
    };
    Emitted { y, moving }
}
