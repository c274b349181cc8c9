// A whole input.
ghost use Rattle.std.specs.Prelude.{◌≡◌, true, false, [], ◌∷◌, ◌≤◌, length};
ghost use Rattle.resampling.specs.FilterRep.{Placed};
ghost use Rattle.resampling.specs.FlowRep.{AllDrained, AllFed, AllInterpolated, Copied};

use crate::design::MAX_TAPS;
use crate::filter::filter_all;
use crate::sample::{Moving, emit, push_ahead, push_known, push_one, slide};

// How much of the output is written, and what moved.
#[derive(Clone, Copy)]
pub struct Drained {
    pub at: usize,
    pub moving: Moving,
}

// Every output sample that the window covers, as far as the output has room. Where the rate goes up, they pass the filter later.
fn drain(step: f64, m: Moving, output: &mut [f64], from: usize) -> Drained
    ensures all_drained { AllDrained step m output.old from result output.new }
    ensures fir_pos_value { result.moving.fir_pos ≡ m.fir_pos }
{
    let mut moving = m;
    let mut at = from;
    while moving.n_pushed - 2.0 > moving.frac_pos {
        if at >= output.len() {
            return Drained { at, moving };
        }
        let e = emit(step, moving);
        output[at] = e.y;
        at += 1;
        moving = e.moving;
    }
    Drained { at, moving }
}

// ---- where the rate goes down

// One input sample.
fn feed_one(
    taps: &[f64; MAX_TAPS],
    hist: &mut [f64; MAX_TAPS],
    n: usize,
    step: f64,
    m: Moving,
    x: f64,
    output: &mut [f64],
    from: usize,
) -> Drained
    requires { Placed n m.fir_pos taps.now hist.old }
    ensures all_fed { AllFed n taps.now true step (x ∷ [])
        m hist.old output.old from result hist.new output.new }
    ensures placed { Placed n result.moving.fir_pos taps.now hist.new }
{
    let p = push_one(taps, hist, n, m, x);
    drain(step, p, output, from)
}

// Two input samples. The second is taken only where the output had room for what the first made ready.
fn feed_two(
    taps: &[f64; MAX_TAPS],
    hist: &mut [f64; MAX_TAPS],
    n: usize,
    step: f64,
    m: Moving,
    x: f64,
    later: f64,
    output: &mut [f64],
    from: usize,
) -> Drained
    requires { Placed n m.fir_pos taps.now hist.old }
    ensures all_fed { AllFed n taps.now true step (x ∷ later ∷ [])
        m hist.old output.old from result hist.new output.new }
    ensures placed { Placed n result.moving.fir_pos taps.now hist.new }
{
    let p = push_ahead(taps, hist, n, m, x, later);
    let d = drain(step, p.moving, output, from);
    let moving = d.moving;
    if moving.n_pushed - 2.0 > moving.frac_pos {
        return Drained { at: d.at, moving };
    }
    let q = push_known(hist, n, moving, later, p.ahead);
    drain(step, q, output, d.at)
}

// The whole input, two samples at a time, and an odd last one by itself.
fn feed_pairs(
    taps: &[f64; MAX_TAPS],
    hist: &mut [f64; MAX_TAPS],
    n: usize,
    step: f64,
    m: Moving,
    input: &[f64],
    output: &mut [f64],
) -> Drained
    requires { Placed n m.fir_pos taps.now hist.old }
    ensures all_fed { AllFed n taps.now true step input.now
        m hist.old output.old 0 result hist.new output.new }
    ensures placed { Placed n result.moving.fir_pos taps.now hist.new }
{
    let mut moving = m;
    let mut at = 0;
    // Two at a time, for speed: their sums stand side by side. A `for` would count pairs, and each place were twice the count.
    let mut i = 0;
    while i + 1 < input.len() {
        let d = feed_two(
            taps,
            hist,
            n,
            step,
            moving,
            input[i],
            input[i + 1],
            output,
            at,
        );
        moving = d.moving;
        at = d.at;
        if moving.n_pushed - 2.0 > moving.frac_pos {
            return Drained { at, moving };
        }
        i += 2;
    }
    if i < input.len() {
        return feed_one(taps, hist, n, step, moving, input[i], output, at);
    }
    Drained { at, moving }
}

// ---- where the rate goes up

// The whole input's output samples before the filter, as far as there is room for them.
fn interpolate_all(step: f64, m: Moving, input: &[f64], output: &mut [f64]) -> Drained
    ensures all_interpolated { AllInterpolated step input.now m output.old result output.new }
    ensures at_in_bounds { result.at ≤ length output.new }
{
    let mut moving = m;
    let mut at = 0;
    for x in input {
        let d = drain(step, slide(moving, moving.fir_pos, *x), output, at);
        moving = d.moving;
        at = d.at;
        if moving.n_pushed - 2.0 > moving.frac_pos {
            return Drained { at, moving };
        }
    }
    Drained { at, moving }
}

// The whole input. Neither the places nor the number of the outputs depend on the filter, so they pass it together at the end.
fn feed_rising(
    taps: &[f64; MAX_TAPS],
    hist: &mut [f64; MAX_TAPS],
    n: usize,
    step: f64,
    m: Moving,
    input: &[f64],
    output: &mut [f64],
) -> Drained
    requires { Placed n m.fir_pos taps.now hist.old }
    ensures all_fed { AllFed n taps.now false step input.now
        m hist.old output.old 0 result hist.new output.new }
    ensures placed { Placed n result.moving.fir_pos taps.now hist.new }
{
    let d = interpolate_all(step, m, input, output);
    let fir_pos = filter_all(taps, hist, n, m.fir_pos, &mut output[..d.at]);
    Drained {
        at: d.at,
        moving: Moving {
            fir_pos,
            ..d.moving
        },
    }
}

// ---- either way

// The whole input, as far as the output has room for what it makes ready.
pub fn feed(
    taps: &[f64; MAX_TAPS],
    hist: &mut [f64; MAX_TAPS],
    n: usize,
    decimating: bool,
    step: f64,
    m: Moving,
    input: &[f64],
    output: &mut [f64],
) -> Drained
    requires { Placed n m.fir_pos taps.now hist.old }
    ensures all_fed { AllFed n taps.now decimating step input.now
        m hist.old output.old 0 result hist.new output.new }
    ensures placed { Placed n result.moving.fir_pos taps.now hist.new }
{
    if decimating {
        return feed_pairs(taps, hist, n, step, m, input, output);
    }
    feed_rising(taps, hist, n, step, m, input, output)
}

// Copies the input to the front of the output, as far as there is room, and says how much that is.
pub fn copy(input: &[f64], output: &mut [f64]) -> usize
    ensures { Copied input.now output.old output.new result }
{
    let n = output.len().min(input.len());
    // An index: two slices are walked side by side. `copy_from_slice` would need `memmove` from outside the library for C.
    for i in 0..n {
        output[i] = input[i];
    }
    n
}
