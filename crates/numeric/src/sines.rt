// Four sines for the receiver, eight for the sender, and the steps of one. A series is seven divisions, each of which waits for the one before it:
// four or eight go side by side.
ghost use Rattle.std.specs.Prelude.{◌≡◌, ◌||◌};
ghost use Rattle.numeric.specs.Sine.{series, sine_of};
ghost use Rattle.numeric.specs.Sines.{signed, beyond, within_turn, EachOf, EightOf};

use crate::sine::{PI, TAU, fold, sine, within};

#[derive(Clone, Copy)]
pub struct Pair {
    pub first: f64,
    pub second: f64,
}

#[derive(Clone, Copy)]
pub struct Four {
    pub first: f64,
    pub second: f64,
    pub third: f64,
    pub fourth: f64,
}

#[derive(Clone, Copy)]
pub struct Eight {
    pub first: f64,
    pub second: f64,
    pub third: f64,
    pub fourth: f64,
    pub fifth: f64,
    pub sixth: f64,
    pub seventh: f64,
    pub eighth: f64,
}

#[tactic(auto, unfolding(crate::specs::Sines::signed))]
fn sign(x: f64, v: f64) -> f64
    ensures { result ≡ signed x v }
{
    if x >= PI { -v } else { v }
}

// Whether one turn less is not all that x needs to be within one turn, where y is x wrapped.
#[tactic(auto, unfolding(crate::specs::Sines::beyond))]
fn is_beyond(x: f64, y: f64) -> bool
    ensures { result ≡ beyond x y }
{
    x < 0.0 || y >= TAU
}

// The same of one of four: a is x wrapped, b is y wrapped, c is z, d is w.
fn any_beyond(x: f64, a: f64, y: f64, b: f64, z: f64, c: f64, w: f64, d: f64) -> bool
    ensures { result ≡ (beyond x a || (beyond y b || (beyond z c || beyond w d))) }
{
    is_beyond(x, a) || is_beyond(y, b) || is_beyond(z, c) || is_beyond(w, d)
}

// The series of x, and that of y.
fn series_pair(x: f64, y: f64) -> Pair
    ensures { (result.first ≡ series x) × (result.second ≡ series y) }
{
    let t = x * x;
    let u = y * y;
    let mut h = 1.0 - t * 1.0 / 210.0;
    let mut k = 1.0 - u * 1.0 / 210.0;
    h = 1.0 - t * h / 156.0;
    k = 1.0 - u * k / 156.0;
    h = 1.0 - t * h / 110.0;
    k = 1.0 - u * k / 110.0;
    h = 1.0 - t * h / 72.0;
    k = 1.0 - u * k / 72.0;
    h = 1.0 - t * h / 42.0;
    k = 1.0 - u * k / 42.0;
    h = 1.0 - t * h / 20.0;
    k = 1.0 - u * k / 20.0;
    h = 1.0 - t * h / 6.0;
    k = 1.0 - u * k / 6.0;
    Pair {
        first: x * h,
        second: y * k,
    }
}

// The sine of each.
fn each_sine(x: f64, y: f64, z: f64, w: f64) -> Four
    ensures { EachOf sine_of x y z w result.first result.second result.third result.fourth }
{
    Four {
        first: sine(x),
        second: sine(y),
        third: sine(z),
        fourth: sine(w),
    }
}

// The sine of each, all within one turn.
#[tactic(auto, unfolding(crate::specs::Sines::lowered))]
fn sines_within(a: f64, b: f64, c: f64, d: f64) -> Four
    ensures { EachOf within_turn a b c d result.first result.second result.third result.fourth }
{
    let p = series_pair(fold(within(a, PI)), fold(within(b, PI)));
    let q = series_pair(fold(within(c, PI)), fold(within(d, PI)));
    Four {
        first: sign(a, p.first),
        second: sign(b, p.second),
        third: sign(c, q.first),
        fourth: sign(d, q.second),
    }
}

// The sine of each. Phases as they come are within one turn, so that what is beyond it is seldom asked.
pub fn sines(x: f64, y: f64, z: f64, w: f64) -> Four
    ensures { EachOf sine_of x y z w result.first result.second result.third result.fourth }
{
    let a = within(x, TAU);
    let b = within(y, TAU);
    let c = within(z, TAU);
    let d = within(w, TAU);
    if any_beyond(x, a, y, b, z, c, w, d) {
        each_sine(x, y, z, w)
    } else {
        sines_within(a, b, c, d)
    }
}

// ---- eight

// Two times four.
fn both(p: Four, q: Four) -> Eight
    ensures { result
        ≡ record {
          first = p.first;
          second = p.second;
          third = p.third;
          fourth = p.fourth;
          fifth = q.first;
          sixth = q.second;
          seventh = q.third;
          eighth = q.fourth;
        } }
{
    Eight {
        first: p.first,
        second: p.second,
        third: p.third,
        fourth: p.fourth,
        fifth: q.first,
        sixth: q.second,
        seventh: q.third,
        eighth: q.fourth,
    }
}

// The sine of each, all within one turn. Two times `sines_within`, written out: as two calls it takes nearly twice as long.
#[tactic(auto, unfolding(crate::specs::Sines::lowered))]
fn eight_within(a: f64, b: f64, c: f64, d: f64, e: f64, f: f64, g: f64, h: f64) -> Eight
    ensures { EightOf within_turn a b c d e f g h result }
{
    let p = series_pair(fold(within(a, PI)), fold(within(b, PI)));
    let q = series_pair(fold(within(c, PI)), fold(within(d, PI)));
    let u = series_pair(fold(within(e, PI)), fold(within(f, PI)));
    let v = series_pair(fold(within(g, PI)), fold(within(h, PI)));
    Eight {
        first: sign(a, p.first),
        second: sign(b, p.second),
        third: sign(c, q.first),
        fourth: sign(d, q.second),
        fifth: sign(e, u.first),
        sixth: sign(f, u.second),
        seventh: sign(g, v.first),
        eighth: sign(h, v.second),
    }
}

// The sine of each. A sender's phases are within one turn as they come, so that none is wrapped here first.
pub fn sines_eight(a: f64, b: f64, c: f64, d: f64, e: f64, f: f64, g: f64, h: f64) -> Eight
    ensures { EightOf sine_of a b c d e f g h result }
{
    if any_beyond(a, a, b, b, c, c, d, d) || any_beyond(e, e, f, f, g, g, h, h) {
        both(each_sine(a, b, c, d), each_sine(e, f, g, h))
    } else {
        eight_within(a, b, c, d, e, f, g, h)
    }
}
