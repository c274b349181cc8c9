// Sine and cosine, in the place of the library's.
ghost use Rattle.std.specs.Prelude.{◌≡◌, if◌then◌else◌};
ghost use Rattle.numeric.specs.F64.{◌⊖◌, ◌≤ᶠ◌};
ghost use Rattle.numeric.specs.Sine.{reduced, folded, series, half_turn, sine_of, cosine_of};

pub const TAU: f64 = 6.283185307179586;

pub const PI: f64 = 3.141592653589793;

// PI / 2.0, and TAU / 4.0.
pub const QUARTER: f64 = 1.5707963267948966;

// x less whole turns: at most 64 of them, and 0.0 if that is not enough.
fn reduce(x: f64) -> f64
    ensures { result ≡ reduced 64 x }
{
    let mut y = x;
    for i in 0..64usize {
        if y >= TAU {
            y -= TAU;
        } else {
            return y;
        }
    }
    if y >= TAU { 0.0 } else { y }
}

// x, less the period where it is one or more.
pub(crate) fn within(x: f64, period: f64) -> f64
    ensures { result ≡ (if period ≤ᶠ x then x ⊖ period else x) }
{
    if x >= period { x - period } else { x }
}

// The x of the first quarter that has the same sine.
#[tactic(auto, unfolding(crate::specs::Sine::folded))]
pub(crate) fn fold(x: f64) -> f64
    ensures { result ≡ folded x }
{
    if x > QUARTER { PI - x } else { x }
}

// The series of the sine, by Horner's rule.
fn series_of(x: f64) -> f64
    ensures { result ≡ series x }
{
    let t = x * x;
    let mut h = 1.0;
    h = 1.0 - t * h / 210.0;
    h = 1.0 - t * h / 156.0;
    h = 1.0 - t * h / 110.0;
    h = 1.0 - t * h / 72.0;
    h = 1.0 - t * h / 42.0;
    h = 1.0 - t * h / 20.0;
    h = 1.0 - t * h / 6.0;
    x * h
}

#[tactic(auto, unfolding(crate::specs::Sine::half_turn))]
fn half_turn(x: f64) -> f64
    ensures { result ≡ half_turn x }
{
    if x >= PI {
        -series_of(fold(x - PI))
    } else {
        series_of(fold(x))
    }
}

#[tactic(auto, unfolding(crate::specs::Sine::sine_of))]
pub fn sine(x: f64) -> f64
    ensures { result ≡ sine_of x }
{
    if x < 0.0 {
        -half_turn(reduce(-x))
    } else {
        half_turn(reduce(x))
    }
}

#[tactic(auto, unfolding(crate::specs::Sine::cosine_of))]
pub fn cosine(x: f64) -> f64
    ensures { result ≡ cosine_of x }
{
    sine(x + QUARTER)
}
