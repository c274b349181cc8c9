// The greater of two, and the absolute value.
ghost use Rattle.std.specs.Prelude.{◌≡◌};
ghost use Rattle.numeric.specs.F64.{larger, magnitude};

// The first unless the second is greater: `a.max(b)` leaves open which of 0.0 and -0.0 it gives, and passes over a NaN.
pub fn maximum(a: f64, b: f64) -> f64
    ensures { result ≡ larger a b }
{
    if a < b { b } else { a }
}

pub fn absolute(x: f64) -> f64
    ensures { result ≡ magnitude x }
{
    x.abs()
}
