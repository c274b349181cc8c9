// Quotients rounded to whole numbers, in the place of a rounded quotient of floats. Every dividend and divisor has an answer, and none
// overflows: the remainder decides, and nothing is doubled.
ghost use Rattle.std.specs.Prelude.{◌≡◌};
ghost use Rattle.numeric.specs.Counts.{nearest_ratio, ceiling_ratio};

// p / c to the nearest whole number, half up; 0 where c is 0.
pub fn nearest(p: u64, c: u64) -> u64
    ensures { result ≡ nearest_ratio p c }
{
    if c == 0 {
        return 0;
    }
    let q = p / c;
    let r = p % c;
    if r < c - r { q } else { q + 1 }
}

// p / c, up to a whole number; 0 where c is 0.
pub fn ceiling(p: u64, c: u64) -> u64
    ensures { result ≡ ceiling_ratio p c }
{
    if c == 0 {
        return 0;
    }
    p.div_ceil(c)
}
