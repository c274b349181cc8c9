// The root of a sum of two squares, in the place of the library's `hypot`.
ghost use Rattle.std.specs.Prelude.{◌≡◌, ◌^◌, ◌<◌, false};
ghost use Rattle.std.specs.Float.Ieee.{ne};
ghost use Rattle.numeric.specs.F64.{bits};
ghost use Rattle.numeric.specs.Root.{root_of, guess};

// A first guess by half the bits. A NaN has no bits to halve.
fn first_guess(v: f64) -> f64
    requires { (ne v v ≡ false) × (bits v < 2 ^ 63) }
    ensures { result ≡ guess v }
{
    f64::from_bits(f64::to_bits(v) / 2 + 0x1FF8_0000_0000_0000)
}

// A first guess, then five of Newton's steps. A NaN is its own root.
pub fn root(a: f64, b: f64) -> f64
    ensures { result ≡ root_of a b }
{
    let v = a * a + b * b;
    if v == 0.0 {
        return 0.0;
    }
    if v != v {
        return v;
    }
    let mut g = first_guess(v);
    for i in 0..5usize {
        g = 0.5 * (g + v / g);
    }
    g
}

// Two roots.
#[derive(Clone, Copy)]
pub struct RootPair {
    pub first: f64,
    pub second: f64,
}

// The root of a and b, and that of c and d. Newton's steps go side by side, so that the divisions of one do not wait for the other's.
pub fn roots(a: f64, b: f64, c: f64, d: f64) -> RootPair
    ensures { (result.first ≡ root_of a b) × (result.second ≡ root_of c d) }
{
    let u = a * a + b * b;
    let w = c * c + d * d;
    if u > 0.0 && w > 0.0 {
        let mut g = first_guess(u);
        let mut h = first_guess(w);
        for i in 0..5usize {
            g = 0.5 * (g + u / g);
            h = 0.5 * (h + w / h);
        }
        return RootPair {
            first: g,
            second: h,
        };
    }
    RootPair {
        first: root(a, b),
        second: root(c, d),
    }
}
