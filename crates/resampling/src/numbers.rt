// The resampler's arrays as they are shown number by number: in order, and 0.0 in the places that its rates do not use.
ghost use Rattle.std.specs.Prelude.{◌≡◌, ◌++◌, ◌-◌, ◌≤◌, ◌<◌, take, replicate};
ghost use Rattle.numeric.specs.F64.{zero64};
ghost use Rattle.resampling.specs.Design.{most_taps};
ghost use Rattle.resampling.specs.FilterRep.{history_of};

use crate::design::MAX_TAPS;
use crate::filter::ring_back;
use numeric::arrays::filled;

// The samples of a ring of n, newest first, where the next one goes to pos.
pub fn newest_first(ring: [f64; MAX_TAPS], n: usize, pos: usize) -> [f64; MAX_TAPS]
    requires { (n ≤ most_taps) × (0 < n → pos < n) }
    ensures { take n result ≡ history_of n pos ring }
{
    let mut a = filled(0.0);
    let mut idx = pos;
    for i in 0..n {
        idx = ring_back(n, idx);
        a[i] = ring[idx];
    }
    a
}

// The first n, and 0.0 behind them.
pub fn cleared(xs: [f64; MAX_TAPS], n: usize) -> [f64; MAX_TAPS]
    requires { n ≤ most_taps }
    ensures { result ≡ take n xs ++ replicate (most_taps - n) zero64 }
{
    let mut a = xs;
    a[n..].fill(0.0);
    a
}
