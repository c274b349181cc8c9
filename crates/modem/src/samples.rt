// Samples as a call hands them over: the check of each, and the same numbers as f64.
ghost use Rattle.std.specs.Prelude.{◌≡◌, ◌≤◌, length};
ghost use Rattle.numeric.specs.Convert.{all_in_range};
ghost use Rattle.modem.specs.Samples.{Widened};

use numeric::convert::{in_range, widen};

// Whether each sample is finite and within ±1.
pub fn all_in_range(samples: &[f32]) -> bool
    ensures { result ≡ all_in_range samples.now }
{
    samples.iter().all(|&x| in_range(x))
}

// The samples, each as an f64, to the front of out.
pub(crate) fn widen_into(samples: &[f32], out: &mut [f64])
    requires { length samples.now ≤ length out.old }
    ensures { Widened samples.now out.old out.new }
{
    // An index: two slices are walked side by side, and zip reads no plainer.
    for i in 0..samples.len() {
        out[i] = widen(samples[i]);
    }
}
