// The test of a call's samples.
ghost use Rattle.std.specs.Prelude.{◌≡◌};
ghost use Rattle.numeric.specs.Convert.{all_in_range};

use numeric::convert::wide_in_range;

// Whether each sample is finite and within ±1.
pub fn all_in_range(samples: &[f64]) -> bool
    ensures { result ≡ all_in_range samples.now }
{
    for x in samples {
        if !wide_in_range(*x) {
            return false;
        }
    }
    true
}
