// How many samples bits last, exported to C.
ghost use Rattle.std.specs.Prelude.{◌≡◌};
ghost use Rattle.ffi.specs.Settings.{told};
ghost use Rattle.ffi.specs.Durations.{exact_run, sum_run};

use crate::row::lay;
use bell103::{exact, exact_sum};

// How many samples n bits last at a rate, and 0; or 1 or 7.
pub fn morkhetta_exact(rate: u32, n: u64, out: &mut [u64]) -> u32
    ensures { told result out.new ≡ exact_run rate n out.old }
{
    let answer = exact(rate, n);
    match answer {
        Ok(m) => {
            lay(out, &[m.exact.quotient, m.exact.remainder, m.rounded]);
            0
        }
        Err(r) => u32::from(r),
    }
}

// How many samples a list of lengths lasts at a rate, and 0; or 1, 42 or 7.
pub fn morkhetta_exact_sum(rate: u32, lengths: &[u64], out: &mut [u64]) -> u32
    ensures { told result out.new ≡ sum_run rate lengths.now out.old }
{
    let answer = exact_sum(rate, lengths);
    match answer {
        Ok(d) => {
            lay(out, &[d.quotient, d.remainder]);
            0
        }
        Err(r) => u32::from(r),
    }
}
