// How many samples bits last, exported to C.
ghost use Rattle.std.specs.Prelude.{◌≡◌};
ghost use Rattle.ffi.specs.Settings.{told};
ghost use Rattle.ffi.specs.Durations.{exact_run, sum_run};

// How many samples n bits last at a rate, and 0; or 1 or 7.
#[unsafe(no_mangle)]
pub extern "C" fn morkhetta_exact(rate: u32, n: u64, out: &mut [u64]) -> u32
    ensures { told result out.new ≡ exact_run rate n out.old }
{
    ffi::durations::morkhetta_exact(rate, n, out)
}

// How many samples a list of lengths lasts at a rate, and 0; or 1, 42 or 7.
#[unsafe(no_mangle)]
pub extern "C" fn morkhetta_exact_sum(rate: u32, lengths: &[u64], out: &mut [u64]) -> u32
    ensures { told result out.new ≡ sum_run rate lengths.now out.old }
{
    ffi::durations::morkhetta_exact_sum(rate, lengths, out)
}
