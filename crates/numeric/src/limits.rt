// Whether a list keeps to a limit.
ghost use Rattle.std.specs.Prelude.{◌≡◌};
ghost use Rattle.numeric.specs.Limits.{any_above};

// Whether one of the list is above the limit.
pub fn any_above(limit: u64, xs: &[u64]) -> bool
    ensures { result ≡ any_above limit xs.now }
{
    for &x in xs {
        if limit < x {
            return true;
        }
    }
    false
}
