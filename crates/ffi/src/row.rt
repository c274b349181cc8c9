// A row of numbers for a host.
ghost use Rattle.std.specs.Prelude.{◌≡◌};
ghost use Rattle.ffi.specs.Durations.{at_front};

// The row at the front of a slice, where it has room for all of it.
pub(crate) fn lay<T: Copy>(out: &mut [T], row: &[T])
    ensures { out.new ≡ at_front row.now out.old }
{
    if out.len() < row.len() {
        return;
    }
    out[..row.len()].copy_from_slice(row);
}
