// What waits, as it is shown number by number: in order, and 0.0 in the places behind the last.
ghost use Rattle.std.specs.Prelude.{◌≡◌, map};
ghost use Rattle.modulation.specs.Bits.{most_bits, queued, BitsHeld};
ghost use Rattle.modulation.specs.ModulatorRep.{pending_in, PendingHeld};
ghost use Rattle.modulation.specs.Numbers.{places_for, mark_number};

use crate::bits::place_after;
use numeric::arrays::filled;
use numeric::convert::widen;

// 1.0 for mark, 0.0 for space.
pub(crate) fn mark_number(mark: bool) -> f64
    ensures { result ≡ mark_number mark }
{
    if mark { 1.0 } else { 0.0 }
}

// The bits of a ring, oldest first.
pub(crate) fn bit_places(bits: &[bool; 4096], head: usize, waiting: usize) -> [f64; 4096]
    requires { BitsHeld bits.now head waiting }
    ensures { result ≡ places_for most_bits (map mark_number (queued bits.now head waiting)) }
{
    let mut a = filled(0.0);
    let mut at = head;
    for i in 0..waiting {
        a[i] = mark_number(bits[at]);
        at = place_after(at);
    }
    a
}

// The samples of an array from one place to another.
pub(crate) fn sample_places(samples: &[f32; 64], from: usize, upto: usize) -> [f64; 64]
    requires { PendingHeld samples.now from upto }
    ensures { result ≡ places_for 64 (pending_in samples.now from upto) }
{
    let mut a = filled(0.0);
    for i in 0..upto - from {
        a[i] = widen(samples[from + i]);
    }
    a
}
