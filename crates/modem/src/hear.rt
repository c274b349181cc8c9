// A call's samples, resampled and heard.
ghost use Rattle.std.specs.Prelude.{◌≡◌, ◌≤◌, length};
ghost use Rattle.demodulation.specs.Listening.{Hearable, HearsInto};
ghost use Rattle.modem.specs.Hear.{Resamples};

use crate::samples::widen_into;
use demodulation::{Demodulator, hear};
use numeric::arrays::filled;
use refusal::Counting;
use resampling::Resampler;

// The samples of a call, at 8,000 Hz, to the front of out.
pub(crate) fn resample_into(r: Resampler, samples: &[f32], out: &mut [f64]) -> Counting<Resampler>
    requires { (r.dst_rate ≡ 8000) × (length samples.now ≤ 1024) × (length out.old ≡ 1026) }
    ensures { Resamples r samples.now result.state result.count out.new }
{
    let mut in64: [f64; 1024] = filled(0.0);
    widen_into(samples, &mut in64);
    let n = samples.len();
    let room = r.max_output_len(n);
    let need = room.unwrap_or(0);
    let p = r.run(&in64[..n], &mut out[..need]);
    Counting {
        state: p.state,
        count: p.count,
    }
}

// Hears a call's samples as they come, where they are at 8,000 Hz, from a scratch of N places.
fn hear_from<const N: usize>(
    d: Demodulator,
    samples: &[f32],
    codes: &mut [u16; 2052],
) -> Counting<Demodulator>
    requires { Hearable samples.now codes.old × (length samples.now ≤ N) × (N ≤ 1024) }
    ensures { HearsInto d samples.now codes.old result codes.new }
{
    let mut in64: [f64; N] = filled(0.0);
    widen_into(samples, &mut in64);
    hear(d, &in64[..samples.len()], codes)
}

// The same. A short call has no need to clear a long scratch.
pub fn hear_plain(d: Demodulator, samples: &[f32], codes: &mut [u16; 2052]) -> Counting<Demodulator>
    requires { Hearable samples.now codes.old × (length samples.now ≤ 1024) }
    ensures { HearsInto d samples.now codes.old result codes.new }
{
    if samples.len() <= 256 {
        hear_from::<256>(d, samples, codes)
    } else {
        hear_from::<1024>(d, samples, codes)
    }
}
