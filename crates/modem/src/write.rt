// The checks of a write, and whether none refused it.
ghost use Rattle.std.specs.Prelude.{◌≡◌, ◌≤◌};
ghost use Rattle.refusal.specs.Refusals.{reply_in, reply_of};
ghost use Rattle.modem.specs.Write.{refused_by};

use crate::samples::all_in_range;
use refusal::Refusal;

// The first check that a write does not pass.
pub(crate) fn check(samples: &[f32], accepted: u64, waiting: usize) -> Result<(), Refusal>
    requires { accepted ≤ 4294967296 }
    ensures { reply_in result ≡ reply_of (refused_by samples.now accepted waiting) }
{
    let n = samples.len();
    if 1024 < n {
        return Err(Refusal::TooManySamples);
    }
    if !all_in_range(samples) {
        return Err(Refusal::BadSample);
    }
    if 4294967296 < accepted + n as u64 {
        return Err(Refusal::OutOfSamples);
    }
    if 409 < waiting {
        return Err(Refusal::BytesWait);
    }
    Ok(())
}
