// The phase of a tone, from sample to sample.
ghost use Rattle.std.specs.Prelude.{◌≡◌};
ghost use Rattle.numeric.specs.Phase.{turned};

use crate::sine::{TAU, within};

// The phase one sample on.
#[tactic(auto, unfolding(crate::specs::Phase::turned))]
pub fn turn(phase: f64, inc: f64) -> f64
    ensures { result ≡ turned phase inc }
{
    within(phase + inc, TAU)
}
