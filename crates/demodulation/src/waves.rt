// Cosine and sine of the two tones' phases, side by side.
ghost use Rattle.demodulation.specs.Correlation.{advanced};
ghost use Rattle.demodulation.specs.Waves.{InQuadrature, Waved};

use crate::correlator::Correlator;
use numeric::phase::turn;
use numeric::sine::QUARTER;
use numeric::sines::sines;

// The mark's cosine and sine, and the space's.
#[derive(Clone, Copy)]
pub struct Quadrature {
    pub mark_i: f64,
    pub mark_q: f64,
    pub space_i: f64,
    pub space_q: f64,
}

pub fn waves(m: f64, s: f64) -> Quadrature
    ensures { InQuadrature m s result }
{
    let v = sines(m + QUARTER, m, s + QUARTER, s);
    Quadrature {
        mark_i: v.first,
        mark_q: v.second,
        space_i: v.third,
        space_q: v.fourth,
    }
}

// Those of the next sample.
pub fn waves_ahead(c: Correlator) -> Quadrature
    ensures { Waved (advanced c) result }
{
    waves(turn(c.phase_m, c.inc_m), turn(c.phase_s, c.inc_s))
}
