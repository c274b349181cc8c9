// The correlator: products with the two tones over the last 27 samples, their sums, and the decision.
ghost use Rattle.std.specs.Prelude.{◌≡◌, ◌<◌, ◌≤◌, ◌+◌};
ghost use Rattle.demodulation.specs.Correlation.{decision_of, advanced, fresh_correlator, multiplied};
ghost use Rattle.demodulation.specs.Summing.{Summed, next_place};
ghost use Rattle.demodulation.specs.Waves.{Waved};

use crate::waves::Quadrature;
use numeric::phase::turn;
use numeric::sine::TAU;
use refusal::DSP_RATE;

// The products of the last 27 samples, one symbol, with each tone in quadrature. A new product takes the oldest one's place.
#[derive(Clone, Copy)]
pub struct Rings {
    pub mark_i: [f64; 27],
    pub mark_q: [f64; 27],
    pub space_i: [f64; 27],
    pub space_q: [f64; 27],
}

// The rings' next place, whether all places were filled, and the phases of the two tones.
#[derive(Clone, Copy)]
pub struct Correlator {
    pub pos: usize,
    pub filled: bool,
    pub phase_m: f64,
    pub phase_s: f64,
    pub inc_m: f64,
    pub inc_s: f64,
}

// The products of one sample with the two tones, of which w are cosine and sine, at the place.
pub fn multiply(rings: &mut Rings, c: Correlator, w: Quadrature, s: f64)
    requires { (c.pos < 27) × Waved c w }
    ensures { rings.new ≡ multiplied rings.old c s }
{
    rings.mark_i[c.pos] = s * w.mark_i;
    rings.mark_q[c.pos] = s * w.mark_q;
    rings.space_i[c.pos] = s * w.space_i;
    rings.space_q[c.pos] = s * w.space_q;
}

// The rings' sums over their first places, in place order; over all places they are the matched filter.
// A sample changes one place of each ring, so the sums over the places before it are carried from sample to sample.
// A type of its own beside `Quadrature`: a sum of products must not pass for a wave.
#[derive(Clone, Copy)]
pub struct Sums {
    pub mark_i: f64,
    pub mark_q: f64,
    pub space_i: f64,
    pub space_q: f64,
}

const NO_SUMS: Sums = Sums {
    mark_i: 0.0,
    mark_q: 0.0,
    space_i: 0.0,
    space_q: 0.0,
};

// From the sums over the first k places to those over one more.
fn with_place(p: Sums, rings: &Rings, k: usize) -> Sums
    requires { (k < 27) × Summed k rings.now p }
    ensures { Summed (k + 1) rings.now result }
{
    Sums {
        mark_i: p.mark_i + rings.mark_i[k],
        mark_q: p.mark_q + rings.mark_q[k],
        space_i: p.space_i + rings.space_i[k],
        space_q: p.space_q + rings.space_q[k],
    }
}

// From the sums over the first `from` places to those over the first `to`.
pub fn sums_on(rings: &Rings, from: usize, to: usize, sums: Sums) -> Sums
    requires { (from ≤ to) × (to ≤ 27) × Summed from rings.now sums }
    ensures { Summed to rings.now result }
{
    let mut p = sums;
    // An index: four rings are walked side by side.
    for k in from..to {
        p = with_place(p, rings, k);
    }
    p
}

// The sums over the places before pos, from nothing.
pub(crate) fn sums_before(rings: &Rings, pos: usize) -> Sums
    requires { pos < 27 }
    ensures { Summed pos rings.now result }
{
    sums_on(rings, 0, pos, NO_SUMS)
}

// The sums for the next sample: over the places before the one after pos.
pub(crate) fn next_sums(rings: &Rings, pos: usize, sums: Sums) -> Sums
    requires { (pos < 27) × Summed pos rings.now sums }
    ensures { Summed (next_place pos) rings.now result }
{
    if pos < 26 {
        with_place(sums, rings, pos)
    } else {
        NO_SUMS
    }
}

// The soft decision, positive for mark; and the energy, which the difference throws away.
#[derive(Clone, Copy)]
pub struct Decision {
    pub soft: f64,
    pub energy: f64,
}

pub fn decide(m: f64, s: f64) -> Decision
    ensures { result ≡ decision_of m s }
{
    Decision {
        soft: m - s,
        energy: (m + s) / 27.0,
    }
}

impl Correlator {
    pub(crate) fn new(mark: f64, space: f64) -> Correlator
        ensures { result ≡ fresh_correlator mark space }
    {
        Correlator {
            pos: 0,
            filled: false,
            phase_m: 0.0,
            phase_s: 0.0,
            inc_m: TAU * mark / DSP_RATE as f64,
            inc_s: TAU * space / DSP_RATE as f64,
        }
    }

    // The phases one sample on, and the next place.
    #[tactic(auto, unfolding(crate::specs::Correlation::advanced))]
    pub(crate) fn advance(mut self) -> Correlator
        requires { self.pos < 27 }
        ensures { result ≡ advanced self }
    {
        self.phase_m = turn(self.phase_m, self.inc_m);
        self.phase_s = turn(self.phase_s, self.inc_s);
        if self.pos < 26 {
            self.pos += 1;
            return self;
        }
        self.pos = 0;
        self.filled = true;
        self
    }
}
