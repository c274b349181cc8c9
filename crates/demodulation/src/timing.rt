// Symbol timing and the slicer.
ghost use Rattle.std.specs.Prelude.{◌≡◌};
ghost use Rattle.framing.specs.Frame.{deframed};
ghost use Rattle.demodulation.specs.Timing.{error_of, held_error, limited_by, moved_by, crossed, bounded, ticked, fresh_timing, sliced};

use crate::kind::Kind;
use bell103::samples_per_symbol;
use framing::frame::{Deframer, Heard, Pushed};
use numeric::compare::absolute;

const GARDNER_GAIN: f64 = 0.15;

// Symbol timing: a phase that runs from one symbol boundary, at 1.0, to the next. The flag stands beside the midpoint, as in the Rust: both are shown
// to C, number by number.
#[derive(Clone, Copy)]
pub struct Timing {
    pub sym_phase: f64,
    pub sym_inc: f64,
    pub last_sym: f64,
    pub mid_sym: f64,
    pub have_mid: bool,
}

// The timing after a sample, and whether the sample ended a symbol: a pair of its own, whose second name says more than a general one would.
#[derive(Clone, Copy)]
pub struct Ticked {
    pub state: Timing,
    pub boundary: bool,
}

// The Gardner error. The level divides twice, so that the loop's gain does not depend on it; nothing else limits a bare receiver's error.
#[tactic(auto, unfolding(crate::specs::Timing::error_of))]
fn error_of(soft: f64, last: f64, mid: f64) -> f64
    ensures { result ≡ error_of soft last mid }
{
    let mag = absolute(soft) + absolute(last) + 1e-9;
    (soft - last) * mid / (mag * mag)
}

// From -1.0 to 1.0. A NaN is not at most 1.0, so it falls to that end.
#[tactic(auto, unfolding(crate::specs::Timing::held_error))]
fn held_error(e: f64) -> f64
    ensures { result ≡ held_error e }
{
    if e <= 1.0 {
        if e >= -1.0 { e } else { -1.0 }
    } else {
        1.0
    }
}

// A board's error is held, so that no click can move its next boundary far away.
fn limited(kind: Kind, e: f64) -> f64
    ensures { result ≡ limited_by kind e }
{
    match kind {
        Kind::Bare => e,
        Kind::ForBoard => held_error(e),
    }
}

// Late pulls the next boundary forward. A residue below 0.0 stays: it only takes more samples to the next boundary.
fn moved(residue: f64, e: f64) -> f64
    ensures { result ≡ moved_by residue e }
{
    residue + GARDNER_GAIN * e
}

impl Timing {
    pub(crate) fn new() -> Timing
        ensures { result ≡ fresh_timing }
    {
        Timing {
            sym_phase: 0.0,
            sym_inc: 1.0 / samples_per_symbol(),
            last_sym: 0.0,
            mid_sym: 0.0,
            have_mid: false,
        }
    }

    // The phase one sample on, and the midpoint where it passes 0.5.
    #[tactic(auto, unfolding(crate::specs::Timing::crossed))]
    fn cross(mut self, soft: f64) -> Timing
        ensures { result ≡ crossed self soft }
    {
        let prev = self.sym_phase;
        self.sym_phase = prev + self.sym_inc;
        if prev < 0.5 && self.sym_phase >= 0.5 {
            self.mid_sym = soft;
            self.have_mid = true;
        }
        self
    }

    // A symbol's end; the next one begins without a midpoint.
    #[tactic(auto, unfolding(crate::specs::Timing::bounded))]
    fn symbol_boundary(mut self, kind: Kind, soft: f64) -> Timing
        ensures { result ≡ bounded kind self soft }
    {
        let last = self.last_sym;
        let residue = self.sym_phase - 1.0;
        self.last_sym = soft;
        if self.have_mid {
            let e = error_of(soft, last, self.mid_sym);
            self.sym_phase = moved(residue, limited(kind, e));
            self.have_mid = false;
            return self;
        }
        self.sym_phase = residue;
        self
    }

    // At most one boundary a sample.
    #[tactic(auto, unfolding(crate::specs::Timing::ticked))]
    pub(crate) fn tick(self, kind: Kind, soft: f64) -> Ticked
        ensures { result ≡ ticked kind self soft }
    {
        let t = self.cross(soft);
        if t.sym_phase >= 1.0 {
            return Ticked {
                state: t.symbol_boundary(kind, soft),
                boundary: true,
            };
        }
        Ticked {
            state: t,
            boundary: false,
        }
    }
}

// A bit for the deframer at a boundary while the detector is up. A tie is a mark, the idle line's state.
#[tactic(auto, unfolding(crate::specs::Timing::sliced))]
pub fn slice(deframer: Deframer, boundary: bool, detected: bool, soft: f64) -> Pushed
    ensures { deframed result ≡ sliced deframer boundary detected soft }
{
    if boundary && detected {
        return deframer.push_bit(soft >= 0.0);
    }
    Pushed {
        state: deframer,
        heard: Heard::Waiting,
    }
}
