// The oscillator.
ghost use Rattle.std.specs.Prelude.{◌≡◌};
ghost use Rattle.modulation.specs.Nco.{nco_new, nco_set_freq, nco_next, nco_reset};

use numeric::phase::turn;
use numeric::sine::{TAU, sine};

// A running phase, so that a change of frequency makes no jump.
#[derive(Clone, Copy)]
pub struct Nco {
    pub phase: f64,
    pub inc: f64,
    pub sample_rate: f64,
}

// One sample's value, and the oscillator after it.
#[derive(Clone, Copy)]
pub struct Tone {
    pub state: Nco,
    pub value: f64,
}

impl Nco {
    pub(crate) fn new(freq: f64, sample_rate: f64) -> Nco
        ensures { result ≡ nco_new freq sample_rate }
    {
        Nco {
            phase: 0.0,
            inc: TAU * freq / sample_rate,
            sample_rate,
        }
    }

    pub(crate) fn set_freq(self, freq: f64) -> Nco
        ensures { result ≡ nco_set_freq self freq }
    {
        Nco {
            inc: TAU * freq / self.sample_rate,
            ..self
        }
    }

    pub(crate) fn next(self) -> Tone
        ensures { result ≡ nco_next self }
    {
        let value = sine(self.phase);
        let phase = turn(self.phase, self.inc);
        let state = Nco { phase, ..self };
        Tone { state, value }
    }

    pub(crate) fn reset(self) -> Nco
        ensures { result ≡ nco_reset self }
    {
        Nco { phase: 0.0, ..self }
    }
}
