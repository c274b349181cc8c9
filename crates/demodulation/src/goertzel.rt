// The Goertzel filter: how much of one frequency is in a block of samples.
ghost use Rattle.std.specs.Prelude.{◌≡◌};
ghost use Rattle.demodulation.specs.Goertzel.{goertzel_new, goertzel_feed, goertzel_power, goertzel_reset};

use numeric::sine::{TAU, cosine};

#[derive(Clone, Copy)]
pub struct Goertzel {
    pub coeff: f64,
    pub s1: f64,
    pub s2: f64,
}

impl Goertzel {
    pub(crate) fn new(freq: f64, sample_rate: f64) -> Goertzel
        ensures { result ≡ goertzel_new freq sample_rate }
    {
        let w = TAU * freq / sample_rate;
        Goertzel {
            coeff: 2.0 * cosine(w),
            s1: 0.0,
            s2: 0.0,
        }
    }

    pub(crate) fn feed(self, x: f64) -> Goertzel
        ensures { result ≡ goertzel_feed x self }
    {
        let s0 = x + self.coeff * self.s1 - self.s2;
        Goertzel {
            s1: s0,
            s2: self.s1,
            ..self
        }
    }

    pub(crate) fn power(self) -> f64
        ensures { result ≡ goertzel_power self }
    {
        self.s1 * self.s1 + self.s2 * self.s2 - self.coeff * self.s1 * self.s2
    }

    pub(crate) fn reset(self) -> Goertzel
        ensures { result ≡ goertzel_reset self }
    {
        Goertzel {
            s1: 0.0,
            s2: 0.0,
            ..self
        }
    }
}
