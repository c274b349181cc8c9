// What hears, for the receiver and the board: device samples in, and what happened, in order.
ghost use Rattle.std.specs.Prelude.{◌≡◌, ◌≤◌, ◌+◌, ◌*◌, true, false};
ghost use Rattle.refusal.specs.Refusals.{rate_refused};
ghost use Rattle.framing.specs.Framing.{held};
ghost use Rattle.resampling.specs.Resample.{equal_rates};
ghost use Rattle.resampling.specs.ResampleRep.{state_of};
ghost use Rattle.happenings.specs.Codes.{Codes};

use crate::hear::{hear_plain, resample_into};
use crate::write::check;
use bell103::Role;
use demodulation::{Demodulator, Kind, hear};
use numeric::arrays::filled;
use refusal::{Answered, Counting, DSP_RATE, Refusal, rate_ok};
use resampling::Resampler;

#[derive(Clone, Copy)]
pub struct Listener {
    pub(crate) resampler: Resampler,
    pub(crate) demod: Demodulator,
    // Samples accepted so far.
    pub(crate) accepted: u64,
    pub ghost to_8000: { resampler.dst_rate ≡ 8000 },
    pub ghost most: { accepted ≤ 4294967296 },
    pub ghost few: { 10 * demod.core.deframer.errors + held demod.core.deframer ≤ 3 * accepted },
}

// What `hear` answers, the state, and how much happened.
#[derive(Clone, Copy)]
pub struct Listened {
    pub state: Listener,
    pub answer: Result<(), Refusal>,
    pub count: usize,
}

impl Listener {
    ghost use Rattle.modem.specs.ListenerRep.{Fresh, Opens, Fitting, Takes, Hears};

    // At 8,000 Hz. The resampler would copy, so it is left alone.
    fn accept_plain(mut self, samples: &[f32], codes: &mut [u16; 2052]) -> Counting<Listener>
        requires { Fitting self samples.now codes.old × (equal_rates (state_of self.resampler) ≡ true) }
        ensures { Takes self samples.now codes.old result.state result.count codes.new }
    {
        let h = hear_plain(self.demod, samples, codes);
        self.demod = h.state;
        self.accepted += samples.len() as u64;
        Counting {
            state: self,
            count: h.count,
        }
    }

    // The same, at another rate.
    pub(crate) fn accept_resampled(
        self,
        samples: &[f32],
        codes: &mut [u16; 2052],
    ) -> Counting<Listener>
        requires { Fitting self samples.now codes.old }
        ensures { Takes self samples.now codes.old result.state result.count codes.new }
    {
        let mut scratch: [f64; 1026] = filled(0.0);
        let p = resample_into(self.resampler, samples, &mut scratch);
        let h = hear(self.demod, &scratch[..p.count], codes);
        let state = Listener {
            resampler: p.state,
            demod: h.state,
            accepted: self.accepted + samples.len() as u64,
        };
        Counting {
            state,
            count: h.count,
        }
    }

    // The samples of a write that no check refused; what happened goes to the front of the codes.
    fn accept(self, samples: &[f32], codes: &mut [u16; 2052]) -> Counting<Listener>
        requires { Fitting self samples.now codes.old }
        ensures { Takes self samples.now codes.old result.state result.count codes.new }
    {
        if self.resampler.is_identity() {
            self.accept_plain(samples, codes)
        } else {
            self.accept_resampled(samples, codes)
        }
    }

    // A fresh one on an admitted rate.
    fn fresh_at(kind: Kind, rate: u32, role: Role) -> Listener
        requires { rate_refused rate ≡ false }
        ensures { Fresh kind rate role result }
    {
        Listener {
            resampler: Resampler::new(rate, DSP_RATE).state,
            demod: Demodulator::new(kind, role),
            accepted: 0,
        }
    }

    pub fn new(kind: Kind, rate: u32, role: Role) -> Answered<Listener, ()>
        ensures { Opens kind rate role result }
    {
        if rate_ok(rate) {
            return Answered {
                answer: Ok(()),
                state: Listener::fresh_at(kind, rate, role),
            };
        }
        Answered {
            answer: Err(Refusal::Rate),
            state: Listener::fresh_at(kind, DSP_RATE, role),
        }
    }

    // The next samples, in order and gapless: all that happened goes, by its codes, to the front of the lent array. Refused, it leaves that as
    // it was.
    pub fn hear(self, samples: &[f32], codes: &mut [u16; 2052]) -> Listened
        requires { Codes codes.old }
        ensures { Hears self samples.now codes.old result codes.new }
    {
        match check(samples, self.accepted, 0) {
            Err(why) => Listened {
                answer: Err(why),
                state: self,
                count: 0,
            },
            Ok(()) => {
                let t = self.accept(samples, codes);
                Listened {
                    answer: Ok(()),
                    state: t.state,
                    count: t.count,
                }
            }
        }
    }
}
