// Streaming FSK modulator. `read` fills sample blocks; the symbol clock, the oscillator's phase and the resampler's history carry over
// from call to call, so blocks are read in order.
ghost use Rattle.std.specs.Prelude.{◌≡◌, not, false, ◌+◌, ◌*◌, ◌≤◌, ◌<◌, length};
ghost use Rattle.refusal.specs.Refusals.{reply_in, reply_of};
ghost use Rattle.resampling.specs.ResampleRep.{state_of};
ghost use Rattle.modulation.specs.Bits.{BitsHeld};
ghost use Rattle.modulation.specs.ModulatorRep.{Rising, PendingHeld};
ghost use Rattle.modulation.specs.Fed.{Fed, Fed-prop};
ghost use Rattle.modulation.specs.Tx.{read_refused, amplitude_refused};

use crate::modulate::{Settings, Wave, equal_pass, hand_over, pass};
use crate::nco::Nco;
use crate::numbers::{bit_places, mark_number, sample_places};
use bell103::{BAUD, Role, TonePair, tones};
use numeric::arrays::filled;
use numeric::convert::widen;
use numeric::counts::nearest;
use refusal::{Answered, DSP_RATE, Refusal, rate_ok};
use resampling::Resampler;

#[derive(Clone, Copy)]
pub struct Tx {
    rate: u32,
    tones: TonePair,
    pub(crate) bits: [bool; 4096],
    pub(crate) wave: Wave,
    resampler: Resampler,
    // Samples that a pass made and the slice had no place for: those from one place to another.
    pending: [f32; 64],
    from: usize,
    upto: usize,
    // Output scale, 1.0 unless deliberately turned down.
    amplitude: f32,
    // Samples given so far.
    served: u64,
    pub ghost rising: { Rising rate resampler },
    pub ghost held: { BitsHeld bits wave.head wave.waiting },
    pub ghost pending_held: { PendingHeld pending from upto },
    pub ghost fed: { Fed 0 (2050 * served) (state_of resampler) } by { Fed-prop 0 (2050 * served) (state_of resampler) },
    pub ghost few: { served ≤ 4294967296 },
}

// What `read` answers, in how many passes, and the state.
#[derive(Clone, Copy)]
pub struct Reading {
    pub state: Tx,
    pub answer: Result<(), Refusal>,
    pub passes: usize,
}

// What a slice at 8,000 moves of the sender, and in how many passes it was filled.
#[derive(Clone, Copy)]
pub struct Filled {
    pub wave: Wave,
    pub from: usize,
    pub upto: usize,
    pub passes: usize,
}

// The first check that a read does not pass.
pub(crate) fn check(n: usize, served: u64) -> Result<(), Refusal>
    requires { served ≤ 4294967296 }
    ensures { reply_in result ≡ reply_of (read_refused served n) }
{
    if 1024 < n {
        return Err(Refusal::TooManySamples);
    }
    if 4294967296 < served + n as u64 {
        return Err(Refusal::OutOfSamples);
    }
    Ok(())
}

// Whether the amplitude is in 0 to 1.
fn amplitude_ok(a: f32) -> bool
    ensures { not result ≡ amplitude_refused a }
{
    a >= 0.0 && a <= 1.0
}

impl Tx {
    ghost use Rattle.refusal.specs.Refusals.{dsp_rate, rate_refused};
    ghost use Rattle.modulation.specs.Numbers.{keying_numbers, bit_numbers, pending_numbers};
    ghost use Rattle.modulation.specs.Tx.{fresh_sender, made, new_of, reading, read_of, adjusted, amplitude_of, pending_of, duration_of};
    ghost use Rattle.modulation.specs.TxRep.{modulator_of, sender_of, FillsWhole, FillsBy, after};

    // ---- a whole slice

    // At a rate of 8,000 nothing is resampled: what is pending, then one pass, which makes a sample more than the slice has places for.
    fn fill_places(
        bits: &[bool; 4096],
        tones: TonePair,
        w: Wave,
        a: f32,
        pending: &mut [f32],
        from: usize,
        upto: usize,
        out: &mut [f32],
    ) -> Filled
        requires { BitsHeld bits.now w.head w.waiting × PendingHeld pending.old from upto × (length out.old ≤ 1024) }
        ensures { FillsBy bits.now tones w a pending.old from upto
            (length out.old) out.new pending.new result }
    {
        let n = out.len();
        let written = hand_over(&pending[from..upto], out);
        if n <= written {
            return Filled {
                wave: w,
                from: from + written,
                upto,
                passes: 1,
            };
        }
        let last = equal_pass(bits, tones, w, a, pending, &mut out[written..]);
        Filled {
            wave: last,
            from: 0,
            upto: 1,
            passes: 2,
        }
    }

    // A slice at 8,000. The state is changed where it stands, and a copy of its bits is lent: each other way that was measured copies more.
    fn fill_equal(mut self, out: &mut [f32]) -> Reading
        requires { (self.rate ≡ dsp_rate) × (length out.old ≤ 1024) × (self.served + length out.old ≤ 4294967296) }
        ensures { FillsWhole self (length out.old) out.new result.answer result.passes result.state }
    {
        let bits = self.bits;
        let tones = self.tones;
        let w = self.wave;
        let mut pending = self.pending;
        let f = Tx::fill_places(
            &bits,
            tones,
            w,
            self.amplitude,
            &mut pending,
            self.from,
            self.upto,
            out,
        );
        let wave = f.wave;
        self.wave = wave;
        self.pending = pending;
        self.from = f.from;
        self.upto = f.upto;
        self.served += out.len() as u64;
        Reading {
            answer: Ok(()),
            passes: f.passes,
            state: self,
        }
    }

    // The sender after passes that moved so much, for a slice of n samples.
    #[tactic(auto, unfolding(crate::specs::TxRep::modulator_of))]
    fn with_passes(
        mut self,
        wave: Wave,
        resampler: Resampler,
        pending: [f32; 64],
        from: usize,
        upto: usize,
        n: usize,
    ) -> Tx
        requires { Rising self.rate resampler × BitsHeld self.bits wave.head wave.waiting × PendingHeld pending from upto
            × Fed 0 (2050 * (self.served + n)) (state_of resampler) × (self.served + n ≤ 4294967296) }
        ensures { (modulator_of result ≡ after self wave resampler pending from upto) × (result.served ≡ self.served + n) }
    {
        self.wave = wave;
        self.resampler = resampler;
        self.pending = pending;
        self.from = from;
        self.upto = upto;
        self.served += n as u64;
        self
    }

    // At higher rates: what is pending, then passes over the unwritten rest of the slice, until it is full.
    fn fill_rising(self, out: &mut [f32]) -> Reading
        requires { (dsp_rate < self.rate) × (length out.old ≤ 1024) × (self.served + length out.old ≤ 4294967296) }
        ensures { FillsWhole self (length out.old) out.new result.answer result.passes result.state }
    {
        let bits = self.bits;
        let tones = self.tones;
        let settings = Settings {
            rate: self.rate,
            tones,
            amplitude: self.amplitude,
        };
        let mut pending = self.pending;
        let mut wave = self.wave;
        let mut resampler = self.resampler;
        let start = self.from;
        let mut upto = self.upto;
        let mut written = hand_over(&pending[start..upto], out);
        let mut from = start + written;
        let mut passes = 1usize;
        while written < out.len() {
            let p = pass(
                &bits,
                settings,
                wave,
                resampler,
                &mut pending,
                &mut out[written..],
            );
            wave = p.wave;
            resampler = p.resampler;
            from = 0;
            upto = p.upto;
            written += p.count;
            passes += 1;
        }
        let state = self.with_passes(wave, resampler, pending, from, upto, out.len());
        Reading {
            answer: Ok(()),
            passes,
            state,
        }
    }

    // ---- the public functions

    // A fresh sender on an admitted rate.
    fn fresh_at(rate: u32, role: Role) -> Tx
        requires { rate_refused rate ≡ false }
        ensures { sender_of result ≡ fresh_sender rate role }
    {
        let c = Resampler::new(DSP_RATE, rate);
        let resampler = c.state;
        let pair = tones(role);
        let nco = Nco::new(pair.mark, DSP_RATE as f64);
        let wave = Wave {
            nco,
            sym_pos: 0.0,
            current: true,
            head: 0,
            waiting: 0,
        };
        let bits = filled(false);
        let pending = filled(0.0);
        Tx {
            rate,
            tones: pair,
            bits,
            wave,
            resampler,
            pending,
            from: 0,
            upto: 0,
            amplitude: 1.0,
            served: 0,
        }
    }

    pub fn new(rate: u32, role: Role) -> Answered<Tx, ()>
        ensures { made (reply_in result.answer) (sender_of result.state) ≡ new_of rate role }
    {
        if rate_ok(rate) {
            let state = Tx::fresh_at(rate, role);
            return Answered {
                answer: Ok(()),
                state,
            };
        }
        let state = Tx::fresh_at(DSP_RATE, role);
        Answered {
            answer: Err(Refusal::Rate),
            state,
        }
    }

    // Fills the slice whole with the next samples at the device's rate, holding mark when idle.
    pub fn read(self, out: &mut [f32]) -> Reading
        ensures { (reading (reply_in result.answer) result.passes (sender_of result.state) out.new ≡ read_of (sender_of self) out.old)
            × (result.passes ≤ length out.old + 2) }
    {
        let answer = check(out.len(), self.served);
        if answer.is_err() {
            return Reading {
                answer,
                passes: 0,
                state: self,
            };
        }
        if self.rate == DSP_RATE {
            return self.fill_equal(out);
        }
        self.fill_rising(out)
    }

    // Whether bits wait.
    pub fn pending(self) -> bool
        ensures { result ≡ pending_of (sender_of self) }
    {
        0 < self.wave.waiting
    }

    // Scales everything that the sender makes from now on.
    pub fn set_amplitude(self, amplitude: f32) -> Answered<Tx, ()>
        ensures { adjusted (reply_in result.answer) (sender_of result.state) ≡ amplitude_of (sender_of self) amplitude }
    {
        if amplitude_ok(amplitude) {
            let mut state = self;
            state.amplitude = amplitude;
            return Answered {
                answer: Ok(()),
                state,
            };
        }
        Answered {
            answer: Err(Refusal::Amplitude),
            state: self,
        }
    }

    // How many samples n bits last at the sender's rate.
    pub fn samples_for_bits(self, n: usize) -> Result<usize, Refusal>
        ensures { reply_in result ≡ duration_of (sender_of self) n }
    {
        if 1048576 < n {
            return Err(Refusal::TooManyBits);
        }
        Ok(nearest((n as u64) * (self.rate as u64), BAUD as u64) as usize)
    }

    // What its samples go through.
    pub fn resampler(self) -> Resampler
        ensures { state_of result ≡ (sender_of self).modulator.resampler }
    {
        self.resampler
    }

    // The oscillator and the symbol clock, the amplitude, the samples given, and how many bits and samples wait.
    pub fn keying_numbers(self) -> [f64; 8]
        ensures { result ≡ keying_numbers (sender_of self) }
    {
        let w = self.wave;
        let nco = w.nco;
        let current = mark_number(w.current);
        let amplitude = widen(self.amplitude);
        let pending = self.upto - self.from;
        [
            nco.phase,
            nco.inc,
            w.sym_pos,
            current,
            amplitude,
            self.served as f64,
            w.waiting as f64,
            pending as f64,
        ]
    }

    // The bits that wait, oldest first.
    pub fn bit_numbers(self) -> [f64; 4096]
        ensures { result ≡ bit_numbers (sender_of self) }
    {
        bit_places(&self.bits, self.wave.head, self.wave.waiting)
    }

    // The samples that were made and not yet read, oldest first.
    pub fn pending_numbers(self) -> [f64; 64]
        ensures { result ≡ pending_numbers (sender_of self) }
    {
        sample_places(&self.pending, self.from, self.upto)
    }
}
