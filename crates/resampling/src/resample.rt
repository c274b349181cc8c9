// Rate conversion between the device and the 8 kHz internal rate: a stateful, band-limited resampler.
// The filter's history is a ring here; the definitions read it as a list.
ghost use Rattle.std.specs.Prelude.{◌≡◌, ◌≤◌, ◌<◌, false, eqb, ltb, length, take};
ghost use Rattle.numeric.specs.F64.{◌⊘◌, whole};
ghost use Rattle.refusal.specs.Refusals.{highest_rate};
ghost use Rattle.resampling.specs.Design.{most_taps};
ghost use Rattle.resampling.specs.Resample.{max_output_len, taps_of};
ghost use Rattle.resampling.specs.Rates.{InRange, TapsFor};

use crate::design::{MAX_TAPS, design_lowpass, tap_count};
use crate::feed::{copy, feed};
use crate::numbers::{cleared, newest_first};
use crate::range::all_in_range;
use crate::sample::{Moving, UNMOVED};
use numeric::arrays::filled;
use numeric::counts::nearest;
use refusal::{Answered, Counting, DSP_RATE, Refusal, rates_ok};

#[derive(Clone, Copy)]
pub struct Resampler {
    src_rate: u32,
    dst_rate: u32,
    identity: bool,
    decimating: bool,
    step: f64,
    taps: [f64; MAX_TAPS],
    n_taps: usize,
    fir_hist: [f64; MAX_TAPS],
    moving: Moving,
    pub ghost rates: { InRange src_rate dst_rate },
    pub ghost equal: { identity ≡ eqb src_rate dst_rate },
    pub ghost down: { decimating ≡ ltb dst_rate src_rate },
    pub ghost quotient: { step ≡ whole src_rate ⊘ whole dst_rate },
    pub ghost high: { n_taps ≤ most_taps },
    pub ghost are: { take n_taps taps ≡ taps_of src_rate dst_rate },
    pub ghost taps_long: { length taps ≡ most_taps },
    pub ghost ring_long: { length fir_hist ≡ most_taps },
    pub ghost place: { identity ≡ false → moving.fir_pos < n_taps },
}

// The taps between two rates, and their number: none where they are equal.
#[derive(Clone, Copy)]
struct Taps {
    n: usize,
    taps: [f64; MAX_TAPS],
}

fn taps_for(identity: bool, fs: u32) -> Taps
    requires { fs ≤ highest_rate }
    ensures { TapsFor identity fs result.n result.taps }
{
    if identity {
        let taps = filled(0.0);
        return Taps { n: 0, taps };
    }
    let n = tap_count(fs);
    let taps = design_lowpass(fs, n);
    Taps { n, taps }
}

fn output_len(identity: bool, src_rate: u32, dst_rate: u32, input_len: usize) -> usize
    requires { InRange src_rate dst_rate × (input_len ≤ 2048) × (identity ≡ eqb src_rate dst_rate) }
    ensures { result ≡ max_output_len src_rate dst_rate input_len }
{
    if identity {
        return input_len;
    }
    nearest((input_len as u64) * (dst_rate as u64), src_rate as u64) as usize + 2
}

impl Resampler {
    ghost use Rattle.refusal.specs.Refusals.{reply_in};
    ghost use Rattle.resampling.specs.Resample.{equal_rates, fresh, new_of, made, reset_of, len_of, processed, ran_into};
    ghost use Rattle.resampling.specs.ResampleRep.{state_of, produced_of, outcome_of};
    ghost use Rattle.resampling.specs.Numbers.{tap_numbers, history_numbers, window_numbers};

    // The state at two rates that are in range.
    fn fresh_at(src_rate: u32, dst_rate: u32) -> Resampler
        requires { InRange src_rate dst_rate }
        ensures { state_of result ≡ fresh src_rate dst_rate }
    {
        let identity = src_rate == dst_rate;
        let designed = taps_for(identity, src_rate.max(dst_rate));
        let taps = designed.taps;
        let fir_hist = filled(0.0);
        Resampler {
            src_rate,
            dst_rate,
            identity,
            decimating: src_rate > dst_rate,
            step: (src_rate as f64) / (dst_rate as f64),
            taps,
            n_taps: designed.n,
            fir_hist,
            moving: UNMOVED,
        }
    }

    pub fn new(src_rate: u32, dst_rate: u32) -> Answered<Resampler, ()>
        ensures state_value { made (reply_in result.answer) (state_of result.state) ≡ new_of src_rate dst_rate }
    {
        if rates_ok(src_rate, dst_rate) {
            let state = Resampler::fresh_at(src_rate, dst_rate);
            return Answered {
                answer: Ok(()),
                state,
            };
        }
        let state = Resampler::fresh_at(DSP_RATE, DSP_RATE);
        Answered {
            answer: Err(Refusal::Rate),
            state,
        }
    }

    // The just-constructed state, with the same coefficients.
    pub fn reset(mut self) -> Resampler
        ensures result_value { state_of result ≡ reset_of (state_of self) }
    {
        self.fir_hist = filled(0.0);
        self.moving = UNMOVED;
        self
    }

    // A bound on how many output samples `process` can produce, for sizing its output.
    pub fn max_output_len(self, input_len: usize) -> Result<usize, Refusal>
        ensures { reply_in result ≡ len_of (state_of self) input_len }
    {
        if 2048 < input_len {
            return Err(Refusal::TooManySamples);
        }
        Ok(output_len(self.identity, self.src_rate, self.dst_rate, input_len))
    }

    // Resamples the input into the front of the output, and says how many samples that are.
    pub fn process(self, input: &[f64], output: &mut [f64]) -> Answered<Resampler, usize>
        ensures output_after { outcome_of result output.new ≡ processed (state_of self) input.now output.old }
    {
        let count = input.len();
        if 2048 < count {
            return Answered {
                answer: Err(Refusal::TooManySamples),
                state: self,
            };
        }
        if !all_in_range(input) {
            return Answered {
                answer: Err(Refusal::WildSample),
                state: self,
            };
        }
        let need = output_len(self.identity, self.src_rate, self.dst_rate, count);
        if output.len() < need {
            return Answered {
                answer: Err(Refusal::OutputTooShort),
                state: self,
            };
        }
        let p = self.run(input, output);
        let state = p.state;
        Answered {
            answer: Ok(p.count),
            state,
        }
    }

    // The same with no check, for receiver and sender, which know their lengths and samples: an output that is too short is filled as far as it goes.
    pub fn run(mut self, input: &[f64], output: &mut [f64]) -> Counting<Resampler>
        ensures output_after { produced_of result output.new ≡ ran_into (state_of self) input.now output.old }
    {
        if self.identity {
            let count = copy(input, output);
            return Counting { count, state: self };
        }
        let mut fir_hist = self.fir_hist;
        let d = feed(
            &self.taps,
            &mut fir_hist,
            self.n_taps,
            self.decimating,
            self.step,
            self.moving,
            input,
            output,
        );
        self.fir_hist = fir_hist;
        self.moving = d.moving;
        Counting {
            count: d.at,
            state: self,
        }
    }

    // Whether the rates are equal, so that samples are copied.
    pub fn is_identity(self) -> bool
        ensures { result ≡ equal_rates (state_of self) }
    {
        self.identity
    }

    // The number of taps.
    pub fn tap_count(self) -> usize
        ensures { result ≡ length (taps_of (state_of self).src (state_of self).dst) }
    {
        self.n_taps
    }

    // The taps, one after the other.
    pub fn tap_numbers(self) -> [f64; MAX_TAPS]
        ensures { result ≡ tap_numbers (state_of self) }
    {
        cleared(self.taps, self.n_taps)
    }

    // The filter's history, newest first.
    pub fn history_numbers(self) -> [f64; MAX_TAPS]
        ensures { result ≡ history_numbers (state_of self) }
    {
        let newest = newest_first(self.fir_hist, self.n_taps, self.moving.fir_pos);
        cleared(newest, self.n_taps)
    }

    // The window, the place of the next output, the number of samples in the window so far, and the step.
    pub fn window_numbers(self) -> [f64; 7]
        ensures { result ≡ window_numbers (state_of self) }
    {
        let m = self.moving;
        let w = m.herm_hist;
        [w[0], w[1], w[2], w[3], m.frac_pos, m.n_pushed, self.step]
    }
}
