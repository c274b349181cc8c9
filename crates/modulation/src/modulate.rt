// A pass of the sender: generates tones, resamples them, and shares what was made out between the slice and what is pending.
ghost use Rattle.std.specs.Prelude.{◌≡◌, map, ◌+◌, ◌*◌, ◌≤◌, ◌<◌, length};
ghost use Rattle.numeric.specs.Counts.{need};
ghost use Rattle.modulation.specs.Bits.{queued, BitsHeld};
ghost use Rattle.refusal.specs.Refusals.{dsp_rate, highest_rate};
ghost use Rattle.resampling.specs.Resample.{max_output_len};
ghost use Rattle.modulation.specs.Tone.{tone_of, keyed, tick, ticked, sound, generated};
ghost use Rattle.modulation.specs.Modulator.{scaled};
ghost use Rattle.modulation.specs.ModulatorRep.{keyer_of, WaveHeld, eight_of, Rising, MakesInto, SharesInto, EqualInto, PassesOver, HandsOver};

use crate::bits::take_bit;
use crate::nco::Nco;
use bell103::{TonePair, samples_per_symbol};
use numeric::arrays::filled;
use numeric::convert::{narrow, narrow_four};
use numeric::counts::{ceiling, nearest};
use numeric::phase::turn;
use numeric::sine::sine;
use numeric::sines::sines_eight;
use refusal::DSP_RATE;
use resampling::Resampler;

// What moves with each sample: the oscillator, the symbol clock, and where the bits that wait stand in their ring.
#[derive(Clone, Copy)]
pub struct Wave {
    pub nco: Nco,
    pub sym_pos: f64,
    pub current: bool,
    pub head: usize,
    pub waiting: usize,
}

// ---- tones

// Not one function with `hop_of` of the other sender: a choice by a bit that is handed both is an `if` with more words.
fn tone_of(t: TonePair, bit: bool) -> f64
    ensures { result ≡ tone_of t bit }
{
    if bit { t.mark } else { t.space }
}

// The next symbol begins: the oscillator goes on at its tone.
fn next_symbol(
    bits: &[bool; 4096],
    t: TonePair,
    nco: Nco,
    sym_pos: f64,
    head: usize,
    waiting: usize,
) -> Wave
    requires { BitsHeld bits.now head waiting }
    ensures result_value { keyer_of bits.now result ≡ keyed t nco sym_pos (queued bits.now head waiting) }
    ensures bits_held { BitsHeld bits.now result.head result.waiting }
{
    let next = take_bit(bits, head, waiting);
    let freq = tone_of(t, next.bit);
    let tuned = nco.set_freq(freq);
    Wave {
        nco: tuned,
        sym_pos,
        current: next.bit,
        head: next.head,
        waiting: next.waiting,
    }
}

#[derive(Clone, Copy)]
struct Ticked {
    value: f64,
    wave: Wave,
}

// The oscillator and the symbol clock one sample on.
fn advance(bits: &[bool; 4096], t: TonePair, w: Wave) -> Wave
    requires { BitsHeld bits.now w.head w.waiting }
    ensures result_value { keyer_of bits.now result ≡ (ticked t (keyer_of bits.now w)).after }
    ensures bits_held { BitsHeld bits.now result.head result.waiting }
{
    let nco = w.nco;
    // Field by field, as in table_tx.rs.
    let on = Nco {
        phase: turn(nco.phase, nco.inc),
        inc: nco.inc,
        sample_rate: nco.sample_rate,
    };
    let pos = w.sym_pos + 1.0 / samples_per_symbol();
    if pos >= 1.0 {
        return next_symbol(bits, t, on, pos - 1.0, w.head, w.waiting);
    }
    Wave {
        nco: on,
        sym_pos: pos,
        current: w.current,
        head: w.head,
        waiting: w.waiting,
    }
}

// One sample.
fn step(bits: &[bool; 4096], t: TonePair, w: Wave) -> Ticked
    requires { BitsHeld bits.now w.head w.waiting }
    ensures wave_value { tick result.value (keyer_of bits.now result.wave) ≡ ticked t (keyer_of bits.now w) }
    ensures bits_held { BitsHeld bits.now result.wave.head result.wave.waiting }
{
    let nco = w.nco;
    let value = sine(nco.phase);
    let wave = advance(bits, t, w);
    Ticked { value, wave }
}

#[derive(Clone, Copy)]
struct TickedEight {
    first: f64,
    second: f64,
    third: f64,
    fourth: f64,
    fifth: f64,
    sixth: f64,
    seventh: f64,
    eighth: f64,
    wave: Wave,
}

// Eight samples, their sines side by side.
fn step_eight(bits: &[bool; 4096], t: TonePair, w: Wave) -> TickedEight
    requires { BitsHeld bits.now w.head w.waiting }
    ensures wave_value { sound (eight_of result) (keyer_of bits.now result.wave) ≡ generated 8 t (keyer_of bits.now w) }
    ensures bits_held { BitsHeld bits.now result.wave.head result.wave.waiting }
{
    let one = advance(bits, t, w);
    let two = advance(bits, t, one);
    let three = advance(bits, t, two);
    let four = advance(bits, t, three);
    let five = advance(bits, t, four);
    let six = advance(bits, t, five);
    let seven = advance(bits, t, six);
    let eight = advance(bits, t, seven);
    let v = sines_eight(
        w.nco.phase,
        one.nco.phase,
        two.nco.phase,
        three.nco.phase,
        four.nco.phase,
        five.nco.phase,
        six.nco.phase,
        seven.nco.phase,
    );
    TickedEight {
        first: v.first,
        second: v.second,
        third: v.third,
        fourth: v.fourth,
        fifth: v.fifth,
        sixth: v.sixth,
        seventh: v.seventh,
        eighth: v.eighth,
        wave: eight,
    }
}

// Fills the slice with samples at 8,000 Hz, one by one.
fn generate_singly(bits: &[bool; 4096], t: TonePair, w: Wave, out: &mut [f64]) -> Wave
    requires { BitsHeld bits.now w.head w.waiting }
    ensures result_after { sound out.new (keyer_of bits.now result) ≡ generated (length out.old) t (keyer_of bits.now w) }
    ensures bits_held { BitsHeld bits.now result.head result.waiting }
{
    let mut wave = w;
    for x in out.iter_mut() {
        let s = step(bits, t, wave);
        *x = s.value;
        wave = s.wave;
    }
    wave
}

// The same, eight by eight as far as that goes.
fn generate(bits: &[bool; 4096], t: TonePair, w: Wave, out: &mut [f64]) -> Wave
    requires { BitsHeld bits.now w.head w.waiting }
    ensures result_after { sound out.new (keyer_of bits.now result) ≡ generated (length out.old) t (keyer_of bits.now w) }
    ensures bits_held { BitsHeld bits.now result.head result.waiting }
{
    let mut wave = w;
    // Eight at a time, for speed: their sines stand side by side.
    let mut i = 0;
    while i + 7 < out.len() {
        let s = step_eight(bits, t, wave);
        out[i] = s.first;
        out[i + 1] = s.second;
        out[i + 2] = s.third;
        out[i + 3] = s.fourth;
        out[i + 4] = s.fifth;
        out[i + 5] = s.sixth;
        out[i + 6] = s.seventh;
        out[i + 7] = s.eighth;
        wave = s.wave;
        i += 8;
    }
    generate_singly(bits, t, wave, &mut out[i..])
}

// ---- samples at the device

fn scale(a: f32, v: f64) -> f32
    ensures { result ≡ scaled a v }
{
    narrow(v) * a
}

// Each sample, narrowed and scaled, one by one.
fn scale_singly(xs: &[f64], a: f32, out: &mut [f32])
    requires { length xs.now ≡ length out.old }
    ensures { out.new ≡ map (scaled a) xs.now }
{
    for i in 0..out.len() {
        out[i] = scale(a, xs[i]);
    }
}

// The same, four by four as far as that goes.
fn scale_into(xs: &[f64], a: f32, out: &mut [f32])
    requires { length xs.now ≡ length out.old }
    ensures { out.new ≡ map (scaled a) xs.now }
{
    // Four at a time, for speed: they are cast together.
    let mut i = 0;
    while i + 3 < out.len() {
        let n = narrow_four(xs[i], xs[i + 1], xs[i + 2], xs[i + 3]);
        out[i] = n.first * a;
        out[i + 1] = n.second * a;
        out[i + 2] = n.third * a;
        out[i + 3] = n.fourth * a;
        i += 4;
    }
    scale_singly(&xs[i..], a, &mut out[i..]);
}

// Hands over what is pending, as far as there is room, and says how much that is.
pub(crate) fn hand_over(waiting: &[f32], out: &mut [f32]) -> usize
    ensures { HandsOver waiting.now (length out.old) out.new result }
{
    let count = out.len().min(waiting.len());
    out[..count].copy_from_slice(&waiting[..count]);
    count
}

// Hands over as much of what was made as the rest takes, and keeps the surplus in front of `pending`.
fn share(xs: &[f64], a: f32, pending: &mut [f32], rest: &mut [f32]) -> usize
    requires { (length xs.now ≤ length rest.old + 64) × (length pending.old ≡ 64) }
    ensures { SharesInto xs.now a (length rest.old) rest.new result pending.new }
{
    let k = xs.len();
    let count = rest.len().min(k);
    scale_into(&xs[..count], a, &mut rest[..count]);
    let surplus = k - count;
    scale_into(&xs[count..], a, &mut pending[..surplus]);
    count
}

// ---- a pass

// How many samples at 8,000 Hz a pass for n samples generates.
fn need_for(n: usize, rate: u32) -> usize
    requires { (dsp_rate ≤ rate) × (n ≤ 1024) }
    ensures { result ≡ need n rate }
{
    ceiling((n as u64) * (DSP_RATE as u64), rate as u64) as usize + 1
}

// How many samples the resampler can make of k, between unequal rates.
fn room_for(k: usize, rate: u32) -> usize
    requires { (dsp_rate < rate) × (rate ≤ highest_rate) × (k ≤ 1025) }
    ensures { result ≡ max_output_len dsp_rate rate k }
{
    nearest((k as u64) * (rate as u64), DSP_RATE as u64) as usize + 2
}

#[derive(Clone, Copy)]
struct Made {
    count: usize,
    wave: Wave,
    resampler: Resampler,
}

// Generates as many samples as `scratch` has places, and resamples them to the front of `out`, as far as it goes.
fn make(
    bits: &[bool; 4096],
    t: TonePair,
    w: Wave,
    r: Resampler,
    scratch: &mut [f64],
    out: &mut [f64],
) -> Made
    requires { WaveHeld bits.now w }
    ensures { MakesInto bits.now t w r (length scratch.old) out.new result.count result.wave result.resampler }
{
    let wave = generate(bits, t, w, scratch);
    let p = r.run(scratch, out);
    let resampler = p.state;
    Made {
        count: p.count,
        wave,
        resampler,
    }
}

// What a pass reads of the sender and leaves as it is.
#[derive(Clone, Copy)]
pub struct Settings {
    pub rate: u32,
    pub tones: TonePair,
    pub amplitude: f32,
}

// How many samples a pass wrote, how many are pending after it, and what moved.
#[derive(Clone, Copy)]
pub struct Passed {
    pub count: usize,
    pub upto: usize,
    pub wave: Wave,
    pub resampler: Resampler,
}

// A pass in arrays of the length that it needs.
fn pass_in(
    bits: &[bool; 4096],
    s: Settings,
    w: Wave,
    r: Resampler,
    scratch: &mut [f64],
    out: &mut [f64],
    pending: &mut [f32],
    rest: &mut [f32],
) -> Passed
    requires wave_held { WaveHeld bits.now w × Rising s.rate r × (length rest.old ≤ 1024) × (length pending.old ≡ 64) }
    requires scratch_len { (length scratch.old ≡ need (length rest.old) s.rate)
        × (length out.old ≡ max_output_len dsp_rate s.rate (need (length rest.old) s.rate)) }
    ensures { PassesOver bits.now s w r (length rest.old) rest.new pending.new result }
{
    let t = s.tones;
    let m = make(bits, t, w, r, scratch, out);
    let k = m.count;
    let count = share(&out[..k], s.amplitude, pending, rest);
    Passed {
        count,
        upto: k - count,
        wave: m.wave,
        resampler: m.resampler,
    }
}

// A pass in arrays of N places: 80 are soon cleared and do for a short rest, 1,040 for any.
fn pass_within<const N: usize>(
    bits: &[bool; 4096],
    s: Settings,
    w: Wave,
    r: Resampler,
    pending: &mut [f32],
    rest: &mut [f32],
) -> Passed
    requires wave_held { WaveHeld bits.now w × Rising s.rate r × (dsp_rate < s.rate) × (length rest.old ≤ 1024) × (length pending.old ≡ 64) }
    requires room { (length rest.old + 16 ≤ N) × (N ≤ 1040) }
    ensures { PassesOver bits.now s w r (length rest.old) rest.new pending.new result }
{
    let k = need_for(rest.len(), s.rate);
    let room = room_for(k, s.rate);
    let mut scratch: [f64; N] = filled(0.0);
    let mut out: [f64; N] = filled(0.0);
    pass_in(
        bits,
        s,
        w,
        r,
        &mut scratch[..k],
        &mut out[..room],
        pending,
        rest,
    )
}

// One pass over the unwritten rest of the caller's slice.
pub(crate) fn pass(
    bits: &[bool; 4096],
    s: Settings,
    w: Wave,
    r: Resampler,
    pending: &mut [f32],
    rest: &mut [f32],
) -> Passed
    requires { WaveHeld bits.now w × Rising s.rate r × (dsp_rate < s.rate) × (length rest.old ≤ 1024) × (length pending.old ≡ 64) }
    ensures { PassesOver bits.now s w r (length rest.old) rest.new pending.new result }
{
    if rest.len() <= 64 {
        pass_within::<80>(bits, s, w, r, pending, rest)
    } else {
        pass_within::<1040>(bits, s, w, r, pending, rest)
    }
}

// ---- a pass at a rate of 8,000, where nothing is resampled

// A pass in an array of the length that it needs: a sample more than the rest has places for.
fn equal_in(
    bits: &[bool; 4096],
    t: TonePair,
    w: Wave,
    a: f32,
    scratch: &mut [f64],
    pending: &mut [f32],
    rest: &mut [f32],
) -> Wave
    requires { BitsHeld bits.now w.head w.waiting × (length scratch.old ≡ length rest.old + 1) × (length pending.old ≡ 64) }
    ensures { EqualInto bits.now t a w (length rest.old) rest.new pending.new result }
{
    let wave = generate(bits, t, w, scratch);
    share(scratch, a, pending, rest);
    wave
}

// A pass in an array of N places, as `pass_within`.
fn equal_within<const N: usize>(
    bits: &[bool; 4096],
    t: TonePair,
    w: Wave,
    a: f32,
    pending: &mut [f32],
    rest: &mut [f32],
) -> Wave
    requires { BitsHeld bits.now w.head w.waiting × (length rest.old + 1 ≤ N) × (N ≤ 1040) × (length pending.old ≡ 64) }
    ensures { EqualInto bits.now t a w (length rest.old) rest.new pending.new result }
{
    let k = rest.len() + 1;
    let mut scratch: [f64; N] = filled(0.0);
    equal_in(bits, t, w, a, &mut scratch[..k], pending, rest)
}

// One pass over the unwritten rest of the caller's slice.
pub(crate) fn equal_pass(
    bits: &[bool; 4096],
    t: TonePair,
    w: Wave,
    a: f32,
    pending: &mut [f32],
    rest: &mut [f32],
) -> Wave
    requires { BitsHeld bits.now w.head w.waiting × (length rest.old ≤ 1024) × (length pending.old ≡ 64) }
    ensures { EqualInto bits.now t a w (length rest.old) rest.new pending.new result }
{
    if rest.len() <= 64 {
        equal_within::<80>(bits, t, w, a, pending, rest)
    } else {
        equal_within::<1040>(bits, t, w, a, pending, rest)
    }
}
