// Hears samples at 8,000 Hz: what happened goes, by its codes and in order, into a lent array.
ghost use Rattle.std.specs.Prelude.{◌≡◌, [], ◌∷◌, ◌≤◌, ◌<◌, ◌+◌, length, take};
ghost use Rattle.happenings.specs.Happening.{happening_of};
ghost use Rattle.happenings.specs.Codes.{most_steps, most_codes, Codes};
ghost use Rattle.demodulation.specs.Demod.{fall_of, change_of, word_of, happens_at};
ghost use Rattle.demodulation.specs.Listening.{Put, Hearable, HearsInto};

use crate::correlator::{next_sums, sums_before};
use crate::demod::{Carrier, Demodulator};
use crate::waves::{waves, waves_ahead};
use framing::frame::Heard;
use refusal::Counting;

// The codes of a bad stop, of a loss, and of a change of the report; a byte is its own. Numbers, for fixed memory: two bytes each in a lent array,
// which `happening_of` turns back.
const BAD_STOP: u16 = 256;

const LOST: u16 = 257;

const UP: u16 = 258;

const DOWN: u16 = 259;

// One more code, behind the first n. Answers how many there are. The array is lent and its count handed on apart, so that the loop copies nothing.
fn put(codes: &mut [u16; 2052], n: usize, code: u16) -> usize
    requires { (n < most_codes) × Codes codes.old }
    ensures { Put n codes.old (happening_of code ∷ []) result codes.new }
{
    codes[n] = code;
    n + 1
}

// The detector goes down. Both its states, as the definition has them: one flag for a fall would say no more.
#[tactic(auto, unfolding(happenings::specs::Happening::happening_of))]
fn put_fall(codes: &mut [u16; 2052], n: usize, was: bool, up: bool) -> usize
    requires { (n + length (fall_of was up) ≤ most_codes) × Codes codes.old }
    ensures { Put n codes.old (fall_of was up) result codes.new }
{
    if was && !up { put(codes, n, LOST) } else { n }
}

// A change of the report.
#[tactic(auto, unfolding(happenings::specs::Happening::happening_of))]
fn put_change(codes: &mut [u16; 2052], n: usize, event: Option<Carrier>) -> usize
    requires { (n + length (change_of event) ≤ most_codes) × Codes codes.old }
    ensures { Put n codes.old (change_of event) result codes.new }
{
    match event {
        None => n,
        Some(Carrier::Up) => put(codes, n, UP),
        Some(Carrier::Down) => put(codes, n, DOWN),
    }
}

fn byte_code(b: u8) -> u16
    ensures { (result ≡ b) × (b < 256) }
{
    b as u16
}

// What a bit completed.
#[tactic(auto, unfolding(happenings::specs::Happening::happening_of))]
fn put_word(codes: &mut [u16; 2052], n: usize, heard: Heard) -> usize
    requires { (n + length (word_of heard) ≤ most_codes) × Codes codes.old }
    ensures { Put n codes.old (word_of heard) result codes.new }
{
    match heard {
        Heard::Byte(b) => put(codes, n, byte_code(b)),
        Heard::Waiting => n,
        Heard::BadStop => put(codes, n, BAD_STOP),
    }
}

// All that happened at a step, in order, behind the first n codes. Answers how many there are.
fn put_step(
    codes: &mut [u16; 2052],
    n: usize,
    was: bool,
    up: bool,
    event: Option<Carrier>,
    heard: Heard,
) -> usize
    requires { (n + length (happens_at was up event heard) ≤ most_codes) × Codes codes.old }
    ensures { Put n codes.old (happens_at was up event heard) result codes.new }
{
    let a = put_fall(codes, n, was, up);
    let b = put_change(codes, a, event);
    put_word(codes, b, heard)
}

// Hears each sample. What changes at a sample is small or lent. The next sample's cosines and sines wait for nothing of this one, and so are taken
// before it is heard, beside it.
fn hear_each(d: Demodulator, samples: &[f64], codes: &mut [u16; 2052]) -> Counting<Demodulator>
    requires { Hearable samples.now codes.old }
    ensures { HearsInto d samples.now codes.old result codes.new }
{
    let mut rings = d.rings;
    let mut core = d.core;
    let mut sums = sums_before(&rings, core.corr.pos);
    let mut w = waves(core.corr.phase_m, core.corr.phase_s);
    let mut count = 0;
    for &s in samples {
        let place = core.corr;
        let was = core.carrier.detected;
        let ahead = waves_ahead(place);
        let t = core.step(&mut rings, w, sums, s);
        sums = next_sums(&rings, place.pos, sums);
        core = t.core;
        w = ahead;
        count = put_step(codes, count, was, core.carrier.detected, t.event, t.heard);
    }
    let state = Demodulator { rings, core };
    Counting { state, count }
}

// Hears the first 1,026 samples, which is what the codes have room for.
pub fn hear(d: Demodulator, samples: &[f64], codes: &mut [u16; 2052]) -> Counting<Demodulator>
    requires { Codes codes.old }
    ensures { HearsInto d (take most_steps samples.now) codes.old result codes.new }
{
    if samples.len() <= 1026 {
        return hear_each(d, samples, codes);
    }
    hear_each(d, &samples[..1026], codes)
}
