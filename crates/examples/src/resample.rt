// The resampler's rates, taps, lengths and refusals, and that a refused call writes nothing.
ghost use Rattle.std.specs.Prelude.{◌≡◌, ◌≤◌, length};

use crate::print;
use resampling::Resampler;

fn created(src: u32, dst: u32) {
    print::text(b"new ");
    print::rates(src, dst);
    print::text(b": ");
    let made = Resampler::new(src, dst);
    let answer = made.answer;
    print::acceptance(answer);
    print::end_line();
}

fn taps(rate: u32) {
    print::text(b"taps at ");
    print::number(rate as u64);
    print::text(b": ");
    let made = Resampler::new(rate, 8000);
    let r = made.state;
    print::number(r.tap_count() as u64);
    print::end_line();
}

fn most(src: u32, dst: u32, samples: usize) {
    print::text(b"max_output_len ");
    print::rates(src, dst);
    print::text(b" of ");
    print::number(samples as u64);
    print::text(b": ");
    let made = Resampler::new(src, dst);
    let r = made.state;
    print::count(r.max_output_len(samples));
    print::end_line();
}

// The longest input or output below.
const LONG: usize = 2049;

fn all(x: f64) -> [f64; LONG]
    ensures { length result ≡ 2049 }
{
    [x; LONG]
}

fn differ(a: f64, b: f64) -> usize
    ensures { result ≤ 1 }
{
    if a == b { 0 } else { 1 }
}

// At how many places of `a` another number stands than in `b`: all, where `b` is shorter.
fn differing(a: &[f64], b: &[f64]) -> usize {
    if b.len() < a.len() {
        return a.len();
    }
    let mut n = 0;
    // An index: two slices are walked side by side, and a zip with a filter reads no plainer.
    for i in 0..a.len() {
        n += differ(a[i], b[i]);
    }
    n
}

fn process_label(src: u32, dst: u32, samples: usize, room: usize) {
    print::text(b"process ");
    print::rates(src, dst);
    print::text(b", ");
    print::number(samples as u64);
    print::text(b" zeros, room for ");
    print::number(room as u64);
    print::text(b": ");
}

// The answer, and at how many places the output is no longer as it was.
fn process(src: u32, dst: u32, input: &[f64], output: &mut [f64], before: &[f64]) {
    process_label(src, dst, input.len(), output.len());
    let made = Resampler::new(src, dst);
    let r = made.state;
    let p = r.process(input, output);
    let answer = p.answer;
    print::count(answer);
    print::text(b", places changed: ");
    print::number(differing(output, before) as u64);
    print::end_line();
}

// So many zeros, into an output that holds ones.
fn process_zeros(src: u32, dst: u32, samples: usize, room: usize)
    requires { (samples ≤ 2049) × (room ≤ 2049) }
{
    let input = all(0.0);
    let before = all(1.0);
    let mut output = before;
    process(src, dst, &input[..samples], &mut output[..room], &before);
}

// Equal rates copy.
fn copied() {
    let input = [0.25, -1.0, 0.0, 1.0];
    let mut output = [0.5, 0.5, 0.5, 0.5];
    print::text(b"process 8000 to 8000, four samples: ");
    let made = Resampler::new(8000, 8000);
    let r = made.state;
    let p = r.process(&input, &mut output);
    let answer = p.answer;
    print::count(answer);
    print::text(b", places unlike the input: ");
    print::number(differing(&output, &input) as u64);
    print::end_line();
}

pub fn show() {
    created(8000, 48000);
    created(7999, 8000);
    created(48001, 8000);
    created(44100, 48000);
    taps(8001);
    taps(48000);
    most(48000, 8000, 1024);
    most(48000, 8000, 0);
    most(8000, 8000, 0);
    most(48000, 8000, 2048);
    most(48000, 8000, 2049);
    process_zeros(48000, 8000, 1024, 173);
    process_zeros(48000, 8000, 1024, 172);
    process_zeros(48000, 8000, 2048, 343);
    process_zeros(48000, 8000, 2049, 2049);
    copied();
}
