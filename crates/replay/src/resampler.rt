// The resampler's calls, and the lines that each prints.
ghost use Rattle.std.specs.Prelude.{◌≡◌, ◌≤◌, length};

use crate::floats::print_patterns;
use crate::print;
use numeric::arrays::filled;
use resampling::Resampler;

fn rates(src: u32, dst: u32) {
    print::number(src as u64);
    print::text(b" ");
    print::number(dst as u64);
}

// A fresh resampler.
pub fn create(src: u32, dst: u32) -> Resampler {
    let made = Resampler::new(src, dst);
    let answer = made.answer;
    print::text(b"resampler ");
    rates(src, dst);
    print::text(b": ");
    print::acceptance(answer);
    print::end_line();
    made.state
}

// `max_output_len` of a fresh resampler.
pub fn longest(src: u32, dst: u32, n: u64) {
    let made = Resampler::new(src, dst);
    let r = made.state;
    print::text(b"longest ");
    rates(src, dst);
    print::text(b" ");
    print::number(n);
    print::text(b": ");
    print::counted(r.max_output_len(n as usize));
    print::end_line();
}

// The answer to `process` with this output, and each sample that it wrote.
fn process_into(r: Resampler, input: &[f64], output: &mut [f64]) -> Resampler {
    let done = r.process(input, output);
    let answer = done.answer;
    print::text(b"process ");
    print::number(input.len() as u64);
    print::text(b", room ");
    print::number(output.len() as u64);
    print::text(b": ");
    print::counted(answer);
    print::end_line();
    print_patterns(output, answer.unwrap_or(0));
    done.state
}

// `process` with so much room.
pub fn process(r: Resampler, input: &[f64], room: usize) -> Resampler
    requires { room ≤ 4096 }
{
    let mut output: [f64; 4096] = filled(0.0);
    process_into(r, input, &mut output[..room])
}
