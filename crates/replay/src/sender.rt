// The sender's calls, and the lines that each prints.
ghost use Rattle.std.specs.Prelude.{◌≡◌, ◌≤◌, length};

use crate::floats::{print_singles, single, sum_of_patterns};
use crate::print;
use crate::receiver::role_of;
use modulation::Tx;
use numeric::arrays::filled;
use refusal::Refusal;

// A fresh sender; role 0 originates.
pub fn create(rate: u32, role: u64) -> Tx {
    let made = Tx::new(rate, role_of(role));
    let answer = made.answer;
    print::text(b"sender ");
    print::number(rate as u64);
    print::text(b" ");
    print::number(role);
    print::text(b": ");
    print::acceptance(answer);
    print::end_line();
    made.state
}

// Whether bits wait.
fn wait(tx: Tx) {
    print::text(b", wait ");
    print::flag(tx.pending());
}

// The answer, and whether bits wait afterwards.
fn answered(answer: Result<(), Refusal>, after: Tx) {
    print::text(b": ");
    print::acceptance(answer);
    wait(after);
}

// Writes the bytes.
pub fn write(tx: Tx, bytes: &[u8]) -> Tx {
    let written = tx.write(bytes);
    let answer = written.answer;
    let after = written.state;
    print::text(b"send ");
    print::number(bytes.len() as u64);
    answered(answer, after);
    print::end_line();
    after
}

// Writes n bits of idle mark.
pub fn idle_mark(tx: Tx, n: u64) -> Tx {
    let written = tx.write_idle_mark(n as usize);
    let answer = written.answer;
    let after = written.state;
    print::text(b"idle mark ");
    print::number(n);
    answered(answer, after);
    print::end_line();
    after
}

// Sets the amplitude to the f32 with this pattern.
pub fn set_amplitude(tx: Tx, pattern: u64) -> Tx {
    let set = tx.set_amplitude(single(pattern));
    let answer = set.answer;
    let after = set.state;
    print::text(b"amplitude ");
    print::pattern(pattern);
    answered(answer, after);
    print::end_line();
    after
}

// The samples of an accepted read: each on a line of its own, or their sum on the answer's line.
fn samples_read(samples: &[f32], each: bool) {
    if each {
        print::end_line();
        print_singles(samples);
        return;
    }
    print::text(b", sum ");
    print::pattern(sum_of_patterns(samples));
    print::end_line();
}

// Behind a read's answer: the samples, or nothing where it was refused.
fn given(answer: Result<(), Refusal>, samples: &[f32], each: bool) {
    match answer {
        Ok(()) => {
            samples_read(samples, each);
        }
        Err(_) => {
            print::end_line();
        }
    }
}

// Reads as many samples as there are places.
fn read_into(tx: Tx, samples: &mut [f32], each: bool) -> Tx {
    let done = tx.read(samples);
    let answer = done.answer;
    let after = done.state;
    print::text(b"read ");
    print::number(samples.len() as u64);
    answered(answer, after);
    given(answer, samples, each);
    after
}

// Reads n samples, and prints each of them or their sum.
pub fn read(tx: Tx, n: usize, each: bool) -> Tx
    requires { n ≤ 1025 }
{
    let mut samples: [f32; 1025] = filled(0.0);
    read_into(tx, &mut samples[..n], each)
}

// `samples_for_bits` of n.
pub fn duration(tx: Tx, n: u64) {
    print::text(b"samples for ");
    print::number(n);
    print::text(b" bits: ");
    print::counted(tx.samples_for_bits(n as usize));
    wait(tx);
    print::end_line();
}
