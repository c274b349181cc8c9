// Standard input, cut into lines.
ghost use Rattle.std.specs.Prelude.{◌≡◌, ◌<◌, ◌≤◌, length};
ghost use Rattle.replay.specs.Lines.{ScansOn};

use crate::decoder::{Decoder, PLACES, fresh, run};
use std::io::Read;

// One place more than the longest line has.
const WIDTH: usize = 321;

// How far the input is read, how many characters of a line stand in the buffer, and whether the line ended.
#[derive(Drop)]
struct Scanned {
    at: usize,
    n: usize,
    ended: bool,
}

// One more character, as far as there is room.
fn keep(line: &mut [u8], n: usize, b: u8) -> usize
    requires { n ≤ length line.old }
    ensures { (result ≤ length line.old) × (length line.new ≡ length line.old) }
{
    if n < line.len() {
        line[n] = b;
        return n + 1;
    }
    n
}

// The input up to the end of a line, or to its own end.
fn scan(input: &[u8], from: usize, line: &mut [u8], filled: usize) -> Scanned
    requires { (from < length input.now) × (filled ≤ length line.old) }
    ensures { ScansOn from input.now line.old line.new result }
{
    let mut i = from;
    let mut n = filled;
    while i < input.len() {
        let b = input[i];
        i += 1;
        if b == b'\n' {
            return Scanned {
                at: i,
                n,
                ended: true,
            };
        }
        n = keep(line, n, b);
    }
    Scanned {
        at: i,
        n,
        ended: false,
    }
}

// Runs the line if it ended.
fn run_ended(d: &mut Decoder, block: &mut [u64], line: &[u8], ended: bool)
    requires { length block.old ≡ 2049 }
    ensures { length block.new ≡ 2049 }
{
    if ended {
        run(d, block, line);
    }
}

// How much of a line is run: nothing where it fills the buffer, since it may have been longer.
fn runnable(n: usize) -> usize
    ensures { result ≤ n }
{
    if n < WIDTH { n } else { 0 }
}

// What stays of a line: nothing where it ended.
fn left(n: usize, ended: bool) -> usize
    ensures { result ≤ n }
{
    if ended { 0 } else { n }
}

// Runs each line that ends in this part of the input: how many characters of the next line stand in the buffer.
fn run_part(
    d: &mut Decoder,
    block: &mut [u64],
    line: &mut [u8],
    filled: usize,
    input: &[u8],
) -> usize
    requires { (length block.old ≡ 2049) × (length line.old ≡ 321) × (filled ≤ 321) }
    ensures { (length block.new ≡ 2049) × (length line.new ≡ 321) × (result ≤ 321) }
{
    let mut n = filled;
    let mut at = 0;
    while at < input.len() {
        let s = scan(input, at, line, n);
        let end = runnable(s.n);
        run_ended(d, block, &line[..end], s.ended);
        n = left(s.n, s.ended);
        at = s.at;
    }
    n
}

// How many bytes a read of standard input puts at the front; 0 at its end, and where it cannot be read.
fn read_some(rt: &HostRuntime, input: &mut [u8]) -> usize
    ensures { result ≤ length input.new }
{
    let mut stdin = rt.stdin();
    stdin.read(input).unwrap_or(0)
}

// Runs all lines that end. Nothing says that an input does, so the parts are counted, from a number that no run uses up.
pub fn run_all(rt: &HostRuntime) {
    let mut block = [0u64; PLACES];
    let mut line = [0u8; WIDTH];
    let mut d = fresh();
    let mut n = 0;
    for _ in 0..u64::MAX {
        let mut input = io::buffer();
        let got = read_some(rt, &mut input);
        if got == 0 {
            return;
        }
        n = run_part(&mut d, &mut block, &mut line, n, &input[..got]);
    }
}
