// What the program keeps from line to line, and what each line does.
ghost use Rattle.std.specs.Prelude.{◌≡◌, ◌≤◌, length, IfSome};

use crate::block::{bytes_of, equal, several, signs};
use crate::fields::{numbers_of, word};
use crate::floats::{doubles, singles};
use crate::{print, receiver, resampler, sender};
use bell103::Role;
use modem::Rx;
use modulation::Tx;
use resampling::Resampler;

// The places of the block: one more than a call of the resampler takes.
pub const PLACES: usize = 2049;

// The most places of an output.
const MOST_ROOM: u64 = 4096;

// The most samples of a read: one more than it takes.
const MOST_READ: u64 = 1025;

#[derive(Clone, Copy)]
pub struct Decoder {
    pub rx: Rx,
    pub resampler: Resampler,
    pub tx: Tx,
    // Samples or bytes in the block.
    pub n: usize,
    // Lines begun.
    pub line: u64,
    pub ghost filled: { n ≤ 2049 },
}

pub fn fresh() -> Decoder {
    let receiver = Rx::new(8000, Role::Originate);
    let converter = Resampler::new(8000, 8000);
    let sender = Tx::new(8000, Role::Originate);
    let rx = receiver.state;
    let resampler = converter.state;
    let tx = sender.state;
    Decoder {
        rx,
        resampler,
        tx,
        n: 0,
        line: 0,
    }
}

// A line that is none of those that main.rt lists: nothing is done.
fn malformed(line: u64) {
    print::text(b"? line ");
    print::number(line);
    print::end_line();
}

// The states are lent and changed where they stand: they are large, and each copy takes long. The call that is made took what was in the block.
fn with_rx(d: &mut Decoder, rx: Rx) {
    d.rx = rx;
    d.n = 0;
}

fn with_resampler(d: &mut Decoder, resampler: Resampler) {
    d.resampler = resampler;
    d.n = 0;
}

fn with_tx(d: &mut Decoder, tx: Tx) {
    d.tx = tx;
    d.n = 0;
}

// A number up to a most.
fn up_to(most: u64, n: u64) -> Option<u64>
    ensures { IfSome result (λ k. k ≤ most) }
{
    if n <= most { Some(n) } else { None }
}

// ---- the calls of the receiver and the resampler: none where the line is not as main.rt says, and then the states are as they were

fn new_receiver(d: &mut Decoder, line: &[u8]) -> Option<()> {
    let [rate, role] = numbers_of::<2>(line, false)?;
    with_rx(d, receiver::create(word(rate)?, up_to(1, role)?));
    Some(())
}

fn write(d: &mut Decoder, block: &[u64], line: &[u8]) -> Option<()> {
    let [bytes, events] = numbers_of::<2>(line, false)?;
    let mut samples = [0.0f32; PLACES];
    singles(block, &mut samples);
    let rx = receiver::write(d.rx, &samples[..d.n], bytes, events);
    with_rx(d, rx);
    Some(())
}

fn new_resampler(d: &mut Decoder, line: &[u8]) -> Option<()> {
    let [src, dst] = numbers_of::<2>(line, false)?;
    with_resampler(d, resampler::create(word(src)?, word(dst)?));
    Some(())
}

fn process(d: &mut Decoder, block: &[u64], line: &[u8]) -> Option<()> {
    let [room] = numbers_of::<1>(line, false)?;
    let places = up_to(MOST_ROOM, room)?;
    let mut input = [0.0f64; PLACES];
    doubles(block, &mut input);
    let r = resampler::process(d.resampler, &input[..d.n], places as usize);
    with_resampler(d, r);
    Some(())
}

fn longest(line: &[u8]) -> Option<()> {
    let [src, dst, n] = numbers_of::<3>(line, false)?;
    resampler::longest(word(src)?, word(dst)?, n);
    Some(())
}

// ---- the sender's calls

fn new_sender(d: &mut Decoder, line: &[u8]) -> Option<()> {
    let [rate, role] = numbers_of::<2>(line, false)?;
    with_tx(d, sender::create(word(rate)?, up_to(1, role)?));
    Some(())
}

fn set_amplitude(d: &mut Decoder, line: &[u8]) -> Option<()> {
    let [pattern] = numbers_of::<1>(line, true)?;
    let bits = word(pattern)?;
    let tx = sender::set_amplitude(d.tx, bits as u64);
    with_tx(d, tx);
    Some(())
}

fn send(d: &mut Decoder, block: &[u64], line: &[u8]) -> Option<()> {
    if line.len() != 1 {
        return None;
    }
    let mut bytes = [0u8; PLACES];
    bytes_of(block, &mut bytes);
    let tx = sender::write(d.tx, &bytes[..d.n]);
    with_tx(d, tx);
    Some(())
}

fn idle_mark(d: &mut Decoder, line: &[u8]) -> Option<()> {
    let [bits] = numbers_of::<1>(line, false)?;
    let tx = sender::idle_mark(d.tx, bits);
    with_tx(d, tx);
    Some(())
}

fn read(d: &mut Decoder, line: &[u8], each: bool) -> Option<()> {
    let [samples] = numbers_of::<1>(line, false)?;
    let n = up_to(MOST_READ, samples)?;
    let tx = sender::read(d.tx, n as usize, each);
    with_tx(d, tx);
    Some(())
}

fn duration(d: &mut Decoder, line: &[u8]) -> Option<()> {
    let [bits] = numbers_of::<1>(line, false)?;
    sender::duration(d.tx, bits);
    d.n = 0;
    Some(())
}

// ---- a line

// So many samples or bytes in the block.
fn with_places(d: &mut Decoder, n: usize) -> Option<()>
    requires { n ≤ 2049 }
{
    d.n = n;
    Some(())
}

// What a line does, by its letter.
fn done(d: &mut Decoder, block: &mut [u64], line: &[u8]) -> Option<()>
    requires { length block.old ≡ 2049 }
    ensures { length block.new ≡ 2049 }
{
    match line {
        [] => None,
        [b'#', ..] => {
            print::text(line);
            print::end_line();
            Some(())
        }
        [b'S', ..] => {
            let n = several(block, d.n, line)?;
            with_places(d, n)
        }
        [b'N', ..] => {
            let n = equal(block, d.n, line)?;
            with_places(d, n)
        }
        [b'B', ..] => {
            let n = signs(block, d.n, line)?;
            with_places(d, n)
        }
        [letter, ..] => call(d, *letter, block, line),
    }
}

// The lines that make a call.
fn call(d: &mut Decoder, letter: u8, block: &[u64], line: &[u8]) -> Option<()> {
    match letter {
        b'R' => new_receiver(d, line),
        b'W' => write(d, block, line),
        b'Z' => new_resampler(d, line),
        b'P' => process(d, block, line),
        b'M' => longest(line),
        b'T' => new_sender(d, line),
        b'A' => set_amplitude(d, line),
        b'K' => send(d, block, line),
        b'I' => idle_mark(d, line),
        b'G' => read(d, line, true),
        b'H' => read(d, line, false),
        b'L' => duration(d, line),
        _ => None,
    }
}

// One line, without its end.
pub fn run(d: &mut Decoder, block: &mut [u64], line: &[u8])
    requires { length block.old ≡ 2049 }
    ensures { length block.new ≡ 2049 }
{
    d.line = d.line.wrapping_add(1);
    if done(d, block, line).is_none() {
        malformed(d.line);
    }
}
