// Frames of bytes, and a deframer's answers bit by bit, as numbers.
ghost use Rattle.std.specs.Prelude.{◌≡◌, [], ◌∷◌, ◌++◌, map, ◌+◌, ◌≤◌, length, take, drop};
ghost use Rattle.framing.specs.Frame.{frame_of, push_bit};
ghost use Rattle.calls.specs.Answers.{bit};
ghost use Rattle.calls.specs.Frames.{mark_in, frames_run, deframer_in, heard_numbers, deframer_numbers, push_reply, deframe_run};
ghost use Rattle.calls.specs.Resample.{ran};

use crate::answers::put_row;
use framing::frame::{Deframer, Heard, frame_byte};

// ---- framing

// Writes the ten bits of a byte's frame at `at`.
fn put_frame(bits: &mut [u8], at: usize, b: u8)
    requires { at + 10 ≤ length bits.old }
    ensures { bits.new ≡ take at bits.old ++ (map bit (frame_of b) ++ drop (at + 10) bits.old) }
{
    let frame = frame_byte(b);
    for i in 0..10 {
        bits[at + i] = u8::from(frame[i]);
    }
}

// The frame of each byte that has room for its ten bits.
pub fn frame_bytes(bytes: &[u8], bits: &mut [u8]) -> usize
    ensures { ran result [] bits.new ≡ frames_run bytes.now bits.old }
{
    let frames = bytes.len().min(bits.len() / 10);
    for i in 0..frames {
        put_frame(bits, 10 * i, bytes[i]);
    }
    frames
}

// ---- deframing

// What a bit completed, in numbers of the C interface: 1 and the byte, 0 where it waits, 2 at a bad stop.
#[derive(Clone, Copy)]
struct Yielded {
    kind: u8,
    byte: u8,
}

fn yield_of(heard: Heard) -> Yielded
    ensures { result.kind ∷ result.byte ∷ [] ≡ heard_numbers heard }
{
    match heard {
        Heard::Byte(b) => Yielded { kind: 1, byte: b },
        Heard::Waiting => Yielded { kind: 0, byte: 0 },
        Heard::BadStop => Yielded { kind: 2, byte: 0 },
    }
}

// Writes the six numbers at `at`.
fn tell_pushed(answers: &mut [u64], at: usize, y: Yielded, d: Deframer)
    requires { at + 6 ≤ length answers.old }
    ensures { answers.new
        ≡ take at answers.old ++ ((y.kind ∷ y.byte ∷ deframer_numbers d) ++ drop (at + 6) answers.old) }
{
    let row = [
        y.kind as u64,
        y.byte as u64,
        u64::from(d.in_frame),
        d.bit_count as u64,
        d.acc as u64,
        d.errors as u64,
    ];
    put_row(answers, at, &row);
}

// One bit, and its six numbers at `at` of the answers.
fn one_bit(d: Deframer, number: u8, answers: &mut [u64], at: usize) -> Deframer
    requires { at + 6 ≤ length answers.old }
    ensures value { result ≡ (push_bit d (mark_in number)).state }
    ensures answers_after { answers.new ≡ take at answers.old ++ (push_reply (push_bit d (mark_in number)) ++ drop (at + 6) answers.old) }
{
    let p = d.push_bit(is_yes(number as u32));
    tell_pushed(answers, at, yield_of(p.heard), p.state);
    p.state
}

// 0 is no, any other number yes.
fn is_yes(number: u32) -> bool
    ensures { result ≡ mark_in number }
{
    number != 0
}

// Each bit that has room for its answer.
fn all_bits(start: Deframer, bits: &[u8], answers: &mut [u64]) -> usize
    ensures { ran result [] answers.new ≡ deframe_run start bits.now answers.old }
{
    let count = bits.len().min(answers.len() / 6);
    let mut d = start;
    for i in 0..count {
        d = one_bit(d, bits[i], answers, 6 * i);
    }
    count
}

// A deframer in any state, and a bit for each number.
pub fn deframe_bits(
    in_frame: u32,
    bit_count: u32,
    acc: u32,
    errors: u32,
    bits: &[u8],
    answers: &mut [u64],
) -> usize
    ensures { ran result [] answers.new
        ≡ deframe_run (deframer_in in_frame bit_count acc errors) bits.now answers.old }
{
    let d = Deframer {
        in_frame: is_yes(in_frame),
        bit_count: (bit_count % 256) as u8,
        acc: (acc % 256) as u8,
        errors,
    };
    all_bits(d, bits, answers)
}
