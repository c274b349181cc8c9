// A byte's frame, and the deframer from idle on ten bits.
use crate::print;
use framing::frame::{Deframer, Heard, frame_byte};

fn bit(mark: bool) {
    print::text(if mark { b"1" } else { b"0" });
}

// Start bit, two groups of four data bits, stop bit.
fn framed(b: u8) {
    let f = frame_byte(b);
    print::text(b"frame of ");
    print::byte(b);
    print::text(b": ");
    bit(f[0]);
    print::text(b" ");
    bit(f[1]);
    bit(f[2]);
    bit(f[3]);
    bit(f[4]);
    print::text(b" ");
    bit(f[5]);
    bit(f[6]);
    bit(f[7]);
    bit(f[8]);
    print::text(b" ");
    bit(f[9]);
    print::end_line();
}

fn heard(h: Heard) {
    match h {
        Heard::Byte(b) => {
            print::text(b"byte ");
            print::byte(b);
            print::text(b", ");
        }
        Heard::Waiting => {}
        Heard::BadStop => {
            print::text(b"bad stop, ");
        }
    }
}

// Pushes one bit, and prints the byte or the bad stop that it completes.
fn push(d: Deframer, mark: bool) -> Deframer {
    let p = d.push_bit(mark);
    let h = p.heard;
    heard(h);
    p.state
}

fn errors_and_place(d: Deframer) {
    print::text(b"errors ");
    print::number(d.framing_errors() as u64);
    if d.in_frame {
        print::text(b", in a frame");
    } else {
        print::text(b", idle");
    }
}

// Ten bits from idle: the bytes heard, the errors, and where that leaves the deframer.
fn ten_bits(bits: [bool; 10]) {
    let mut d = Deframer::new();
    for mark in bits {
        d = push(d, mark);
    }
    errors_and_place(d);
    print::end_line();
}

fn deframed(b: u8) {
    print::text(b"frame of ");
    print::byte(b);
    print::text(b", deframed: ");
    ten_bits(frame_byte(b));
}

fn spaces() {
    print::text(b"ten spaces from idle: ");
    ten_bits([false; 10]);
}

pub fn show() {
    framed(0x41);
    deframed(0x41);
    spaces();
}
