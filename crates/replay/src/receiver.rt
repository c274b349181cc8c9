// The receiver's calls, and the line that each prints.

use crate::print;
use bell103::Role;
use modem::Rx;
use numeric::arrays::filled;

// Role 0 originates.
pub fn role_of(n: u64) -> Role {
    if n == 0 {
        Role::Originate
    } else {
        Role::Answer
    }
}

// A fresh receiver; role 0 originates.
pub fn create(rate: u32, role: u64) -> Rx {
    let made = Rx::new(rate, role_of(role));
    let answer = made.answer;
    print::text(b"receiver ");
    print::number(rate as u64);
    print::text(b" ");
    print::number(role);
    print::text(b": ");
    print::acceptance(answer);
    print::end_line();
    made.state
}

// Reads as many bytes as the buffer has room for.
fn read_into(rx: Rx, buf: &mut [u8]) -> Rx {
    let given = rx.read(buf);
    print::text(b", bytes");
    print::bytes(buf, given.count);
    given.state
}

// Reads at most so many bytes, and at most all that can wait.
fn read(rx: Rx, most: u64) -> Rx {
    let mut bytes: [u8; 512] = filled(0);
    let room = most.min(512) as usize;
    read_into(rx, &mut bytes[..room])
}

// Drains at most so many events.
fn drain(rx: Rx, most: u64) -> Rx {
    print::text(b", events");
    let mut now = rx;
    for _ in 0..most {
        let taken = now.events();
        now = taken.state;
        if !print::event(taken.event) {
            return now;
        }
    }
    now
}

// The answer of a write, and what the receiver reports behind it.
pub fn write(rx: Rx, samples: &[f32], bytes: u64, events: u64) -> Rx {
    let written = rx.write(samples);
    let answer = written.answer;
    let after = written.state;
    print::text(b"write ");
    print::number(samples.len() as u64);
    print::text(b": ");
    print::refusal(answer);
    print::text(b", carrier ");
    print::flag(after.carrier_detected());
    print::text(b", errors ");
    print::number(after.framing_errors() as u64);
    let left = read(after, bytes);
    let last = drain(left, events);
    print::end_line();
    last
}
