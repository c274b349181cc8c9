// Lists of calls of the receiver.
ghost use Rattle.std.specs.Prelude.{◌≡◌, ◌+◌, ◌*◌, ◌≤◌, length, take, drop};
ghost use Rattle.modem.specs.RxRep.{receiver_of};
ghost use Rattle.calls.specs.Receive.{called, call_in, calls_for, ran, received_from, receive_run};
ghost use Rattle.calls.specs.ReceiveSteps.{Takes, Calls, Within, Stepped};

use crate::answers::{Heard, numbers_of, tell_heard};
use crate::events::{event_byte, events_in};
use crate::roles::role_of;
use modem::Rx;
use numeric::ends::part_end;

// How many events were taken, and the receiver.
#[derive(Clone, Copy)]
struct TakenEvents {
    state: Rx,
    count: usize,
}

// As many events as wait and have room in buf, oldest first.
fn take_events(rx: Rx, buf: &mut [u8]) -> TakenEvents
    ensures { Takes (receiver_of rx) buf.old result.count (receiver_of result.state) buf.new }
{
    let mut state = rx;
    for i in 0..buf.len() {
        let t = state.events();
        state = t.state;
        if events_in(t.event) == 0 {
            return TakenEvents { count: i, state };
        }
        buf[i] = event_byte(t.event);
    }
    TakenEvents {
        count: buf.len(),
        state,
    }
}

// A call's answer, and the receiver.
#[derive(Clone, Copy)]
pub struct Called {
    pub state: Rx,
    pub answer: Heard,
}

// A write, a read into the whole of bytes, and events into the whole of events.
pub fn make_call(rx: Rx, samples: &[f32], bytes: &mut [u8], events: &mut [u8]) -> Called
    ensures { Calls (called (receiver_of rx) samples.now (length bytes.old) (length events.old))
        bytes.old events.old result.answer result.state bytes.new events.new }
{
    let w = rx.write(samples);
    let numbers = numbers_of(w.answer);
    let heard = w.state;
    let d = heard.read(bytes);
    let read = d.state;
    let t = take_events(read, events);
    let state = t.state;
    let answer = Heard {
        number: numbers.number,
        bytes: d.count,
        events: t.count,
        carrier: u32::from(state.carrier_detected()),
        errors: state.framing_errors(),
        bad_stops: numbers.count,
    };
    Called { answer, state }
}

// Where a list of calls stands: the receiver, and how much of the samples, the bytes and the events is behind it.
#[derive(Clone, Copy)]
struct Place {
    state: Rx,
    read: usize,
    bytes: usize,
    events: usize,
}

// A script's three numbers for a call: samples in the write, bytes to read at most, events to take at most.
#[derive(Clone, Copy)]
pub struct Call {
    pub samples: u32,
    pub bytes: u32,
    pub events: u32,
}

// The i-th call of a script.
fn call_in(script: &[u32], i: usize) -> Call
    requires { 3 * i + 3 ≤ length script.now }
    ensures { result ≡ call_in script.now i }
{
    Call {
        samples: script[3 * i],
        bytes: script[3 * i + 1],
        events: script[3 * i + 2],
    }
}

// One call, and its six numbers at `at` of the answers.
fn one_call(
    p: Place,
    k: Call,
    samples: &[f32],
    bytes: &mut [u8],
    events: &mut [u8],
    answers: &mut [u64],
    at: usize,
) -> Place
    requires { Within p samples.now bytes.old events.old × (at + 6 ≤ length answers.old) }
    ensures stepped { Stepped p result k samples.now bytes.old bytes.new events.old
        events.new (take at answers.old) (drop (at + 6) answers.old) answers.new }
    ensures within { Within result samples.now bytes.new events.new }
{
    let Place {
        state,
        read,
        bytes: b,
        events: e,
    } = p;
    let end = part_end(read, k.samples, samples.len());
    let b_end = part_end(b, k.bytes, bytes.len());
    let e_end = part_end(e, k.events, events.len());
    let c = make_call(
        state,
        &samples[read..end],
        &mut bytes[b..b_end],
        &mut events[e..e_end],
    );
    let reply = c.answer;
    tell_heard(answers, at, reply);
    Place {
        state: c.state,
        read: end,
        bytes: b + reply.bytes,
        events: e + reply.events,
    }
}

// Each call of the script that has room for its answer.
fn all_calls(
    state: Rx,
    samples: &[f32],
    script: &[u32],
    bytes: &mut [u8],
    events: &mut [u8],
    answers: &mut [u64],
) -> usize
    ensures { ran result bytes.new events.new answers.new
        ≡ received_from (calls_for script.now answers.old)
        (receiver_of state) samples.now script.now bytes.old events.old answers.old }
{
    let calls = (script.len() / 3).min(answers.len() / 6);
    let mut place = Place {
        state,
        read: 0,
        bytes: 0,
        events: 0,
    };
    for i in 0..calls {
        place = one_call(
            place,
            call_in(script, i),
            samples,
            bytes,
            events,
            answers,
            6 * i,
        );
    }
    calls
}

pub fn received_from_fresh(
    rate: u32,
    role: u32,
    samples: &[f32],
    script: &[u32],
    bytes: &mut [u8],
    events: &mut [u8],
    answers: &mut [u64],
) -> usize
    ensures { ran result bytes.new events.new answers.new
        ≡ receive_run rate role samples.now script.now bytes.old events.old answers.old }
{
    let made = Rx::new(rate, role_of(role));
    let answer = made.answer;
    let state = made.state;
    match answer {
        Err(_) => 0,
        Ok(()) => all_calls(state, samples, script, bytes, events, answers),
    }
}
