// The bare receiver: device samples in, bytes and carrier events out, as the Rust's.
ghost use Rattle.std.specs.Prelude.{◌≡◌, true, ◌≤◌, length};
ghost use Rattle.refusal.specs.Refusals.{reply_in};
ghost use Rattle.resampling.specs.Resample.{equal_rates};
ghost use Rattle.resampling.specs.ResampleRep.{state_of};
ghost use Rattle.demodulation.specs.Demod.{events_of};
ghost use Rattle.demodulation.specs.DemodRep.{demodulator_of};
ghost use Rattle.happenings.specs.Codes.{Codes};
ghost use Rattle.modem.specs.Queue.{most_bytes, most_events};
ghost use Rattle.modem.specs.Write.{refused_by};
ghost use Rattle.modem.specs.Rx.{new_of, made, accepted_write, written, wrote, read_of, read_out, event_of, taken, carrier_of, errors_of};
ghost use Rattle.modem.specs.RxRep.{receiver_of};

use crate::hear::hear_plain;
use crate::listener::Listener;
use crate::queue::{Bytes, Events, Queues};
use crate::write::check;
use bell103::Role;
use demodulation::{Carrier, Demodulator, Kind};
use happenings::tally_of;
use numeric::arrays::filled;
use refusal::{Answered, Counting};
use resampling::Resampler;

#[derive(Clone, Copy)]
pub struct Rx {
    listener: Listener,
    out: Bytes,
    events: Events,
}

// The oldest event, and the state.
#[derive(Clone, Copy)]
pub struct TakenEvent {
    pub state: Rx,
    pub event: Option<Carrier>,
}

// A write that no check refused: the bytes and the changes of what was heard go into the queues. At 8,000 Hz the listener is changed where it
// stands, since a copy of it takes long.
fn accept_all(mut rx: Rx, samples: &[f32]) -> Answered<Rx, usize>
    requires { refused_by samples.now rx.listener.accepted rx.out.count ≡ 0 }
    ensures { wrote (reply_in result.answer) (receiver_of result.state) ≡ accepted_write (receiver_of rx) samples.now }
{
    let mut codes: [u16; 2052] = filled(0);
    let count = if rx.listener.resampler.is_identity() {
        let h = hear_plain(rx.listener.demod, samples, &mut codes);
        rx.listener.accepted += samples.len() as u64;
        rx.listener.demod = h.state;
        h.count
    } else {
        let t = rx.listener.accept_resampled(samples, &mut codes);
        rx.listener = t.state;
        t.count
    };
    let heard = &codes[..count];
    let waiting = Queues {
        bytes: rx.out,
        events: rx.events,
    };
    let q = waiting.take_in(heard);
    rx.out = q.bytes;
    rx.events = q.events;
    Answered {
        answer: Ok(tally_of(heard).bad_stops),
        state: rx,
    }
}

impl Rx {
    pub fn new(rate: u32, role: Role) -> Answered<Rx, ()>
        ensures { made (reply_in result.answer) (receiver_of result.state) ≡ new_of rate role }
    {
        let o = Listener::new(Kind::Bare, rate, role);
        let state = Rx {
            listener: o.state,
            out: Bytes::new(),
            events: Events::new(),
        };
        Answered {
            answer: o.answer,
            state,
        }
    }

    // The next samples, in order and gapless. Answers how many bad stops there are in them.
    pub fn write(self, samples: &[f32]) -> Answered<Rx, usize>
        ensures { wrote (reply_in result.answer) (receiver_of result.state) ≡ written (receiver_of self) samples.now }
    {
        let answer = check(samples, self.listener.accepted, self.out.count);
        match answer {
            Err(why) => Answered {
                answer: Err(why),
                state: self,
            },
            Ok(()) => accept_all(self, samples),
        }
    }

    // As many bytes as wait and have room in buf, oldest first.
    pub fn read(mut self, buf: &mut [u8]) -> Counting<Rx>
        ensures { read_out result.count (receiver_of result.state) buf.new ≡ read_of (receiver_of self) buf.old }
    {
        let d = self.out.drain(buf);
        self.out = d.state;
        Counting {
            count: d.count,
            state: self,
        }
    }

    // The oldest carrier event that waits, if there is one.
    pub fn events(mut self) -> TakenEvent
        ensures { taken (events_of result.event) (receiver_of result.state) ≡ event_of (receiver_of self) }
    {
        let next = self.events.next();
        self.events = next.state;
        TakenEvent {
            event: next.event,
            state: self,
        }
    }

    // The latched report: the detector is up, and a block was dominant once.
    pub fn carrier_detected(self) -> bool
        ensures { result ≡ carrier_of (receiver_of self) }
    {
        self.listener.demod.carrier_detected()
    }

    pub fn framing_errors(self) -> u32
        ensures { result ≡ errors_of (receiver_of self) }
    {
        self.listener.demod.deframer().framing_errors()
    }

    // How many bytes wait, and how many events.
    pub fn waiting(self) -> usize
        ensures { (result ≡ length (receiver_of self).waiting) × (result ≤ most_bytes) }
    {
        self.out.count
    }

    pub fn events_waiting(self) -> usize
        ensures { (result ≡ length (receiver_of self).logged) × (result ≤ most_events) }
    {
        self.events.count
    }

    // How many samples were accepted so far.
    pub fn accepted(self) -> u64
        ensures { (result ≡ (receiver_of self).accepted) × (result ≤ 4294967296) }
    {
        self.listener.accepted
    }

    // What it hears with.
    pub fn resampler(self) -> Resampler
        ensures { state_of result ≡ (receiver_of self).demod.resampler }
    {
        self.listener.resampler
    }

    pub fn demodulator(self) -> Demodulator
        ensures { demodulator_of result ≡ (receiver_of self).demod.inner }
    {
        self.listener.demod
    }
}
