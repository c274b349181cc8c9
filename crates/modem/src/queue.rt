// The receiver's two queues, oldest first: bytes heard, and carrier events.
ghost use Rattle.std.specs.Prelude.{◌≡◌, [], ◌∷◌, ◌++◌, ◌+◌, ◌≤◌, ◌<◌, length, take};
ghost use Rattle.happenings.specs.Happening.{byte_of, change_of};
ghost use Rattle.modem.specs.Places.{Kept, Moved, Logs, logging, logging_all, event_of};

use demodulation::Carrier;
use happenings::{Happening, happening_of};
use numeric::arrays::filled;
use refusal::Counting;

// Received bytes: the first `count` wait.
#[derive(Clone, Copy)]
pub struct Bytes {
    pub held: [u8; 512],
    pub count: usize,
    pub ghost places: { length held ≡ 512 },
    pub ghost room: { count ≤ 512 },
}

// One more byte, behind the n that wait. The array is lent, so that a loop copies it once.
fn keep_at(held: &mut [u8; 512], n: usize, b: u8) -> usize
    requires { (n < 512) × (length held.old ≡ 512) }
    ensures { Kept n held.old (b ∷ []) result held.new }
{
    held[n] = b;
    n + 1
}

// The byte of a happening, if it is one. Answers how many wait.
fn keep_heard(held: &mut [u8; 512], n: usize, h: Happening) -> usize
    requires { (n + length (byte_of h) ≤ 512) × (length held.old ≡ 512) }
    ensures { Kept n held.old (byte_of h) result held.new }
{
    match h {
        Happening::Byte(b) => keep_at(held, n, b),
        _ => n,
    }
}

// The m elements from place k on, moved to the front.
fn to_front<T: Copy>(held: &mut [T], k: usize, m: usize)
    requires { k + m ≤ length held.old }
    ensures { Moved k m held.old held.new }
{
    // An index: a part of the array is moved within it.
    for i in 0..m {
        held[i] = held[i + k];
    }
}

impl Bytes {
    ghost use Rattle.modem.specs.Queue.{BytesWait, Drains};

    pub fn new() -> Bytes
        ensures { BytesWait result [] }
    {
        let held = filled(0);
        Bytes { held, count: 0 }
    }

    // Gives as many bytes as wait and have room in buf, oldest first.
    pub fn drain(self, buf: &mut [u8]) -> Counting<Bytes>
        ensures { Drains self buf.old result buf.new }
    {
        let mut held = self.held;
        let count = self.count.min(buf.len());
        buf[..count].copy_from_slice(&held[..count]);
        let left = self.count - count;
        to_front(&mut held, count, left);
        Counting {
            state: Bytes { held, count: left },
            count,
        }
    }
}

// Carrier events: the first `count` wait; true is up. A type of its own beside `Bytes`, which are given many at a time and never dropped: the two have
// only the move to the front in common.
#[derive(Clone, Copy)]
pub struct Events {
    pub held: [bool; 64],
    pub count: usize,
    pub ghost places: { length held ≡ 64 },
    pub ghost room: { count ≤ 64 },
}

// The oldest event, and the queue after it.
#[derive(Clone, Copy)]
pub struct NextEvent {
    pub state: Events,
    pub event: Option<Carrier>,
}

// One more event. Where 64 wait, the oldest is dropped. Answers how many wait.
fn log_at(held: &mut [bool; 64], n: usize, up: bool) -> usize
    requires { (n ≤ 64) × (length held.old ≡ 64) }
    ensures { Logs (logging (take n held.old) up) result held.new }
{
    if n < 64 {
        held[n] = up;
        return n + 1;
    }
    to_front(held, 1, 63);
    held[63] = up;
    64
}

// The change of a happening, if it is one. The array is lent, as that of the bytes is.
#[tactic(auto, unfolding(crate::specs::Places::logging_all))]
fn log_into(held: &mut [bool; 64], n: usize, h: Happening) -> usize
    requires { (n ≤ 64) × (length held.old ≡ 64) }
    ensures { Logs (logging_all (take n held.old) (change_of h)) result held.new }
{
    match h {
        Happening::Up => log_at(held, n, true),
        Happening::Down => log_at(held, n, false),
        _ => n,
    }
}

// The carrier went up, or down.
pub fn event_of(up: bool) -> Option<Carrier>
    ensures { result ≡ event_of up }
{
    if up {
        Some(Carrier::Up)
    } else {
        Some(Carrier::Down)
    }
}

impl Events {
    ghost use Rattle.modem.specs.Queue.{EventsWait, Pops};

    pub fn new() -> Events
        ensures { EventsWait result [] }
    {
        let held = filled(false);
        Events { held, count: 0 }
    }

    // Takes the oldest event off, if there is one.
    pub fn next(self) -> NextEvent
        ensures { Pops self result }
    {
        if self.count == 0 {
            return NextEvent {
                state: self,
                event: None,
            };
        }
        let mut held = self.held;
        let event = event_of(held[0]);
        to_front(&mut held, 1, 63);
        let state = Events {
            held,
            count: self.count - 1,
        };
        NextEvent { state, event }
    }
}

// The two queues.
#[derive(Clone, Copy)]
pub struct Queues {
    pub bytes: Bytes,
    pub events: Events,
}

impl Queues {
    ghost use Rattle.happenings.specs.Happening.{happenings_of};
    ghost use Rattle.modem.specs.Queue.{Takable, TakesIn};

    // The bytes and the changes of what was heard, by its codes, behind those that wait.
    pub fn take_in(self, codes: &[u16]) -> Queues
        requires { Takable self (happenings_of codes.now) }
        ensures { TakesIn self (happenings_of codes.now) result }
    {
        let mut held = self.bytes.held;
        let mut count = self.bytes.count;
        let mut logged = self.events.held;
        let mut events_count = self.events.count;
        for &code in codes {
            let h = happening_of(code);
            count = keep_heard(&mut held, count, h);
            events_count = log_into(&mut logged, events_count, h);
        }
        Queues {
            bytes: Bytes { held, count },
            events: Events {
                held: logged,
                count: events_count,
            },
        }
    }
}
