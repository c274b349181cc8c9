// The bits that wait to be sent: a ring of 4,096 places, which the sender lends, the place of the oldest bit, and how many wait. The ring and the
// two numbers go apart, and each contract asks `BitsHeld` of them: a struct of the three would be copied, 4 kB at a time, with what moves at each sample.
ghost use Rattle.std.specs.Prelude.{◌≡◌, [], ◌∷◌, ◌+◌, ◌*◌, ◌%◌, ◌≤◌, ◌<◌, length};
ghost use Rattle.framing.specs.Frame.{frame_of};
ghost use Rattle.framing.specs.Framing.{marks, frames_of};
ghost use Rattle.modulation.specs.Bits.{place_after, BitsHeld, Joined, Takes, bits_refused};
ghost use Rattle.modulation.specs.Requests.{write, idle_mark};
ghost use Rattle.modulation.specs.Queueing.{Asks};

use framing::frame::frame_byte;
use refusal::Refusal;

// As many bits wait at most.
pub(crate) const MOST_BITS: usize = 4096;

// ---- refusal 33

// Whether so many bits wait that n more have no room. No sum overflows, whatever n is.
pub(crate) fn bits_refused(waiting: usize, n: usize) -> bool
    ensures { result ≡ bits_refused waiting n }
{
    MOST_BITS < waiting || MOST_BITS - waiting < n
}

// The same for the frames of so many bytes.
pub(crate) fn frames_refused(waiting: usize, bytes: usize) -> bool
    ensures { result ≡ bits_refused waiting (10 * bytes) }
{
    MOST_BITS < waiting || (MOST_BITS - waiting) / 10 < bytes
}

// ---- the ring

pub(crate) fn place_after(h: usize) -> usize
    requires { h < 4096 }
    ensures { (result ≡ place_after h) × (result < 4096) }
{
    let next = h + 1;
    if next >= MOST_BITS { 0 } else { next }
}

// The place behind the bits that wait.
fn place_behind(head: usize, waiting: usize) -> usize
    requires { (head < 4096) × (waiting < 4096) }
    ensures { (result ≡ (head + waiting) % 4096) × (result < 4096) }
{
    (head + waiting) % MOST_BITS
}

// The next bit to send, and where the others then stand.
#[derive(Clone, Copy)]
pub struct Taken {
    pub bit: bool,
    pub head: usize,
    pub waiting: usize,
}

// The oldest bit, or idle mark where none waits.
pub(crate) fn take_bit(bits: &[bool; 4096], head: usize, waiting: usize) -> Taken
    requires { BitsHeld bits.now head waiting }
    ensures { Takes bits.now head waiting result }
{
    if waiting == 0 {
        return Taken {
            bit: true,
            head,
            waiting,
        };
    }
    let next = place_after(head);
    Taken {
        bit: bits[head],
        head: next,
        waiting: waiting - 1,
    }
}

// One bit behind those that wait. Answers how many wait then, as each function below.
fn push_one(bits: &mut [bool; 4096], head: usize, waiting: usize, bit: bool) -> usize
    requires { BitsHeld bits.old head waiting × (waiting + 1 ≤ 4096) }
    ensures { Joined head bits.old waiting (bit ∷ []) bits.new result }
{
    let p = place_behind(head, waiting);
    bits[p] = bit;
    waiting + 1
}

// n bits of idle mark.
pub(crate) fn push_marks(bits: &mut [bool; 4096], head: usize, waiting: usize, n: usize) -> usize
    requires { BitsHeld bits.old head waiting × (waiting + n ≤ 4096) }
    ensures { Joined head bits.old waiting (marks n) bits.new result }
{
    let mut at = waiting;
    for _ in 0..n {
        at = push_one(bits, head, at, true);
    }
    at
}

// The ten bits of one byte.
fn push_frame(bits: &mut [bool; 4096], head: usize, waiting: usize, b: u8) -> usize
    requires { BitsHeld bits.old head waiting × (waiting + 10 ≤ 4096) }
    ensures { Joined head bits.old waiting (frame_of b) bits.new result }
{
    let frame = frame_byte(b);
    let mut at = waiting;
    for bit in &frame {
        at = push_one(bits, head, at, *bit);
    }
    at
}

// The frame of each byte, in order.
pub(crate) fn push_frames(
    bits: &mut [bool; 4096],
    head: usize,
    waiting: usize,
    data: &[u8],
) -> usize
    requires { BitsHeld bits.old head waiting × (waiting + 10 * length «data».now ≤ 4096) }
    ensures { Joined head bits.old waiting (frames_of «data».now) bits.new result }
{
    let mut at = waiting;
    for b in data {
        at = push_frame(bits, head, at, *b);
    }
    at
}

// ---- what a caller queues

// The answer, and how many bits wait then.
#[derive(Clone, Copy)]
pub struct Asked {
    pub answer: Result<(), Refusal>,
    pub waiting: usize,
}

// The frames of these bytes, unless refused 33.
pub(crate) fn ask_frames(bits: &mut [bool; 4096], head: usize, waiting: usize, data: &[u8]) -> Asked
    requires { BitsHeld bits.old head waiting }
    ensures { Asks head bits.old waiting (write «data».now) bits.new result }
{
    if frames_refused(waiting, data.len()) {
        return Asked {
            answer: Err(Refusal::BitsWait),
            waiting,
        };
    }
    let framed = push_frames(bits, head, waiting, data);
    Asked {
        answer: Ok(()),
        waiting: framed,
    }
}

// n bit periods of idle mark, unless refused 33.
pub(crate) fn ask_marks(bits: &mut [bool; 4096], head: usize, waiting: usize, n: usize) -> Asked
    requires { BitsHeld bits.old head waiting }
    ensures { Asks head bits.old waiting (idle_mark n) bits.new result }
{
    if bits_refused(waiting, n) {
        return Asked {
            answer: Err(Refusal::BitsWait),
            waiting,
        };
    }
    let idle = push_marks(bits, head, waiting, n);
    Asked {
        answer: Ok(()),
        waiting: idle,
    }
}
