// The sender of a gauge that has no floats: the bits that wait, keyed as places of a table of sines, at 8,000 Hz. The phase and the symbol clock
// are whole numbers and carry over from call to call, so blocks are read in order.
ghost use Rattle.std.specs.Prelude.{◌≡◌, ◌+◌, ◌-◌, ◌%◌, ◌≤◌, ◌<◌, length};
ghost use Rattle.modulation.specs.Table.{places, Turn};
ghost use Rattle.modulation.specs.TableTx.{hops_of, hop_of, begun, moved, sending, sent, begins_at};
ghost use Rattle.modulation.specs.Keying.{phase_of, Keyed, HopsHeld, Begins, Holds};

use crate::bits::{ask_frames, ask_marks, take_bit};
use crate::table::{entry, whole_turn};
use crate::tx::check;
use bell103::Role;
use numeric::arrays::filled;
use refusal::Answered;

// How many places the phase moves on after a sample of each tone: a fifth of its hertz.
#[derive(Clone, Copy)]
pub struct Hops {
    pub mark: usize,
    pub space: usize,
}

// What moves with each sample.
#[derive(Clone, Copy)]
pub struct Keying {
    // Where the waiting bits stand in their ring.
    pub head: usize,
    pub waiting: usize,
    // The bit in force.
    pub current: bool,
    // The place of the next sample.
    pub place: usize,
    // Symbols begun, and samples given.
    pub symbols: u64,
    pub samples: u64,
}

#[derive(Clone, Copy)]
pub struct TableTx {
    hops: Hops,
    bits: [bool; 4096],
    keying: Keying,
    pub ghost hops_held: { HopsHeld hops },
    pub ghost keyed: { Keyed bits keying },
}

fn hops_of(role: Role) -> Hops
    ensures { result ≡ hops_of role }
{
    match role {
        Role::Originate => Hops {
            mark: 254,
            space: 214,
        },
        Role::Answer => Hops {
            mark: 445,
            space: 405,
        },
    }
}

fn hop_of(h: Hops, bit: bool) -> usize
    ensures { result ≡ hop_of h bit }
{
    if bit { h.mark } else { h.space }
}

// A symbol that begins with the next sample takes its bit.
fn begin(bits: &[bool; 4096], k: Keying) -> Keying
    requires { Keyed bits.now k }
    ensures { Begins bits.now k result }
{
    if 3 * k.samples < 80 * k.symbols {
        return k;
    }
    let t = take_bit(bits, k.head, k.waiting);
    // Field by field, here and below: `..k` would store the whole, and the next sample wait for it.
    Keying {
        head: t.head,
        waiting: t.waiting,
        current: t.bit,
        place: k.place,
        symbols: k.symbols + 1,
        samples: k.samples,
    }
}

// A place less than two turns on, modulo a turn.
fn turned(at: usize) -> usize
    requires { at < 3200 }
    ensures { result ≡ at % places }
{
    if at < 1600 { at } else { at - 1600 }
}

// Behind a sample: the place moved on by the tone in force.
fn step(bits: &[bool; 4096], h: Hops, k: Keying) -> Keying
    requires { Keyed bits.now k × HopsHeld h × (k.samples < 4294967296) }
    ensures { (phase_of bits.now result ≡ moved h (begun (phase_of bits.now k))) × Keyed bits.now result }
{
    let b = begin(bits, k);
    let place = turned(b.place + hop_of(h, b.current));
    Keying {
        head: b.head,
        waiting: b.waiting,
        current: b.current,
        place,
        symbols: b.symbols,
        samples: b.samples + 1,
    }
}

// How many samples more the symbol in force lasts.
fn symbol_rest(bits: &[bool; 4096], k: Keying) -> u64
    requires { Keyed bits.now k }
    ensures { (result ≡ begins_at k.symbols - k.samples) × (result ≤ 26) }
{
    (80 * k.symbols + 2) / 3 - k.samples
}

// The samples at `from` up to `to`, in which no symbol begins: only the place moves, by the tone in force.
fn hold_tone(
    turn: &[i32; 1600],
    hop: usize,
    place: usize,
    out: &mut [i32],
    from: usize,
    to: usize,
) -> usize
    requires { Turn turn.now × (place < places) × (hop ≤ places) × (from ≤ to) × (to ≤ length out.old) }
    ensures { Holds hop place from to out.old out.new result }
{
    let mut at = place;
    for i in from..to {
        out[i] = entry(turn, at);
        at = turned(at + hop);
    }
    at
}

// Fills the slice with the next samples: one with which a symbol may begin, then those of its symbol, in a loop with few jumps.
fn fill(bits: &[bool; 4096], h: Hops, k: Keying, out: &mut [i32]) -> Keying
    requires { Keyed bits.now k × HopsHeld h × (k.samples + length out.old ≤ 4294967296) }
    ensures result_after { sending out.new (phase_of bits.now result) ≡ sent (length out.old) h (phase_of bits.now k) }
    ensures keyed { Keyed bits.now result }
{
    let turn = whole_turn();
    let mut keying = k;
    let mut i = 0;
    while i < out.len() {
        let value = entry(&turn, keying.place);
        out[i] = value;
        let s = step(bits, h, keying);
        i += 1;
        let rest = symbol_rest(bits, s) as usize;
        let n = rest.min(out.len() - i);
        let place = hold_tone(&turn, hop_of(h, s.current), s.place, out, i, i + n);
        keying = Keying {
            place,
            samples: s.samples + n as u64,
            ..s
        };
        i += n;
    }
    keying
}

impl TableTx {
    ghost use Rattle.refusal.specs.Refusals.{reply_in};
    ghost use Rattle.modulation.specs.Bits.{BitsHeld};
    ghost use Rattle.modulation.specs.Requests.{write, idle_mark};
    ghost use Rattle.modulation.specs.TableTx.{fresh_table, table_queueing, table_requested, table_reading, table_read_of, table_pending};
    ghost use Rattle.modulation.specs.TableTxRep.{table_of, with_ring};

    pub fn new(role: Role) -> TableTx
        ensures { table_of result ≡ fresh_table role }
    {
        let hops = hops_of(role);
        let bits = filled(false);
        let keying = Keying {
            head: 0,
            waiting: 0,
            current: true,
            place: 0,
            symbols: 0,
            samples: 0,
        };
        TableTx { hops, bits, keying }
    }

    // Queues the frames of these bytes, unless refused 33.
    pub fn write(self, data: &[u8]) -> Answered<TableTx, ()>
        ensures state_value { table_queueing (reply_in result.answer) (table_of result.state) ≡ table_requested (table_of self) (write «data».now) }
    {
        let k = self.keying;
        let mut bits = self.bits;
        let asked = ask_frames(&mut bits, k.head, k.waiting, data);
        let answer = asked.answer;
        let state = self.with_bits(bits, asked.waiting);
        Answered { answer, state }
    }

    // Queues n bit periods of idle mark, unless refused 33.
    pub fn write_idle_mark(self, n: usize) -> Answered<TableTx, ()>
        ensures state_value { table_queueing (reply_in result.answer) (table_of result.state) ≡ table_requested (table_of self) (idle_mark n) }
    {
        let k = self.keying;
        let mut bits = self.bits;
        let asked = ask_marks(&mut bits, k.head, k.waiting, n);
        let answer = asked.answer;
        let state = self.with_bits(bits, asked.waiting);
        Answered { answer, state }
    }

    // As `Tx`'s: a trait for what lies around the ring would need as many lines as it saved, and laws for each of them.
    #[tactic(auto, unfolding(crate::specs::TableTxRep::table_of))]
    fn with_bits(mut self, bits: [bool; 4096], waiting: usize) -> TableTx
        requires { BitsHeld bits self.keying.head waiting }
        ensures { table_of result ≡ with_ring self bits waiting }
    {
        self.bits = bits;
        self.keying.waiting = waiting;
        self
    }

    // Whether bits wait.
    pub fn pending(self) -> bool
        ensures { result ≡ table_pending (table_of self) }
    {
        0 < self.keying.waiting
    }

    // Fills the slice whole with the next samples, holding mark when idle.
    pub fn read(mut self, out: &mut [i32]) -> Answered<TableTx, ()>
        ensures out_after { table_reading (reply_in result.answer) (table_of result.state) out.new ≡ table_read_of (table_of self) out.old }
    {
        let answer = check(out.len(), self.keying.samples);
        if answer.is_ok() {
            self.keying = fill(&self.bits, self.hops, self.keying, out);
        }
        Answered {
            answer,
            state: self,
        }
    }
}
