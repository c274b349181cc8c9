// The call: idle mark, a training character, idle mark, a bare line end, the text, idle mark.
ghost use Rattle.std.specs.Prelude.{◌≡◌, ◌+◌, ◌-◌, ◌*◌, ◌≤◌, min, [], length, IfOk, IfErr};
ghost use Rattle.modulation.specs.TxRep.{sender_of};
ghost use Rattle.send_app.specs.Call.{call_of, bit_periods, opened_of, sent, queued_more, block_of};

use crate::bytes::{offset, pack};
use crate::header::{header_float, header_pcm};
use crate::words::Kind;
use bell103::Role;
use modulation::Tx;
use refusal::Refusal;

// Half of full scale: the resampler's interpolation overshoots what it is given, and a board refuses a sample beyond 1.
const AMPLITUDE: f32 = 0.5;

// Alternating bits, from which the other end learns where a symbol begins.
pub const TRAINING: u8 = 0x55;

// Bit periods of idle mark: before the call, in which the other end's detector rises; behind the training character; and at the end, so
// that the last bit is through the other end's filter.
pub const LEAD: usize = 300;

pub const GAP: usize = 60;

const TAIL: usize = 60;

// Bit periods of the whole call.
pub fn bits_for(text: &[u8]) -> usize
    requires { length text.now ≤ 65536 }
    ensures { result ≡ bit_periods (call_of text.now) }
{
    LEAD + 10 + GAP + 10 + text.len() * 10 + TAIL
}

// What stands before the text, in an empty queue.
fn opened(tx: Tx) -> Tx
    ensures { sender_of result ≡ opened_of (sender_of tx) }
{
    let a = tx.set_amplitude(AMPLITUDE);
    let quiet = a.state;
    let l = quiet.write_idle_mark(LEAD);
    let idle = l.state;
    let t = idle.write(&[TRAINING]);
    let trained = t.state;
    let g = trained.write_idle_mark(GAP);
    let gapped = g.state;
    let e = gapped.write(b"\n");
    e.state
}

// The sender, and how many bytes of the text are queued.
#[derive(Clone, Copy)]
struct Sending {
    tx: Tx,
    at: usize,
}

// The next 64 bytes of the text at the most, if the queue has room for them.
fn queue_more(s: Sending, text: &[u8]) -> Sending
    requires { s.at ≤ length text.now }
    ensures at_value { sent (sender_of result.tx) result.at [] ≡ queued_more (sender_of s.tx) text.now s.at }
    ensures at_in_bounds { result.at ≤ length text.now }
{
    let end = end_of(s.at, text.len());
    let q = s.tx.write(&text[s.at..end]);
    let answer = q.answer;
    let state = q.state;
    if answer.is_ok() {
        return Sending { tx: state, at: end };
    }
    Sending { tx: state, ..s }
}

pub fn end_of(at: usize, len: usize) -> usize
    requires { at ≤ len }
    ensures { (result ≡ at + min 64 (len - at)) × (at ≤ result) × (result ≤ len) }
{
    at + (len - at).min(64)
}

// Writes the samples to standard output; whether that went well.
fn write_samples(kind: Kind, samples: &[f32]) -> bool
    requires { length samples.now ≤ 1024 }
{
    let mut bytes = io::buffer();
    pack(kind, samples, &mut bytes);
    let n = offset(kind, samples.len());
    io::write_all(1, &bytes[..n])
}

// The next samples, into the part.
fn read_part(s: Sending, text: &[u8], part: &mut [f32]) -> Sending
    requires { s.at ≤ length text.now }
    ensures part_after { sent (sender_of result.tx) result.at part.new ≡ block_of (sender_of s.tx) text.now s.at part.old }
    ensures at_in_bounds { result.at ≤ length text.now }
{
    let q = queue_more(s, text);
    let r = q.tx.read(part);
    Sending { tx: r.state, ..q }
}

// So many samples of the call, as far as they can be written: how many were, all of them or not. Idle mark follows the text by itself: a
// sender whose queue is empty holds it.
fn send_samples(tx: Tx, kind: Kind, text: &[u8], samples: usize) -> Result<usize, usize>
    ensures all { IfOk result (λ sent. sent ≡ samples) }
    ensures some { IfErr result (λ sent. sent ≤ samples) }
{
    let mut s = Sending { tx, at: 0 };
    let mut sent = 0;
    while sent < samples {
        let n = (samples - sent).min(1024);
        let mut block = [0.0f32; 1024];
        s = read_part(s, text, &mut block[..n]);
        if !write_samples(kind, &block[..n]) {
            return Err(sent);
        }
        sent += n;
    }
    Ok(sent)
}

// A count of samples, as far as a header can say it.
fn count_in(c: Result<usize, Refusal>) -> u32
    ensures { result ≤ 1000000000 }
{
    match c {
        Ok(n) => n.min(1000000000) as u32,
        Err(_) => 0,
    }
}

// Writes all before the samples; whether that went well.
pub fn write_header(kind: Kind, rate: u16, samples: u32) -> bool
    requires { samples ≤ 1000000000 }
{
    match kind {
        Kind::Float => io::write_all(1, &header_float(rate, samples)),
        Kind::Pcm16 => io::write_all(1, &header_pcm(rate, samples)),
    }
}

// Sends a text of 65,535 bytes at the most; whether all was written.
pub fn send_call(role: Role, rate: u16, kind: Kind, text: &[u8]) -> bool
    requires { length text.now ≤ 65536 }
{
    let made = Tx::new(rate as u32, role);
    let tx = made.state;
    let ready = opened(tx);
    let duration = ready.samples_for_bits(bits_for(text));
    let samples = count_in(duration);
    write_header(kind, rate, samples) && send_samples(ready, kind, text, samples as usize).is_ok()
}
