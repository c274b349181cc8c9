// The receiver's state as a list of f64, exported to C.
ghost use Rattle.std.specs.Prelude.{◌≡◌, ◌++◌, ◌+◌, ◌≤◌, ◌/◌, ◌<◌, length, drop, replicate};
ghost use Rattle.resampling.specs.ResampleRep.{state_of};
ghost use Rattle.demodulation.specs.DemodRep.{demodulator_of};
ghost use Rattle.modem.specs.RxRep.{receiver_of};
ghost use Rattle.snapshot.specs.ReceiverState.{truth, place_numbers, tone_numbers, mark_numbers, own_numbers, block_number, last_numbers, resampler_numbers, resampler_length, ring_numbers, state_numbers, state_length, scripted_receiver, shown, state_run_from, state_run};
ghost use Rattle.snapshot.specs.StateSteps.{Put, PutMany, Standing, Moves};

use calls::{Call, make_call, role_of};
use demodulation::{Core, Demodulator};
use modem::Rx;
use numeric::arrays::filled;
use numeric::ends::part_end;
use resampling::{MAX_TAPS, Resampler};

// ---- the script

// Where a script stands: the receiver, and how many samples are behind it.
#[derive(Clone, Copy)]
struct Spot {
    state: Rx,
    read: usize,
}

// One call; its bytes and events are dropped.
fn one_step(p: Spot, k: Call, samples: &[f32]) -> Spot
    requires { Standing p samples.now }
    ensures { Moves p result k samples.now }
{
    let end = part_end(p.read, k.samples, samples.len());
    let mut bytes: [u8; 512] = filled(0);
    let mut events: [u8; 64] = filled(0);
    let b = part_end(0, k.bytes, 512);
    let e = part_end(0, k.events, 64);
    let c = make_call(
        p.state,
        &samples[p.read..end],
        &mut bytes[..b],
        &mut events[..e],
    );
    Spot {
        state: c.state,
        read: end,
    }
}

// Each call of the script.
fn all_steps(state: Rx, samples: &[f32], script: &[u32]) -> Rx
    ensures { receiver_of result ≡ scripted_receiver (receiver_of state) samples.now script.now }
{
    let calls = script.len() / 3;
    let mut spot = Spot { state, read: 0 };
    for i in 0..calls {
        let call = Call {
            samples: script[3 * i],
            bytes: script[3 * i + 1],
            events: script[3 * i + 2],
        };
        spot = one_step(spot, call, samples);
    }
    spot.state
}

// ---- the numbers

fn place_numbers(core: Core) -> [f64; 2]
    ensures { result ≡ place_numbers core.corr }
{
    let c = core.corr;
    [c.pos as f64, f64::from(c.filled)]
}

fn tone_numbers(core: Core) -> [f64; 17]
    ensures { result ≡ tone_numbers core.corr core.timing core.deframer core.carrier }
{
    let c = core.corr;
    let t = core.timing;
    let d = core.deframer;
    let l = core.carrier;
    let mid = f64::from(t.have_mid);
    let in_frame = f64::from(d.in_frame);
    let up = f64::from(l.detected);
    [
        c.phase_m,
        c.phase_s,
        c.inc_m,
        c.inc_s,
        t.sym_phase,
        t.sym_inc,
        t.last_sym,
        t.mid_sym,
        mid,
        in_frame,
        d.bit_count as f64,
        d.acc as f64,
        d.errors as f64,
        l.level,
        l.floor,
        up,
        l.holdoff as f64,
    ]
}

// Not one function of N probes with the next: the type of its 3 * N numbers needs a computed const argument, which Rattle has not.
fn mark_numbers(core: Core) -> [f64; 15]
    ensures { result ≡ mark_numbers core.dominance }
{
    let d = core.dominance;
    let [a, b, c, e, f] = d.mark;
    [
        a.coeff, a.s1, a.s2, b.coeff, b.s1, b.s2, c.coeff, c.s1, c.s2, e.coeff, e.s1, e.s2,
        f.coeff, f.s1, f.s2,
    ]
}

fn own_numbers(core: Core) -> [f64; 6]
    ensures { result ≡ own_numbers core.dominance }
{
    let d = core.dominance;
    let [a, b] = d.own;
    [a.coeff, a.s1, a.s2, b.coeff, b.s1, b.s2]
}

// The place in a block of 256.
fn block_number(n: usize) -> f64
    ensures { result ≡ block_number n }
{
    if n < 256 { n as f64 } else { 0.0 }
}

fn last_numbers(rx: Rx) -> [f64; 8]
    ensures { result ≡ last_numbers (receiver_of rx) }
{
    let demod = rx.demodulator();
    let core = demod.core();
    let bytes = rx.waiting();
    let events = rx.events_waiting();
    let accepted = rx.accepted();
    let d = core.dominance;
    let l = core.latch;
    let block = block_number(d.count);
    let gate = f64::from(core.gate_open);
    let up = f64::from(l.qualified);
    let ever = f64::from(l.qualified_ever);
    [
        d.wideband,
        block,
        gate,
        up,
        ever,
        bytes as f64,
        events as f64,
        accepted as f64,
    ]
}

// ---- into the slice

// Copies xs behind the first `at` of out.
pub(crate) fn put(out: &mut [f64], at: usize, xs: &[f64])
    requires { at + length xs.now ≤ length out.old }
    ensures { Put at xs.now out.old out.new }
{
    out[at..at + xs.len()].copy_from_slice(xs);
}

fn put_ring(out: &mut [f64], at: usize, ring: [f64; 27])
    requires { at + 27 ≤ length out.old }
    ensures { PutMany at 27 ring out.old out.new }
{
    put(out, at, &ring);
}

// A resampler's 753 numbers, at the front.
pub(crate) fn put_numbers(r: Resampler, out: &mut [f64])
    requires { resampler_length ≤ length out.old }
    ensures { PutMany 0 753 (resampler_numbers (state_of r)) out.old out.new }
{
    let taps = r.tap_numbers();
    let history = r.history_numbers();
    let window = r.window_numbers();
    put(out, 0, &taps);
    put(out, MAX_TAPS, &history);
    put(out, 746, &window);
}

// Those of the receiver's resampler.
fn put_resampler(rx: Rx, out: &mut [f64])
    requires { state_length ≤ length out.old }
    ensures { PutMany 0 753 (resampler_numbers (receiver_of rx).demod.resampler) out.old out.new }
{
    put_numbers(rx.resampler(), out);
}

// The correlator's place and rings, 110 numbers behind those.
fn put_rings(d: Demodulator, out: &mut [f64])
    requires { state_length ≤ length out.old }
    ensures { PutMany 753 110 (ring_numbers (demodulator_of d)) out.old out.new }
{
    let core = d.core();
    let rings = d.rings();
    let place = place_numbers(core);
    put(out, 753, &place);
    put_ring(out, 755, rings.mark_i);
    put_ring(out, 782, rings.mark_q);
    put_ring(out, 809, rings.space_i);
    put_ring(out, 836, rings.space_q);
}

// The whole state.
fn put_state(rx: Rx, out: &mut [f64])
    requires { state_length ≤ length out.old }
    ensures { out.new ≡ state_numbers (receiver_of rx) ++ drop state_length out.old }
{
    let demod = rx.demodulator();
    let core = demod.core();
    let tone = tone_numbers(core);
    let mark = mark_numbers(core);
    let own = own_numbers(core);
    let last = last_numbers(rx);
    put_resampler(rx, out);
    put_rings(demod, out);
    put(out, 863, &tone);
    put(out, 880, &mark);
    put(out, 895, &own);
    put(out, 901, &last);
}

// The state behind a script; answers 1.
fn show(fresh: Rx, samples: &[f32], script: &[u32], state: &mut [f64]) -> u32
    requires { state_length ≤ length state.old }
    ensures { shown result state.new ≡ state_run_from (receiver_of fresh) samples.now script.now state.old }
{
    let rx = all_steps(fresh, samples, script);
    put_state(rx, state);
    1
}

pub fn state_from_fresh(
    rate: u32,
    role: u32,
    samples: &[f32],
    script: &[u32],
    state: &mut [f64],
) -> u32
    ensures { shown result state.new ≡ state_run rate role samples.now script.now state.old }
{
    if state.len() < 909 {
        return 0;
    }
    let made = Rx::new(rate, role_of(role));
    let answer = made.answer;
    let fresh = made.state;
    match answer {
        Err(_) => 0,
        Ok(()) => show(fresh, samples, script, state),
    }
}
