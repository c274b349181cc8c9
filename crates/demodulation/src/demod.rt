// The 8,000 Hz part of the receiver: what one sample makes of its state, and what is heard in it.
ghost use Rattle.std.specs.Prelude.{◌≡◌, ◌<◌};
ghost use Rattle.demodulation.specs.Carrier.{yes_of};
ghost use Rattle.demodulation.specs.Summing.{Summed};
ghost use Rattle.demodulation.specs.Waves.{Waved};
ghost use Rattle.demodulation.specs.Demod.{gate_after, latched, event_of, dropped_at, kept_by, step_of, fresh_demodulator, reported};

use crate::carrier::{CarrierDetector, ToneDominance, Verdict};
use crate::correlator::{Correlator, Rings, Sums, decide, multiply, sums_before, sums_on};
use crate::kind::Kind;
use crate::timing::{Timing, slice};
use crate::waves::{Quadrature, waves};
use bell103::{Role, tones};
use framing::frame::{Deframer, Heard};
use numeric::root::roots;
use refusal::DSP_RATE;

// A change of the carrier, as it is reported.
#[derive(Clone, Copy)]
pub enum Carrier {
    Up,
    Down,
}

// What is reported: the detector, once a block was dominant.
#[derive(Clone, Copy)]
pub struct Latch {
    pub qualified: bool,
    pub qualified_ever: bool,
}

// A finished block's verdict opens or shuts the gate.
fn gate_after(gate_open: bool, verdict: Verdict) -> bool
    ensures { result ≡ gate_after gate_open (yes_of verdict) }
{
    match verdict {
        Verdict::Going => gate_open,
        Verdict::Dominant(_, _) => true,
        Verdict::Not(_, _) => false,
    }
}

impl Latch {
    // Modulated data is never dominant, so one dominant block qualifies the whole call.
    #[tactic(auto, unfolding(crate::specs::Demod::latched))]
    fn see(self, gate_open: bool, detected: bool) -> Latch
        ensures { result ≡ latched self gate_open detected }
    {
        let ever = self.qualified_ever || gate_open;
        Latch {
            qualified: ever && detected,
            qualified_ever: ever,
        }
    }
}

fn event_of(before: bool, after: bool) -> Option<Carrier>
    ensures { result ≡ event_of before after }
{
    match (before, after) {
        (false, true) => Some(Carrier::Up),
        (true, false) => Some(Carrier::Down),
        _ => None,
    }
}

// The state but for the rings: small enough to be handed on by value at each sample.
#[derive(Clone, Copy)]
pub struct Core {
    pub corr: Correlator,
    pub dominance: ToneDominance,
    pub carrier: CarrierDetector,
    pub timing: Timing,
    pub gate_open: bool,
    pub latch: Latch,
    pub deframer: Deframer,
    pub kind: Kind,
    pub ghost place: { corr.pos < 27 },
    pub ghost byte: { deframer.acc < 256 },
}

// The core after a sample, and what came of it: beside `Step`, since the definitions tell the two apart.
#[derive(Clone, Copy)]
pub struct CoreStep {
    pub core: Core,
    pub heard: Heard,
    pub event: Option<Carrier>,
}

#[derive(Clone, Copy)]
pub struct Demodulator {
    pub(crate) rings: Rings,
    pub(crate) core: Core,
}

// The state after a sample, and what came of it.
#[derive(Clone, Copy)]
pub struct Step {
    pub state: Demodulator,
    pub heard: Heard,
    pub event: Option<Carrier>,
}

// The deframer behind a step in which the detector goes from `was` to `up`: where it goes down, the half byte is dropped.
fn dropped_at(was: bool, up: bool, d: Deframer) -> Deframer
    ensures { result ≡ dropped_at was up d }
{
    if was && !up {
        return Deframer {
            in_frame: false,
            ..d
        };
    }
    d
}

// A board's is dropped so; the bare receiver keeps it, as the Rust does.
fn kept_by(kind: Kind, was: bool, up: bool, d: Deframer) -> Deframer
    ensures { result ≡ kept_by kind was up d }
{
    match kind {
        Kind::Bare => d,
        Kind::ForBoard => dropped_at(was, up, d),
    }
}

// Its parts are stored field by field: a part stored whole takes the gap behind its flag along, and the next sample's load of that gap would
// wait for the store.
impl Core {
    ghost use Rattle.demodulation.specs.DemodRep.{demodulator, step_with, Feeds, Finishes};

    // Phases, ring place; dominance.
    #[tactic(auto, unfolding(crate::specs::Demod::fed))]
    fn feed(mut self, s: f64) -> Core
        ensures { Feeds self s result }
    {
        let next = self.corr.advance();
        let judged = self.dominance.feed(s);
        self.corr.pos = next.pos;
        self.corr.filled = next.filled;
        self.corr.phase_m = next.phase_m;
        self.corr.phase_s = next.phase_s;
        self.corr.inc_m = next.inc_m;
        self.corr.inc_s = next.inc_s;
        self.dominance = judged.state;
        self.gate_open = gate_after(self.gate_open, judged.verdict);
        self
    }

    // Event; timing; slice, with the detector and the latch as this sample leaves them.
    #[tactic(auto, unfolding(crate::specs::Demod::finished))]
    fn finish(mut self, carrier: CarrierDetector, latch: Latch, soft: f64) -> CoreStep
        ensures { Finishes self carrier latch soft result }
    {
        let event = event_of(self.latch.qualified, latch.qualified);
        let t = self.timing.tick(self.kind, soft);
        let pushed = slice(self.deframer, t.boundary, carrier.detected, soft);
        let framed = kept_by(
            self.kind,
            self.carrier.detected,
            carrier.detected,
            pushed.state,
        );
        self.carrier = carrier;
        self.latch = latch;
        self.timing.sym_phase = t.state.sym_phase;
        self.timing.sym_inc = t.state.sym_inc;
        self.timing.last_sym = t.state.last_sym;
        self.timing.mid_sym = t.state.mid_sym;
        self.timing.have_mid = t.state.have_mid;
        self.deframer = framed;
        CoreStep {
            core: self,
            heard: pushed.heard,
            event,
        }
    }

    // One sample, the rings lent, with their sums over the places before the sample's, and the tones' cosines and sines at it.
    pub(crate) fn step(self, rings: &mut Rings, w: Quadrature, sums: Sums, s: f64) -> CoreStep
        requires { Summed self.corr.pos rings.old sums × Waved self.corr w }
        ensures { step_with rings.new result ≡ step_of (demodulator rings.old self) s }
    {
        let corr = self.corr;
        multiply(rings, corr, w, s);
        let fed = self.feed(s);
        if !fed.corr.filled {
            return CoreStep {
                core: fed,
                heard: Heard::Waiting,
                event: None,
            };
        }
        let t = sums_on(rings, corr.pos, 27, sums);
        let m = roots(t.mark_i, t.mark_q, t.space_i, t.space_q);
        let o = decide(m.first, m.second);
        let carrier = fed.carrier.update(o.energy);
        let latch = fed.latch.see(fed.gate_open, carrier.detected);
        fed.finish(carrier, latch, o.soft)
    }
}

impl Demodulator {
    ghost use Rattle.demodulation.specs.DemodRep.{demodulator_of, stepped};

    // It listens on the other role's tones.
    #[tactic(auto, unfolding(crate::specs::Demod::fresh_demodulator))]
    pub fn new(kind: Kind, role: Role) -> Demodulator
        ensures result_value { demodulator_of result ≡ fresh_demodulator kind role }
    {
        let far = tones(role.listen());
        let own = tones(role);
        let ring = [0.0; 27];
        let rings = Rings {
            mark_i: ring,
            mark_q: ring,
            space_i: ring,
            space_q: ring,
        };
        let corr = Correlator::new(far.mark, far.space);
        let dominance = ToneDominance::new(far.mark, own.mark, own.space, DSP_RATE as f64);
        let core = Core {
            corr,
            dominance,
            gate_open: false,
            carrier: CarrierDetector::new(),
            latch: Latch {
                qualified: false,
                qualified_ever: false,
            },
            timing: Timing::new(),
            deframer: Deframer::new(),
            kind,
        };
        Demodulator { rings, core }
    }

    // One sample.
    pub fn step(self, s: f64) -> Step
        ensures result_value { stepped result ≡ step_of (demodulator_of self) s }
    {
        let mut rings = self.rings;
        let corr = self.core.corr;
        let sums = sums_before(&rings, corr.pos);
        let w = waves(corr.phase_m, corr.phase_s);
        let t = self.core.step(&mut rings, w, sums, s);
        let state = Demodulator {
            rings,
            core: t.core,
        };
        Step {
            state,
            heard: t.heard,
            event: t.event,
        }
    }

    // Its parts, to be looked at.
    pub fn rings(self) -> Rings
        ensures { result ≡ self.rings }
    {
        self.rings
    }

    pub fn core(self) -> Core
        ensures { result ≡ self.core }
    {
        self.core
    }

    pub fn deframer(self) -> Deframer
        ensures { result ≡ (demodulator_of self).deframer }
    {
        self.core.deframer
    }

    // The latched report.
    pub fn carrier_detected(self) -> bool
        ensures { result ≡ reported (demodulator_of self) }
    {
        self.core.latch.qualified
    }
}
