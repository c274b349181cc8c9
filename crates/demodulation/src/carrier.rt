// Carrier detection: the detector of energy, and whether that energy is the far end's mark tone.
ghost use Rattle.std.specs.Prelude.{◌≡◌, map};
ghost use Rattle.demodulation.specs.Goertzel.{goertzel_feed, goertzel_reset};
ghost use Rattle.demodulation.specs.Carrier.{floor_of, ratio_of, while_up, while_down, fresh_detector, updated};
ghost use Rattle.demodulation.specs.Carrier.{narrow_of, own_energy, others_of, yes_of, judged, answered_by, fresh_dominance, dominance_reset, dominance_step};

use crate::goertzel::Goertzel;
use numeric::compare::maximum;

const RISE_RATIO: f64 = 4.0;

const FALL_RATIO: f64 = 2.0;

const ATTACK: f64 = 0.01;

const FLOOR_ADAPT: f64 = 1e-4;

const INITIAL_FLOOR: f64 = 1e-3;

const FLOOR_EPSILON: f64 = 1e-12;

const FLOOR_MIN_FRACTION: f64 = 0.1;

#[derive(Clone, Copy)]
pub struct CarrierDetector {
    pub level: f64,
    pub floor: f64,
    pub detected: bool,
    pub holdoff: u32,
}

#[tactic(auto, unfolding(crate::specs::Carrier::floor_of))]
fn next_floor(floor: f64, energy: f64) -> f64
    ensures { result ≡ floor_of floor energy }
{
    let moved = floor + FLOOR_ADAPT * (energy - floor);
    maximum(moved, INITIAL_FLOOR * FLOOR_MIN_FRACTION)
}

fn ratio_of(level: f64, floor: f64) -> f64
    ensures { result ≡ ratio_of level floor }
{
    level / (floor + FLOOR_EPSILON)
}

// An update that begins undetected.
#[tactic(auto, unfolding(crate::specs::Carrier::while_down))]
fn rise(level: f64, floor: f64, holdoff: u32) -> CarrierDetector
    ensures { result ≡ while_down level floor holdoff }
{
    let down = CarrierDetector {
        level,
        floor,
        detected: false,
        holdoff,
    };
    if ratio_of(level, floor) > RISE_RATIO {
        return CarrierDetector {
            detected: true,
            holdoff: 0,
            ..down
        };
    }
    down
}

// An update that begins detected. The test comes before the sum, so that no count overflows.
#[tactic(auto, unfolding(crate::specs::Carrier::while_up))]
fn hold(level: f64, floor: f64, holdoff: u32) -> CarrierDetector
    ensures { result ≡ while_up level floor holdoff }
{
    let clear = CarrierDetector {
        level,
        floor,
        detected: true,
        holdoff: 0,
    };
    if ratio_of(level, floor) < FALL_RATIO {
        if holdoff < 3999 {
            return CarrierDetector {
                holdoff: holdoff + 1,
                ..clear
            };
        }
        return CarrierDetector {
            detected: false,
            ..clear
        };
    }
    clear
}

impl CarrierDetector {
    pub(crate) fn new() -> CarrierDetector
        ensures { result ≡ fresh_detector }
    {
        CarrierDetector {
            level: 0.0,
            floor: INITIAL_FLOOR,
            detected: false,
            holdoff: 0,
        }
    }

    #[tactic(auto, unfolding(crate::specs::Carrier::updated))]
    pub(crate) fn update(self, energy: f64) -> CarrierDetector
        ensures { result ≡ updated self energy }
    {
        let level = self.level + ATTACK * (energy - self.level);
        let floor = self.floor;
        let holdoff = self.holdoff;
        if self.detected {
            hold(level, floor, holdoff)
        } else {
            rise(level, next_floor(floor, energy), holdoff)
        }
    }
}

const OWN_LEAK_GUARD: f64 = 0.005;

const DOMINANCE_RATIO: f64 = 40.0;

// The filters for the far end's mark, at five offsets, and for this end's own two tones; and what the block holds so far.
#[derive(Clone, Copy)]
pub struct ToneDominance {
    pub mark: [Goertzel; 5],
    pub own: [Goertzel; 2],
    pub wideband: f64,
    pub count: usize,
}

// What a sample makes of its block: the block goes on, or it ends, with narrow power and floored remainder.
#[derive(Clone, Copy)]
pub enum Verdict {
    Going,
    Dominant(f64, f64),
    Not(f64, f64),
}

#[derive(Clone, Copy)]
pub struct Judged {
    pub state: ToneDominance,
    pub verdict: Verdict,
}

// Each filter after a sample. An index, here and below: `map` of an array asks for a bound on N.
fn fed<const N: usize>(mut gs: [Goertzel; N], x: f64) -> [Goertzel; N]
    ensures { result ≡ map (goertzel_feed x) gs.entry }
{
    for i in 0..N {
        gs[i] = gs[i].feed(x);
    }
    gs
}

// Each filter as before its block.
fn cleared<const N: usize>(mut gs: [Goertzel; N]) -> [Goertzel; N]
    ensures { result ≡ map goertzel_reset gs.entry }
{
    for i in 0..N {
        gs[i] = gs[i].reset();
    }
    gs
}

// The strongest probe.
#[tactic(auto, unfolding(crate::specs::Carrier::narrow_of))]
fn best(gs: [Goertzel; 5]) -> f64
    ensures { result ≡ narrow_of gs }
{
    let mut b = 0.0;
    for g in gs {
        b = maximum(b, g.power());
    }
    b
}

// The energy of this end's own tones.
#[tactic(auto, unfolding(crate::specs::Carrier::own_energy))]
fn own_energy(gs: [Goertzel; 2]) -> f64
    ensures { result ≡ own_energy gs }
{
    let own_power = 0.0 + gs[0].power() + gs[1].power();
    own_power * 2.0 / 256.0
}

#[tactic(auto, unfolding(crate::specs::Carrier::others_of))]
fn others_of(gs: [Goertzel; 2], wideband: f64) -> f64
    ensures { result ≡ others_of gs wideband }
{
    let own = own_energy(gs);
    maximum(wideband - own, own * OWN_LEAK_GUARD)
}

#[tactic(auto, unfolding(crate::specs::Carrier::judged))]
fn judge(narrow: f64, others: f64) -> Verdict
    ensures { yes_of result ≡ judged narrow others }
{
    if narrow > DOMINANCE_RATIO * others {
        Verdict::Dominant(narrow, others)
    } else {
        Verdict::Not(narrow, others)
    }
}

impl ToneDominance {
    #[tactic(auto, unfolding(crate::specs::Carrier::fresh_dominance))]
    pub(crate) fn new(
        mark_hz: f64,
        own_mark_hz: f64,
        own_space_hz: f64,
        sample_rate: f64,
    ) -> ToneDominance
        ensures { result ≡ fresh_dominance mark_hz own_mark_hz own_space_hz sample_rate }
    {
        let m0 = Goertzel::new(mark_hz * (1.0 + -0.02), sample_rate);
        let m1 = Goertzel::new(mark_hz * (1.0 + -0.01), sample_rate);
        let m2 = Goertzel::new(mark_hz * (1.0 + 0.0), sample_rate);
        let m3 = Goertzel::new(mark_hz * (1.0 + 0.01), sample_rate);
        let m4 = Goertzel::new(mark_hz * (1.0 + 0.02), sample_rate);
        let o0 = Goertzel::new(own_mark_hz, sample_rate);
        let o1 = Goertzel::new(own_space_hz, sample_rate);
        let mark = [m0, m1, m2, m3, m4];
        let own = [o0, o1];
        ToneDominance {
            mark,
            own,
            wideband: 0.0,
            count: 0,
        }
    }

    // Discards the part-judged block.
    #[tactic(auto, unfolding(crate::specs::Carrier::dominance_reset))]
    pub(crate) fn reset(self) -> ToneDominance
        ensures { result ≡ dominance_reset self }
    {
        ToneDominance {
            mark: cleared(self.mark),
            own: cleared(self.own),
            wideband: 0.0,
            count: 0,
        }
    }

    #[tactic(auto, unfolding(crate::specs::Carrier::dominance_reset, crate::specs::Carrier::dominance_step))]
    pub(crate) fn feed(self, x: f64) -> Judged
        ensures { answered_by result ≡ dominance_step self x }
    {
        let block = ToneDominance {
            mark: fed(self.mark, x),
            own: fed(self.own, x),
            wideband: self.wideband + x * x,
            ..self
        };
        let count = self.count;
        if count < 255 {
            let state = ToneDominance {
                count: count + 1,
                ..block
            };
            return Judged {
                state,
                verdict: Verdict::Going,
            };
        }
        let verdict = judge(best(block.mark), others_of(block.own, block.wideband));
        Judged {
            state: block.reset(),
            verdict,
        }
    }
}
