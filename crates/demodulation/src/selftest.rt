// The inner parts, run on examples: so that a program can try what no public entry shows.
ghost use Rattle.std.specs.Prelude.{◌≡◌};
ghost use Rattle.demodulation.specs.Carrier.{yes_of};
ghost use Rattle.demodulation.specs.Selftest.{rise_of, block_says};

pub use crate::carrier::Verdict;
use crate::carrier::{CarrierDetector, ToneDominance};

// The first of at most `updates` updates with one energy at which a fresh detector is up.
pub fn detector_rise(energy: f64, updates: u32) -> Option<u32>
    ensures { result ≡ rise_of energy updates }
{
    let mut d = CarrierDetector::new();
    for done in 0..updates {
        d = d.update(energy);
        if d.detected {
            return Some(done + 1);
        }
    }
    None
}

// The verdict on a fresh block of 256 samples, all x, at 8,000 Hz.
pub fn block_verdict(mark_hz: f64, own_mark_hz: f64, own_space_hz: f64, x: f64) -> Verdict
    ensures { yes_of result ≡ block_says mark_hz own_mark_hz own_space_hz x }
{
    let mut d = ToneDominance::new(mark_hz, own_mark_hz, own_space_hz, 8000.0);
    for _ in 0..255usize {
        d = d.feed(x).state;
    }
    d.feed(x).verdict
}
