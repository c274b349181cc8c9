// From samples at 8,000 a second to bytes and carrier events, one sample at a time (rx.rs, carrier.rs, and nco.rs's Goertzel). What is inside is
// private; `selftest` runs carrier.rs's two parts from fresh, for document 01's examples.
//
//   goertzel     how much of one frequency is in a block      specs/Goertzel.antt
//   carrier      the detector, and dominance                  specs/Carrier.antt
//   waves        the two tones' cosines and sines             specs/Waves.antt
//   correlator   each sample against the two tones            specs/Correlation.antt, Summing.antt
//   timing       where a symbol ends, and its bit             specs/Timing.antt, Pace.antt, Symbols.antt
//   kind         bare, or for a board                         specs/Timing.antt: limited_by
//   demod        one sample                                   specs/Demod.antt, DemodRep.antt
//   hearing      a list of samples, into lent codes           specs/Demod.antt, Listening.antt
#![tactic(auto)]

mod carrier;
mod correlator;
mod demod;
mod goertzel;
mod hearing;
mod kind;
pub mod selftest;
mod timing;
mod waves;

pub use carrier::Verdict;
pub use demod::{Carrier, Core, Demodulator, Step};
pub use hearing::hear;
pub use kind::Kind;
