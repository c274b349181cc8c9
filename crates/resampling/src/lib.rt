// Between a device rate and 8,000 samples a second (resample.rs). What is inside is private:
//
//   range      the test of samples                         numeric specs/Convert.antt
//   design     the taps of the low-pass filter              specs/Design.antt
//   filter     the filter's sums over a ring of samples     specs/Filter.antt, FilterRep.antt
//   hermite    the interpolation between four samples       specs/Filter.antt
//   sample     one sample in, one sample out                specs/Flow.antt, FlowRep.antt
//   feed       a whole input                                specs/Flow.antt, FlowRep.antt
//   numbers    its arrays, as they are shown                specs/Numbers.antt
//   resample   the resampler                                specs/Resample.antt, ResampleRep.antt
#![tactic(auto)]

mod design;
mod feed;
mod filter;
mod hermite;
mod numbers;
mod range;
mod resample;
mod sample;

pub use design::MAX_TAPS;
pub use resample::Resampler;
