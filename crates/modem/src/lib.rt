// The port's face: the receiver (rx.rs), and what the crates below have of the Rust's public parts.
//
//   samples   the samples of a call, tested and widened     specs/Samples.antt
//   write     the checks of a write                         specs/Write.antt
//   hear      a call's samples, resampled and heard         specs/Hear.antt
//   listener  what hears, for the receiver and the board    specs/Listener.antt, ListenerRep.antt, Symbols.antt
//   queue     bytes heard and carrier events that wait      specs/Queue.antt
//   rx        the receiver                                  specs/Rx.antt, RxRep.antt
#![tactic(auto)]

mod hear;
mod listener;
mod queue;
mod rx;
mod samples;
mod write;

pub use bell103::{Duration, Measure, Role, exact, exact_sum, tones};
pub use demodulation::{Carrier, Kind};
pub use framing::frame::{Deframer, frame_byte};
pub use listener::Listener;
pub use modulation::{TableTx, Tx};
pub use resampling::Resampler;
pub use rx::Rx;
