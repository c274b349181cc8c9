// States, number by number: for runs against the Rust original.
//
//   state       the receiver's        specs/ReceiverState.antt, StateSteps.antt
//   resampler   the resampler's       specs/ResamplerState.antt
//   sender      the sender's          specs/SenderState.antt
#![tactic(auto)]

mod resampler;
mod sender;
mod state;

pub use resampler::resampler_from_fresh;
pub use sender::sender_state_from_fresh;
pub use state::state_from_fresh;
