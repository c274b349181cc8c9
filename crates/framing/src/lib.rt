// Start and stop bits around each byte, and back.
#![tactic(auto)]

pub mod frame;
