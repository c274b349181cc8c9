// Functions for hosts in C and Rust, and for runs against the Rust original: each runs a whole list of calls from a fresh state.
// include/morkhetta.h declares them.
#![tactic(auto)]

pub mod charge;
pub mod digits;
pub mod durations;
pub mod frames;
pub mod gauges;
pub mod listen;
pub mod receive;
pub mod resample;
mod row;
pub mod send;
pub mod settings;
