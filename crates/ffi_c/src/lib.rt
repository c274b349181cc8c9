// The exports of `ffi` for hosts in C: each hands on to the function of its name there, with the same clauses. include/morkhetta.h declares them.
#![tactic(auto)]

pub mod charge;
pub mod digits;
pub mod durations;
pub mod frames;
pub mod gauges;
pub mod listen;
pub mod receive;
pub mod resample;
pub mod send;
pub mod settings;
