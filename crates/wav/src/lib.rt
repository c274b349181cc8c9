// Recordings: a WAV file, byte by byte, or raw samples.
//
//   words    numbers and sizes of a header          specs/Words.antt
//   sample   a sample's bytes as a number           specs/Sample.antt
//   wav      the reader                             specs/Wav.antt; what a recording is: specs/Recording.antt
#![tactic(auto)]

mod sample;
mod wav;
mod words;

pub use wav::{Fault, Out, Step, Wav};
