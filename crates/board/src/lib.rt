// The board: what a host calls. The receiver of `modem` hears, the decoder of `tide` judges; no bytes wait between writes.
//
//   board     `new`, `write`, and what the board shows     specs/Plain.antt, BoardRep.antt
//   writes    a list of writes: the third term             specs/Term.antt, Symbols.antt, Runs.antt
//   counts, numbers, station: parts of them                specs/Station.antt
//
// For a host that calls `new` and `write` itself: specs/Hosted.antt, proofs/HostedLaws.antt.
#![tactic(auto)]

mod board;
mod counts;
mod numbers;
mod station;
mod writes;

pub use board::{Board, Summary};
pub use writes::{Listened, listen};
