// What is heard, one thing after the other: bytes, bad stops, losses of the carrier, changes of the report; and its codes in a lent array.
#![tactic(auto)]

mod happening;

pub use happening::{Happening, Tally, happening_of, tally_of};
