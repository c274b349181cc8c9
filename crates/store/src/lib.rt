// Settings that outlive a power switch: rate, station and role, kept as lines in the first 256 bytes of a lent buffer.
//
//   line      a settings line judged, and one made      specs/Line.antt
//   reading   the settings that a store holds           specs/Store.antt
//   writing   settings written into a store             specs/Store.antt
#![tactic(auto)]

mod line;
mod reading;
mod writing;

pub use line::Settings;
pub use reading::{Found, read};
pub use writing::{unused_from, write};
