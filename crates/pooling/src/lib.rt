// Three gauges, one level: the readings of three gauges of one basin pooled into one.
//
//   levels   the lower, the higher and the middle of levels        specs/Pool.antt
//   gauges   which readings are kept, and what is shown of them    specs/Pool.antt, PoolRep.antt
//
// specs/Claims.antt says what holds of every three gauges.
#![tactic(auto)]

mod gauges;
mod levels;

pub use gauges::pool;
