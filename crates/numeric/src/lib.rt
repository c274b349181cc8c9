// The numbers below the modem. Each function answers for every argument, and its contract is an equation with a definition of specs/.
//
//   arrays    filled: an array of one value
//   compare   maximum, absolute                     specs/F64.antt
//   phase     turn: the phase of a tone             specs/Phase.antt
//   sine      sine, cosine, TAU, PI                 specs/Sine.antt
//   sines     four or eight sines side by side      specs/Sines.antt
//   root      root, roots, for `hypot`              specs/Root.antt
//   convert   widen, narrow, in_range, wide_in_range   specs/Convert.antt; the bits by which `narrow` works: specs/Patterns.antt
//   counts    nearest, ceiling: rounded quotients   specs/Counts.antt
//   ends      where a part of a slice ends
//   limits    any_above: whether a list keeps to a limit   specs/Limits.antt
//
// For the definitions and proofs of other crates: specs/F64.antt writes f64 arithmetic as ⊕ ⊖ ⊗ ⊘ <ᶠ ≤ᶠ =ᶠ, and
// specs/Fold.antt folds; proofs/Whole.antt and proofs/BoundLaws.antt have the laws of exact whole numbers and of bounds; proofs/CountLaws.antt
// proves that each rounded quotient is what the Rust works out in floats; proofs/Examples.antt has values worked out by the prover.
#![tactic(auto)]

pub mod arrays;
pub mod compare;
pub mod convert;
pub mod counts;
pub mod ends;
pub mod limits;
pub mod phase;
pub mod root;
pub mod sine;
pub mod sines;
