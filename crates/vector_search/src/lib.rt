//! The search for the next place of some bytes that passes a test, and for the next row of places that pass
//! none, sixteen places at a time. What is looked for is a `PlaceTest`: a mask of sixteen places, made by
//! the vector operations of `std::simd`, and the same test of one place. `next_place` and `next_row` are the
//! searches, whatever the test; `outside` makes the mask of a class of bytes by two tables.
//!
//! The promise: `next_place` answers the first place that passes, and no place ahead of it does. `next_row`
//! answers the first place from which on `ROW` places in a row pass none, and ahead of it stands none such.
//! `specs/Places.antt` says what that is, and what a mask means, `specs/Rows.antt` what a row is.
//! `proofs/Lanes.antt` and `proofs/Masks.antt` have the lemmas by which a crate above shows that a mask of its
//! own is right: each lane is a function of its place or its byte, and each operation is one lemma.
#![tactic(auto)]

mod look_up;
mod place_test;
mod rows;
mod search;

pub use look_up::{by_high_half, by_low_half, outside};
pub use place_test::{LANES, PlaceTest};
pub use rows::{ROW, next_row};
pub use search::next_place;

#[cfg(test)]
mod tests;
