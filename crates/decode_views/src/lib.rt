//! Two other views of the bytes at a place: the text of a run of UTF-16 pairs, and the place with each
//! byte XORed with a mask.
//!
//! The promise: `utf16_run` is the run at a place exactly as `specs/Utf16.antt` says, `utf16_value` its
//! value, and `find_runs` appends exactly the starts of `specs/Starts.antt` of the places that the buffer
//! owns. `xor_view` is the bytes as `specs/Xor.antt` says; by `view_look` of `proofs/Masked.antt` each place
//! of it looks as that place of the bytes does, XORed. `proofs/Rows.antt` works examples.
#![tactic(auto)]

mod find;
mod pair_test;
mod run;
mod value;
mod xor;

pub use find::find_runs;
pub use run::utf16_run;
pub use value::utf16_value;
pub use xor::xor_view;

/// How many pairs a run has at least.
pub const PAIRS_LEAST: usize = 8;

/// How many pairs of a run are taken at most.
pub const PAIRS_MOST: usize = 4096;

#[cfg(test)]
mod tests;
