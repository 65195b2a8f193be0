//! Runs of hexadecimal digits of either case, two to a byte (RFC 4648 section 8).
//!
//! The promise: `hex_run` is the run at a place exactly as `specs/Hex.antt` says, `hex_value` decodes it,
//! and `find_runs` appends exactly the starts of `specs/Starts.antt` of the places that the buffer owns.
//! `proofs/Rows.antt` works examples.
#![tactic(auto)]

mod find;
mod run;
mod value;

pub use find::find_runs;
pub use run::hex_run;
pub use value::hex_value;

/// How many digits a run has at least.
pub const DIGITS_LEAST: usize = 32;

/// How many digits of a run are taken at most, an even number.
pub const DIGITS_MOST: usize = 16384;

#[cfg(test)]
mod tests;
