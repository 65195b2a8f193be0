//! Keywords and patterns that the user looks for, at each place by itself: one match may lie within
//! another.
//!
//! The promise: `find_words_given` appends exactly the marks of `specs/Marks.antt` of the places that the
//! buffer owns, whatever its filters pass over; `find_given_into` does the same over lists that a caller
//! keeps. `specs/Find.antt` says when a keyword or a pattern matches at a place, whatever a pattern's text
//! means; `proofs/Rows.antt` works examples of it. A pattern is handed in as a `Matcher` of `pattern_kit`.
#![tactic(auto)]

mod byte_table;
mod chains;
mod find;
mod front;
mod given;
mod hits;
mod keywords;
mod lengths;
mod piece;

pub use find::{find_given_into, find_words_given};
pub use given::are_keywords;
pub use lengths::Lengths;
pub use pattern_kit::{Kit, KitFault, Matcher, PATTERN_REACH};

/// How many keywords may be given at most.
pub const KEYWORDS_MOST: usize = 64;

/// How many patterns may be given at most.
pub const PATTERNS_MOST: usize = 4;

/// How many bytes a keyword may have at most.
pub const TEXT_MOST: usize = 256;

#[cfg(test)]
mod tests;
