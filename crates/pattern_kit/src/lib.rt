//! Patterns that a user gives as texts: what builds a matcher of a text, and what a matcher answers.
//!
//! A [`Kit`] reads the text of a pattern and builds a [`Matcher`] of what it read; the matcher gives the
//! length of the pattern's match at each place of some bytes. Each place is judged by itself: what stands
//! ahead of it isn't seen, and of what stands from it on at most [`PATTERN_REACH`] bytes.
//!
//! [`RegexKit`] reads the syntax of the `regex` crate over bytes. [`WordKit`], for tests, reads each text as
//! itself.
//!
//! The promise: a matcher answers exactly the lengths that its reading of the text has by the definition
//! of its kit (`specs/Matching.antt`), and a kit counts each text that it refuses (`specs/Building.antt`).
//! What a text is read as is in `specs/Readings.antt` and `specs/Words.antt`. However it is read, it matches
//! alike: `proofs/OneMeaning.antt` has this law of each of the two kits, which `make` ensures.
#![tactic(auto)]

mod assertions;
mod judge;
mod kit;
mod matcher;
mod pace;
mod passing;
mod refusals;
mod regex_kit;
mod regex_matcher;
mod search;
mod word_kit;

pub use kit::{Kit, KitFault};
pub use matcher::Matcher;
pub use regex_kit::RegexKit;
pub use regex_matcher::RegexMatcher;
pub use word_kit::{WordKit, WordMatcher};

/// How many bytes from a place on a pattern sees at most.
pub const PATTERN_REACH: usize = 256;

#[cfg(test)]
mod tests;
