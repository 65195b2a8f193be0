//! Base64 text (RFC 4648 section 4) as mail and other text files carry it: lines of one length, each
//! with a line break behind it, which a scan reads through as one text.
//!
//! The promise: `b64_text` says what text begins at a place, and `b64_value` decodes it, exactly as
//! `specs/Base64.antt` says; `find_texts` appends exactly the starts of `specs/Starts.antt` of the places
//! that the buffer owns. `proofs/Rows.antt` works examples.
#![tactic(auto)]

mod find;
mod letters;
mod text;
mod value;

pub use find::find_texts;
pub use text::b64_text;
pub use value::b64_value;

/// How many letters the first line of a text has at least.
pub const LINE_LEAST: usize = 32;

/// How many letters of a text are taken at most.
pub const LETTERS_MOST: usize = 65536;

#[cfg(test)]
mod find_tests;
#[cfg(test)]
mod tests;
