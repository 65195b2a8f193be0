//! Words for a word list: runs of visible ASCII of a length that the user sets.
//!
//! The promise: `word_len` is the length of the word at a place exactly as `specs/Word.antt` says, and
//! `find_words` appends exactly the marks of `specs/Marks.antt` of the places that the buffer owns.
//! `proofs/Rows.antt` works examples.
#![tactic(auto)]

mod filter;
mod find;
mod word;
mod word_rows;

pub use find::find_words;
pub use word::word_len;
pub use word_rows::next_word_row;

/// The most bytes that a word may be asked to have.
pub const WORD_MOST: u16 = 256;

#[cfg(test)]
mod tests;
