//! The words of the command line: which commands are lawful, what their options set, and which word is
//! the first bad one.
//!
//! `specs/Options.antt` is the table of the options: the name of each, how often it may be given, what its
//! value is and, of a number, its range and what holds without it. `specs/Words.antt` says which words are
//! options, which are places, and what is bad of each; `specs/Settings.antt` which settings the options give,
//! and `specs/Lawful.antt` in which ranges these lie.
//!
//! The promise: [`read_words`] gives the [`Command`] of lawful words, whose settings lie in their ranges, or
//! names the first bad word with its [`Why`]. [`settings_bytes`] is the record of `specs/Record.antt`, and
//! [`settings_read`] gives what a record keeps, and none exactly where the bytes are no record.
#![tactic(auto)]

mod action;
mod fault;
mod judge;
mod options;
mod places;
mod record;
mod record_read;
mod settings;
mod values;
mod words;

pub use fault::{Why, WordsFault};
pub use options::{
    CONTEXT, DEPTH, KEYWORDS_MOST, MARGIN, MASK, PAGE, PATTERNS_MOST, SPOOL_LIMIT, WORD_MAX,
    WORD_MIN, WORKERS,
};
pub use places::{PLACES_MOST, SEED, SIZE};
pub use record::{Kept, settings_bytes};
pub use record_read::{RECORD_LEAST, settings_read};
pub use settings::{Plan, SCANNERS, SCANNERS_END, Settings};
pub use values::{NumberRange, TEXT_MOST};
pub use words::{Command, read_words};

#[cfg(test)]
mod tests;
