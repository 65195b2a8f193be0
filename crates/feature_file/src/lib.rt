//! The files of a report by number and name, and the text of a feature file: a header of three lines, and
//! a line for each feature with its path, its bytes and its context.
//!
//! `specs/Files.antt` is the table of the files, with the scanner for which each is written, and
//! `specs/FeatureFile.antt` says which text a feature file has for a list of features.
//!
//! The promise: [`file_name`] and [`is_written`] are that table. A feature file is what [`header_of`] gives,
//! and then [`line_of`] and an LF for each feature that [`stands_in`] it, in the list's order
//! ([`header_into`] and [`line_into`] append the same to a text that is built). [`read_line`] gives each
//! [`Line`] of a path of at most seven steps back, and refuses every other text (`specs/Lines.antt`).
#![tactic(auto)]

mod files;
mod header;
mod line;
mod read;

pub use files::{file_name, is_written};
pub use header::{header_into, header_of};
pub use line::{ALERT_FILE, STOPPED_FILES, line_into, line_of, stands_in};
pub use read::{Line, read_line};

#[cfg(test)]
mod tests;
