//! Escapes: how any bytes stand in one line of printable text. A visible byte and the blank stand as
//! they are; every other byte, and the backslash, is `\x` and two hexadecimal digits in capitals.
//!
//! The promise: [`escape`] writes the one text of the bytes ([`escape_into`] at the end of a line that
//! is built), [`unescape_strict`] reads exactly the texts that these write, and [`unescape_lenient`]
//! reads what anybody wrote, any bytes at all, and every text of `escape` as its bytes
//! ([`lenient_undoes_escape`]). `specs/Escape.antt` says which text bytes have, and which bytes a text
//! that this program did not write is read as. Nothing here knows of lines, fields or features.
#![tactic(auto)]

mod law;
mod read;
mod search;
mod write;

pub use law::lenient_undoes_escape;
pub use read::{unescape_lenient, unescape_strict};
pub use write::{escape, escape_into};

#[cfg(test)]
mod tests;
