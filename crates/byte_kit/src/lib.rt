//! Bytes and numbers, as every crate of `triage` uses them: owned bytes and names that contracts see
//! as lists, the classes of bytes, numbers of two to eight bytes, and decimals. Beside them stand
//! counts of faults (`specs/Counts.antt`), and `Calls`, by which objects for tests fail on demand.
//! Nothing here knows of images or features.
//!
//! The promise: a class test is its class in `specs/Classes.antt`, a number that is read or written is
//! that of `specs/Numbers.antt`, a copy is the bytes that were copied, a decimal is the number's,
//! written and read, and a call of `Calls` is due exactly where its number was named. Readers, writers,
//! class tests and decimals in place take no memory.
#![tactic(auto)]

mod calls;
mod classes;
mod decimal;
mod memory;
mod numbers;
mod text;

pub use calls::Calls;
pub use classes::{is_base64, is_digit, is_hex, is_host, is_letter, is_printable, is_url, is_word};
pub use decimal::{dec_into, dec_read, dec_write};
pub use memory::NoMemory;
pub use numbers::{be16_at, be32_at, le16_at, le32_at, le64_at, put_le16, put_le32, put_le64};
pub use text::{Bytes, Name, Names, Texts};

#[cfg(test)]
mod tests;
