//! The headers of executable files, ELF and PE, with what they say of the machine and the file, and the
//! signatures of compressed files, gzip and ZIP, which a scan notes and leaves unread.
//!
//! The promise: `exec_at` and `unread_at` answer the header of `specs/Exec.antt`, and None exactly
//! where none stands at the place; `exec_text` and the extents are those of that header.
//! `find_execs` appends exactly the marks of `specs/Marks.antt` of the places that the buffer owns.
//! `specs/Headers.antt` says which header a value of `Exec` or `Unread` has. `proofs/Rows.antt` works
//! examples.
#![tactic(auto)]

mod exec;
mod find;
mod text;
mod unread;

pub use exec::{Exec, exec_at};
pub use find::find_execs;
pub use text::exec_text;
pub use unread::{Unread, unread_at};

/// How many bytes of an ELF header are read: up to its machine.
pub const ELF_SIZE: usize = 20;

/// How many bytes the header in front of a PE file has, that of MS-DOS. Its last four say where the PE
/// header stands.
pub const DOS_SIZE: usize = 64;

/// The farthest place, from the file's front on, at which a PE header is looked for.
pub const PE_PLACE_MOST: usize = 4096;

#[cfg(test)]
mod search_tests;
#[cfg(test)]
mod tests;
