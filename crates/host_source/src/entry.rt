// A name with its bytes.
ghost use Rattle.std.specs.Prelude.{◌≡◌, ◌^◌, ◌<◌, length, replicate, IfOk};

use crate::content::Content;
use byte_kit::{Bytes, Name, NoMemory};
use std::alloc::Global;

// Fewer than 2^57 bytes under a name.
#[derive(Drop)]
pub struct Entry {
    pub name: Name,
    pub bytes: Content,
    ghost small: { length bytes < 2 ^ 57 },
}

impl Entry {
    // A copy of the name and of the bytes. Its one refusal is want of memory.
    pub fn copy(alloc: Global, name: &str, bytes: &[u8]) -> Result<Entry, NoMemory>
        requires { length bytes.now < 2 ^ 57 }
        ensures name { IfOk result (λ entry. entry.name ≡ name.now) }
        ensures bytes { IfOk result (λ entry. entry.bytes ≡ bytes.now) }
    {
        Ok(Entry {
            name: Name::copy(alloc, name)?,
            bytes: Content::from(Bytes::copy(alloc, bytes)?),
        })
    }

    // A copy of the name, with one byte so many times. Its one refusal is want of memory.
    pub fn filled(alloc: Global, name: &str, size: u64, fill: u8) -> Result<Entry, NoMemory>
        requires { size < 2 ^ 57 }
        ensures name { IfOk result (λ entry. entry.name ≡ name.now) }
        ensures bytes { IfOk result (λ entry. entry.bytes ≡ replicate size fill) }
    {
        Ok(Entry {
            name: Name::copy(alloc, name)?,
            bytes: Content::filled(size, fill),
        })
    }

    // How many bytes there are.
    pub fn size(&self) -> u64
        ensures { result ≡ length self.now.bytes }
    {
        self.bytes.size()
    }
}
