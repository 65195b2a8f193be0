// The bytes of one file of a disk in memory. Contracts see them as a list.
ghost use Rattle.std.specs.Prelude.{◌≡◌, ◌+◌, ◌^◌, ◌<◌, ◌≤◌, [], length, take, IfOk, OnOk, OnErr};
ghost use Rattle.host_disk.specs.Files.{written};

use byte_kit::NoMemory;
use std::alloc::Global;
use std::marker::Model;

// The bytes of a file, fewer than 2^62 of them.
#[derive(Drop)]
pub(crate) struct Content {
    bytes: Vec<u8>,
}

impl Model for Content {
    ghost use Rattle.std.specs.Prelude.{ℕ, ◌^◌, ◌<◌, List, length};

    ghost Value = { List ℕ };

    ghost view = { λ c. c.bytes.items };

    ghost invariant = { λ c. length c.bytes.items < 2 ^ 62 };
}

impl Content {
    // No bytes.
    pub(crate) fn make(alloc: Global) -> Content
        ensures { result ≡ [] }
    {
        Content {
            bytes: Vec::new(alloc),
        }
    }

    // A copy of the bytes. Its one refusal is want of memory.
    pub(crate) fn copy(alloc: Global, bytes: &[u8]) -> Result<Content, NoMemory>
        requires { length bytes.now < 2 ^ 62 }
        ensures { IfOk result (λ content. content ≡ bytes.now) }
    {
        Ok(Content {
            bytes: Vec::from_slice(alloc, bytes)?,
        })
    }

    // The bytes, lent.
    pub(crate) fn as_slice(&self) -> &[u8]
        ensures bytes { result.now ≡ self.now }
        ensures bound { length self.now < 2 ^ 62 }
    {
        self.bytes.as_slice()
    }

    // Writes over what stands from the place on, and past the end. Room is made before a byte is
    // changed, so a refused write leaves all as it was.
    pub(crate) fn write_at(&mut self, at: usize, bytes: &[u8]) -> Result<(), NoMemory>
        requires within { at ≤ length self.old }
        requires bound { at + length bytes.now < 2 ^ 62 }
        ensures written { OnOk result (self.new ≡ written at bytes.now self.old) }
        ensures same { OnErr result (self.new ≡ self.old) }
    {
        let (over, behind) = bytes.split_at(bytes.len().min(self.bytes.len() - at));
        self.bytes.extend_from_slice(behind)?;
        overwrite(self.bytes.as_mut_slice(), at, over);
        Ok(())
    }

    // Drops what stands from the place on.
    pub(crate) fn cut(&mut self, to: usize)
        ensures { self.new ≡ take to self.old }
    {
        self.bytes.truncate(to);
    }
}

// Writes over what stands from the place on, all of it within what is there.
fn overwrite(into: &mut [u8], at: usize, bytes: &[u8])
    requires { at + length bytes.now ≤ length into.old }
    ensures { into.new ≡ written at bytes.now into.old }
{
    let (_, rest) = into.split_at_mut(at);
    let (over, _) = rest.split_at_mut(bytes.len());
    over.copy_from_slice(bytes);
}
