// The files of a disk in memory. Contracts see them as the list of the files' bytes.
ghost use Rattle.std.specs.Prelude.{◌≡◌, ◌+◌, ◌^◌, ◌<◌, ◌≤◌, [], length, take, drop, vec_len, OnOk, OnErr};
ghost use Rattle.byte_kit.specs.Places.{put};
ghost use Rattle.host_disk.specs.Files.{written};
ghost use Rattle.host_disk.specs.Contents.{contents};

use crate::content::Content;
use byte_kit::NoMemory;
use std::alloc::Global;
use std::marker::Model;

// Numbered files, of which the list holds those up to the highest that was ever written. Memory
// grows with what is written alone.
#[derive(Drop)]
pub(crate) struct Medium {
    alloc: Global,
    files: Vec<Content>,
}

impl Model for Medium {
    ghost use Rattle.std.specs.Prelude.{ℕ, List};

    ghost Value = { List (List ℕ) };

    ghost view = { λ m. m.files.items };
}

impl Medium {
    // All files empty.
    pub(crate) fn make(alloc: Global) -> Medium
        ensures { result ≡ [] }
    {
        Medium {
            alloc,
            files: Vec::new(alloc),
        }
    }

    // The file's bytes, lent; none where it isn't there.
    pub(crate) fn file(&self, file: u32) -> &[u8]
        ensures bytes { result.now ≡ contents self.now file }
        ensures bound { length result.now < 2 ^ 62 }
    {
        match self.files.get(file as usize) {
            Some(content) => content.as_slice(),
            None => &[],
        }
    }

    // Fills `into` with the file's bytes from the place on.
    pub(crate) fn read_at(&self, file: u32, at: u64, into: &mut [u8])
        requires { at + length into.old ≤ length (contents self.now file) }
        ensures { into.new ≡ take (length into.old) (drop at (contents self.now file)) }
    {
        let (_, rest) = self.file(file).split_at(at as usize);
        let (found, _) = rest.split_at(into.len());
        into.copy_from_slice(found);
    }

    // Puts other bytes in the place of the file's. Refused, it leaves all files as they were.
    pub(crate) fn set(&mut self, file: u32, bytes: &[u8]) -> Result<(), NoMemory>
        requires { length bytes.now < 2 ^ 62 }
        ensures set { OnOk result (contents self.new ≡ put (contents self.old) file bytes.now) }
        ensures same { OnErr result (contents self.new ≡ contents self.old) }
    {
        let content = Content::copy(self.alloc, bytes)?;
        grow_to(self.alloc, &mut self.files, file as usize + 1)?;
        self.files[file as usize] = content;
        Ok(())
    }

    // Writes over what stands in the file from the place on, and past its end. Refused, it leaves
    // all files as they were.
    pub(crate) fn write_at(&mut self, file: u32, at: u64, bytes: &[u8]) -> Result<(), NoMemory>
        requires within { at ≤ length (contents self.old file) }
        requires bound { at + length bytes.now < 2 ^ 62 }
        ensures written { OnOk result (contents self.new ≡ put (contents self.old) file (written at bytes.now (contents self.old file))) }
        ensures same { OnErr result (contents self.new ≡ contents self.old) }
    {
        grow_to(self.alloc, &mut self.files, file as usize + 1)?;
        self.files[file as usize].write_at(at as usize, bytes)?;
        Ok(())
    }

    // Drops what stands in the file from the place on.
    pub(crate) fn cut(&mut self, file: u32, to: u64)
        ensures { contents self.new ≡ put (contents self.old) file (take to (contents self.old file)) }
    {
        let at = file as usize;
        if at < self.files.len() {
            self.files[at].cut(to as usize);
        }
    }
}

// Adds empty files until the list has so many. Refused, it may have added some: they change no
// file's bytes.
fn grow_to(alloc: Global, files: &mut Vec<Content>, count: usize) -> Result<(), NoMemory>
    ensures same { contents files.new.items ≡ contents files.old.items }
    ensures enough { OnOk result (count ≤ vec_len files.new) }
{
    for _ in files.len()..count {
        files.push(Content::make(alloc))?;
    }
    Ok(())
}
