// A source over real files. It tells no content, since no contract can name what a file holds.
ghost use Rattle.std.specs.Prelude.{◌≡◌, ◌<◌, ◌≤◌, true, None, []};
ghost use Rattle.byte_kit.specs.Counts.{counted};

use byte_kit::Name;
use host_source::{Source, SourceFault};
use std::alloc::Global;
use std::fs::{File, Files};
use std::io;
use std::io::{Read, Seek, SeekFrom};

// The least size in bytes that a part can't have.
const SIZE_END: u64 = 1 << 57;

/// A file that is attached to a slot, and how many bytes it has.
#[derive(Drop)]
pub struct Part {
    pub slot: u32,
    pub name: Name,
    pub size: u64,
    file: File,
}

/// Files by their paths, one for each slot that is attached.
#[derive(Drop)]
pub struct FileSource<R> {
    rt: R,
    alloc: Global,
    parts: Vec<Part>,
    faults: u64,
}

impl<R: Files<File = File> + Drop> FileSource<R> {
    /// A source with nothing attached, over the files of a runtime.
    pub fn make(alloc: Global, rt: R) -> FileSource<R>
        ensures detached { result.parts.items ≡ [] }
        ensures faults { result.faults ≡ 0 }
    {
        FileSource {
            rt,
            alloc,
            parts: Vec::new(alloc),
            faults: 0,
        }
    }
}

// Opens a file, and measures it by a seek to its end: the length in a device's metadata is 0.
fn open<R: Files<File = File>>(rt: &R, name: &str) -> io::Result<(File, u64)> {
    let mut file = File::open(rt, name)?;
    let size = file.seek(SeekFrom::End(0))?;
    Ok((file, size))
}

/// Fills `into` with the file's bytes from place `at` on. A file that ends before is an error.
pub fn read_part(mut file: &File, at: u64, into: &mut [u8]) -> io::Result<()> {
    file.seek(SeekFrom::Start(at))?;
    file.read_exact(into)
}

// Counts one fault.
fn fault(faults: &mut u64) -> SourceFault
    ensures later { faults.old ≤ faults.new }
    ensures one { faults.new ≡ counted faults.old }
{
    *faults = faults.saturating_add(1);
    SourceFault
}

impl<R: Files<File = File> + Drop> Source for FileSource<R> {
    ghost use Rattle.triage.specs.Parts.{slots_of};

    ghost nature = { λ s. record { held = None; may_attach = λ name. true } };

    ghost slots = { λ s. slots_of s.parts.items };

    ghost faults = { λ s. s.faults };

    fn attach(&mut self, slot: u32, name: &str) -> Result<u64, SourceFault> {
        let Ok((file, size)) = open(&self.rt, name) else {
            return Err(fault(&mut self.faults));
        };
        let Ok(name) = Name::copy(self.alloc, name) else {
            return Err(fault(&mut self.faults));
        };
        // A folder can be opened, and its end lies beyond every file's.
        if size >= SIZE_END {
            return Err(fault(&mut self.faults));
        }
        let part = Part {
            slot,
            name,
            size,
            file,
        };
        let Ok(()) = self.parts.push(part) else {
            return Err(fault(&mut self.faults));
        };
        Ok(size)
    }

    fn read_at(&mut self, slot: u32, at: u64, into: &mut [u8]) -> Result<(), SourceFault> {
        for part in &self.parts {
            if part.slot == slot && read_part(&part.file, at, into).is_ok() {
                return Ok(());
            }
        }
        Err(fault(&mut self.faults))
    }
}
