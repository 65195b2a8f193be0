// A disk over a real folder. It tells no content, since no contract can name what a file holds.
ghost use Rattle.std.specs.Prelude.{◌≡◌, ◌<◌, ◌^◌, true, false, [], is_some, None, Ok, IsErr, IfOk, MatchResult};
ghost use Rattle.host_disk.specs.Disk.{IsDiskCall};

use byte_kit::NoMemory;
use feature_file::file_name;
use host_disk::{Disk, DiskFault};
use std::alloc::Global;
use std::fs::{File, Files};
use std::io::{Read, Seek, SeekFrom, Write};
use std::path::{Path, PathBuf};
use std::{fs, io};

// How many files a disk has; those that have names are a folder's.
const FILE_COUNT: u32 = 64;

// The least length in bytes that a file of a disk can't have.
const FILE_END: u64 = 1 << 62;

// A file of the folder: its number and its path.
#[derive(Drop)]
struct NamedFile {
    number: u32,
    path: PathBuf,
}

// A folder that is mounted.
#[derive(Drop)]
struct Folder {
    path: PathBuf,
    files: Vec<NamedFile>,
}

/// The files of a folder, by their numbers. A number without a name is a fault.
#[derive(Drop)]
pub struct FolderDisk<R> {
    rt: R,
    alloc: Global,
    folder: Option<Folder>,
    faults: u64,
}

impl<R: Files<File = File> + Drop> FolderDisk<R> {
    /// A disk that isn't mounted, over the files of a runtime.
    pub fn make(alloc: Global, rt: R) -> FolderDisk<R>
        ensures unmounted { result.folder ≡ None }
        ensures faults { result.faults ≡ 0 }
    {
        FolderDisk {
            rt,
            alloc,
            folder: None,
            faults: 0,
        }
    }
}

// A folder with the paths of its files, so that later calls take no memory.
fn folder_at(alloc: Global, name: &str) -> Result<Folder, NoMemory> {
    let path = Path::new(name).to_path_buf(alloc)?;
    let mut files = Vec::new(alloc);
    for number in 0..FILE_COUNT {
        if let Some(file) = file_name(number) {
            let path = path.join(alloc, file)?;
            files.push(NamedFile { number, path })?;
        }
    }
    Ok(Folder { path, files })
}

// Opens a file to be changed, and makes it where it is missing.
fn open_to_change<R: Files<File = File>>(rt: &R, path: Path<'_>) -> io::Result<File> {
    File::options().write(true).create(true).open(rt, path)
}

// Makes a folder, and those above it, where they are missing. An empty name is no folder's.
fn make_folder<R: Files<File = File>>(rt: &R, name: &str) -> io::Result<()> {
    if name.is_empty() {
        return Err(io::Error::from(io::ErrorKind::NotFound));
    }
    fs::create_dir_all(rt, name)
}

// The length of a file, which is 0 where it isn't there.
fn length_of<R: Files<File = File>>(rt: &R, path: Path<'_>) -> io::Result<u64>
    ensures { IfOk result (λ bytes. bytes < 2 ^ 62) }
{
    let mut file = match File::open(rt, path) {
        Ok(file) => file,
        Err(error) if error.kind() == io::ErrorKind::NotFound => return Ok(0),
        Err(error) => return Err(error),
    };
    let bytes = file.seek(SeekFrom::End(0))?;
    if bytes >= FILE_END {
        return Err(io::Error::from(io::ErrorKind::FileTooLarge));
    }
    Ok(bytes)
}

// Counts one fault where there was an error.
fn counted<T: Drop>(faults: &mut u64, done: io::Result<T>) -> Result<T, DiskFault>
    ensures cause { IsDiskCall faults.old faults.new false result }
    ensures value { MatchResult done (λ value. result ≡ Ok value) (λ _. IsErr result) }
{
    match done {
        Ok(value) => Ok(value),
        Err(_) => {
            *faults = faults.saturating_add(1);
            Err(DiskFault::Failed)
        }
    }
}

impl<R: Files<File = File> + Drop> FolderDisk<R> {
    // The folder that is mounted; that there is none is an error.
    fn mounted(&self) -> io::Result<&Folder> {
        match &self.folder {
            Some(folder) => Ok(folder),
            None => Err(io::Error::from(io::ErrorKind::NotFound)),
        }
    }

    // The path of a file; that a number has no name is an error.
    fn path(&self, number: u32) -> io::Result<Path<'_>> {
        for file in &self.mounted()?.files {
            if file.number == number {
                return Ok(file.path.as_path());
            }
        }
        Err(io::Error::from(io::ErrorKind::NotFound))
    }

    fn measure(&self, number: u32) -> io::Result<u64>
        ensures { IfOk result (λ bytes. bytes < 2 ^ 62) }
    {
        length_of(&self.rt, self.path(number)?)
    }

    // Fills `into` from place `at` on. A file that ends before is an error.
    fn read_file(&self, number: u32, at: u64, into: &mut [u8]) -> io::Result<()> {
        let mut file = File::open(&self.rt, self.path(number)?)?;
        file.seek(SeekFrom::Start(at))?;
        file.read_exact(into)
    }

    fn write_file(&self, number: u32, at: u64, bytes: &[u8]) -> io::Result<()> {
        let mut file = open_to_change(&self.rt, self.path(number)?)?;
        file.seek(SeekFrom::Start(at))?;
        file.write_all(bytes)
    }

    fn cut_file(&self, number: u32, to: u64) -> io::Result<()> {
        open_to_change(&self.rt, self.path(number)?)?.set_len(to)
    }

    // The folder too, since a file that is new to it may else be gone after a crash.
    fn sync_file(&self, number: u32) -> io::Result<()> {
        open_to_change(&self.rt, self.path(number)?)?.sync_all()?;
        File::open(&self.rt, self.mounted()?.path.as_path())?.sync_all()
    }
}

impl<R: Files<File = File> + Drop> Disk for FolderDisk<R> {
    ghost nature = { λ d. record { tells = false; takes_memory = false; may_mount = λ name. true } };

    ghost mounted = { λ d. is_some d.folder };

    ghost files = { λ d file. [] };

    ghost faults = { λ d. d.faults };

    fn mount(&mut self, name: &str) -> Result<(), DiskFault> {
        let made = make_folder(&self.rt, name);
        counted(&mut self.faults, made)?;
        match folder_at(self.alloc, name) {
            Ok(folder) => {
                self.folder = Some(folder);
                Ok(())
            }
            Err(NoMemory) => Err(DiskFault::NoMemory),
        }
    }

    fn length(&mut self, file: u32) -> Result<u64, DiskFault> {
        let measured = self.measure(file);
        counted(&mut self.faults, measured)
    }

    fn read_at(&mut self, file: u32, at: u64, into: &mut [u8]) -> Result<(), DiskFault> {
        let read = self.read_file(file, at, into);
        counted(&mut self.faults, read)
    }

    fn write_at(&mut self, file: u32, at: u64, bytes: &[u8]) -> Result<(), DiskFault> {
        let written = self.write_file(file, at, bytes);
        counted(&mut self.faults, written)
    }

    fn cut(&mut self, file: u32, to: u64) -> Result<(), DiskFault> {
        let cut = self.cut_file(file, to);
        counted(&mut self.faults, cut)
    }

    fn sync(&mut self, file: u32) -> Result<(), DiskFault> {
        let synced = self.sync_file(file);
        counted(&mut self.faults, synced)
    }
}
