ghost use Rattle.std.specs.Prelude.{◌≡◌, ◌<◌, IsTrue, None, true, false};

use crate::file_source::{FileSource, read_part};
use crate::folder_disk::FolderDisk;
use crate::stdout_sink::StdoutSink;
use host_disk::{Disk, DiskFault};
use host_source::{Sink, SinkFault, Source, SourceFault};
use std::alloc::Global;
use std::fmt::Display;
use std::fs::{File, Files};
use std::io::Print;
use std::test::Fail;
use std::{fs, io};

// Four bytes of the file `image` from place `at` on.
fn four_of(rt: &impl Files<File = File>, at: u64) -> io::Result<[u8; 4]> {
    let file = File::open(rt, "image")?;
    let mut into = [0; 4];
    read_part(&file, at, &mut into)?;
    Ok(into)
}

#[test]
fn a_read_past_the_end_of_a_file_fails(rt: HostRuntime) -> Result<(), Fail> {
    fs::write(&rt, "image", b"0123456789".as_slice())?;
    assert!(rt; four_of(&rt, 5)? == *b"5678");
    assert!(rt; four_of(&rt, 7).is_err());
    Ok(())
}

// The size of what the name holds; where `into` fits in behind place `at`, it is filled from there on.
fn read_from<S: Source>(
    source: &mut S,
    name: &str,
    at: u64,
    into: &mut [u8],
) -> Result<u64, SourceFault>
    requires free { S.slots source.old 3 ≡ None }
    requires asked { IsTrue ((S.nature source.old).may_attach name.now) }
{
    let size = source.attach(3, name)?;
    if at <= size && into.len() as u64 <= size - at {
        source.read_at(3, at, into)?;
    }
    Ok(size)
}

// The size of the file `image`, and four bytes from place `at` on.
fn part_of<R: Files<File = File> + Drop>(
    alloc: Global,
    rt: R,
    at: u64,
) -> Result<(u64, [u8; 4]), SourceFault> {
    let mut source = FileSource::make(alloc, rt);
    let mut into = [0; 4];
    let size = read_from(&mut source, "image", at, &mut into)?;
    Ok((size, into))
}

#[test]
fn a_part_is_read_at_any_place(rt: HostRuntime) -> Result<(), Fail> {
    fs::write(&rt, "image", b"0123456789".as_slice())?;
    assert!(rt; part_of(rt.alloc(), rt.clone()?, 6)? == (10, *b"6789"));
    Ok(())
}

// A call of a disk.
#[derive(Clone, Copy)]
enum Step {
    Length(u64),
    Read(u64, [u8; 3]),
    Write(u64, &'static str),
    Cut(u64),
    Sync,
}

// The file has this length.
fn has_length<D: Disk>(disk: &mut D, file: u32, bytes: u64) -> Result<bool, DiskFault>
    requires mounted { D.mounted disk.old ≡ true }
    requires file { file < 64 }
{
    Ok(disk.length(file)? == bytes)
}

// The file has these bytes from place `at` on.
fn reads<D: Disk>(disk: &mut D, file: u32, at: u64, bytes: [u8; 3]) -> Result<bool, DiskFault>
    requires mounted { D.mounted disk.old ≡ true }
    requires untold { (D.nature disk.old).tells ≡ false }
    requires file { file < 64 }
    requires at { at < 100 }
{
    let mut into = [0; 3];
    disk.read_at(file, at, &mut into)?;
    Ok(into == bytes)
}

// Makes the call on a file, and says whether it gave the length or the bytes that are named.
fn make<D: Disk>(disk: &mut D, file: u32, step: Step) -> Result<bool, DiskFault>
    requires mounted { D.mounted disk.old ≡ true }
    requires untold { (D.nature disk.old).tells ≡ false }
    requires file { file < 64 }
{
    match step {
        Step::Length(bytes) => has_length(disk, file, bytes),
        Step::Read(at, bytes) if at < 100 => reads(disk, file, at, bytes),
        Step::Write(at, text) if at < 100 && text.len() < 100 => {
            disk.write_at(file, at, text.as_bytes()).and(Ok(true))
        }
        Step::Cut(to) if to < 100 => disk.cut(file, to).and(Ok(true)),
        Step::Sync => disk.sync(file).and(Ok(true)),
        _ => Ok(false),
    }
}

// Makes the call on a file of the folder `report`, which is mounted for it.
fn make_in_report<R: Files<File = File> + Drop>(
    alloc: Global,
    files: R,
    file: u32,
    step: Step,
) -> Result<bool, DiskFault> {
    let mut disk = FolderDisk::make(alloc, files);
    disk.mount("report")?;
    if file < 64 {
        return make(&mut disk, file, step);
    }
    Ok(false)
}

// Calls on a file, and how they end.
const STEPS: &[(u32, Step, Result<bool, DiskFault>)] = &[
    (1, Step::Cut(0), Ok(true)),
    (1, Step::Write(0, "abcdef"), Ok(true)),
    (1, Step::Write(2, "XY"), Ok(true)),
    (1, Step::Length(6), Ok(true)),
    (1, Step::Read(1, *b"bXY"), Ok(true)),
    (1, Step::Cut(4), Ok(true)),
    (1, Step::Sync, Ok(true)),
    (1, Step::Length(4), Ok(true)),
    (1, Step::Read(2, *b"XY?"), Err(DiskFault::Failed)),
    (10, Step::Write(0, "no name"), Err(DiskFault::Failed)),
];

#[test]
fn a_file_of_a_folder_is_written_read_and_cut(rt: HostRuntime) -> Result<(), Fail> {
    for (file, step, end) in STEPS {
        assert!(rt; make_in_report(rt.alloc(), rt.clone()?, *file, *step) == *end);
    }
    let text = fs::read_to_string(&rt, "report/url.txt")?;
    assert!(rt; text.as_str() == "abXY");
    Ok(())
}

// A printer that prints nothing, and fails.
#[derive(Drop)]
struct FullPrinter;

impl Print for FullPrinter {
    fn print<D: Display + Drop>(&self, _: D) -> io::Result<()> {
        Err(io::Error::from(io::ErrorKind::StorageFull))
    }

    fn println<D: Display + Drop>(&self, _: D) -> io::Result<()> {
        Err(io::Error::from(io::ErrorKind::StorageFull))
    }

    fn write_all(&self, _: &[u8]) -> io::Result<()> {
        Err(io::Error::from(io::ErrorKind::StorageFull))
    }
}

// Puts a text, and says how that ended.
fn put_into<O: Sink + Drop>(mut sink: O) -> Result<(), SinkFault> {
    sink.put(b"done pages=0 features=0\n")
}

#[test]
fn what_is_put_is_printed_or_a_fault(rt: HostRuntime) {
    assert!(rt; put_into(StdoutSink::make(rt.stdout())) == Ok(()));
    assert!(rt; put_into(StdoutSink::make(FullPrinter)) == Err(SinkFault::Failed));
}
